ghost use Rattle.std.specs.Prelude.{◌≡◌, ◌∷◌, [], map};
ghost use Rattle.kid_value.specs.SortView.{plain_sort};
ghost use Rattle.kid_term.specs.LogicSorts.{logic_sort as sort_of_logic};
ghost use Rattle.kid_sorting.specs.Answers.{SortGives};

use crate::common::{comparable, joined};
use crate::fault::SortFault;
use kid_term::LogicOp;
use kid_value::Sort;
use std::alloc::Global;

/// The sort of an operator on truth values at its arguments' sorts.
pub fn logic_sort(alloc: Global, op: LogicOp, sorts: &[Sort]) -> Result<Sort, SortFault>
    ensures { SortGives result (sort_of_logic op (map plain_sort sorts.now)) }
{
    match sorts {
        [s] => at_one(op, s),
        [s, t] => at_two(alloc, op, s, t),
        [p, s, t] => at_three(alloc, op, p, s, t),
        _ => Err(SortFault::Kind),
    }
}

fn at_one(op: LogicOp, s: &Sort) -> Result<Sort, SortFault>
    ensures { SortGives result (sort_of_logic op (plain_sort s.now ∷ [])) }
{
    match (op, s) {
        (LogicOp::Not, Sort::Bool) => Ok(Sort::Bool),
        _ => Err(SortFault::Kind),
    }
}

fn at_two(alloc: Global, op: LogicOp, s: &Sort, t: &Sort) -> Result<Sort, SortFault>
    ensures { SortGives result (sort_of_logic op (plain_sort s.now ∷ plain_sort t.now ∷ [])) }
{
    match (op, s, t) {
        (LogicOp::And | LogicOp::Or | LogicOp::Implies, Sort::Bool, Sort::Bool) => Ok(Sort::Bool),
        (LogicOp::Eq, _, _) => comparable(alloc, s, t),
        _ => Err(SortFault::Kind),
    }
}

fn at_three(alloc: Global, op: LogicOp, p: &Sort, s: &Sort, t: &Sort) -> Result<Sort, SortFault>
    ensures { SortGives result (sort_of_logic op (plain_sort p.now ∷ plain_sort s.now ∷ plain_sort t.now ∷ [])) }
{
    match (op, p) {
        (LogicOp::If, Sort::Bool) => joined(alloc, s, t),
        _ => Err(SortFault::Kind),
    }
}
