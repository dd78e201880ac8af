ghost use Rattle.std.specs.Prelude.{◌≡◌, ◌∷◌, [], map, MatchOption};
ghost use Rattle.kid_value.specs.SortView.{plain_sort};
ghost use Rattle.kid_value.specs.PlainSort.{ints};
ghost use Rattle.kid_term.specs.NumberSorts.{number_sort as sort_of_number};
ghost use Rattle.kid_sorting.specs.Answers.{SortGives};

use crate::fault::SortFault;
use crate::interval::Interval;
use kid_term::NumberOp;
use kid_value::Sort;

/// The sort of an operator on integers at its arguments' sorts.
pub fn number_sort(op: NumberOp, sorts: &[Sort]) -> Result<Sort, SortFault>
    ensures { SortGives result (sort_of_number op (map plain_sort sorts.now)) }
{
    match sorts {
        [s] => at_one(op, s),
        [s, t] => at_two(op, s, t),
        _ => Err(SortFault::Kind),
    }
}

fn at_one(op: NumberOp, s: &Sort) -> Result<Sort, SortFault>
    ensures { SortGives result (sort_of_number op (plain_sort s.now ∷ [])) }
{
    match (op, s) {
        (NumberOp::Neg, Sort::Int { lo, hi }) => Interval { lo: *lo, hi: *hi }.opposite(),
        _ => Err(SortFault::Kind),
    }
}

fn at_two(op: NumberOp, s: &Sort, t: &Sort) -> Result<Sort, SortFault>
    ensures { SortGives result (sort_of_number op (plain_sort s.now ∷ plain_sort t.now ∷ [])) }
{
    match (s, t) {
        (Sort::Int { lo: a, hi: b }, Sort::Int { lo: c, hi: d }) => at_intervals(
            op,
            &Interval { lo: *a, hi: *b },
            &Interval { lo: *c, hi: *d },
        ),
        _ => Err(SortFault::Kind),
    }
}

fn at_intervals(op: NumberOp, a: &Interval, b: &Interval) -> Result<Sort, SortFault>
    ensures { SortGives result (sort_of_number op (ints a.now.lo a.now.hi ∷ ints b.now.lo b.now.hi ∷ [])) }
{
    match op {
        NumberOp::Le | NumberOp::Lt => Ok(Sort::Bool),
        NumberOp::Add => a.sum(b),
        NumberOp::Sub => a.difference(b),
        NumberOp::Neg => Err(SortFault::Kind),
        NumberOp::Mul => a.product(b),
        NumberOp::Div => a.quotient(b),
        NumberOp::Mod => b.rest(),
        NumberOp::Min => a.lesser(b),
        NumberOp::Max => a.greater(b),
    }
}
