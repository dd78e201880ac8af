ghost use Rattle.std.specs.Prelude.{◌≡◌, ◌∷◌, [], map};
ghost use Rattle.kid_value.specs.SortView.{plain_sort};
ghost use Rattle.kid_value.specs.PlainSort.{pairs};
ghost use Rattle.kid_term.specs.Sorted.{allowed};
ghost use Rattle.kid_term.specs.PairSorts.{pair_sort as sort_of_pair};
ghost use Rattle.kid_sorting.specs.Answers.{SortGives};

use crate::allow::{allow, allowed_pair};
use crate::fault::SortFault;
use kid_term::PairOp;
use kid_value::Sort;
use std::alloc::Global;

/// The sort of an operator on pairs at its arguments' sorts.
pub fn pair_sort(alloc: Global, op: PairOp, sorts: &[Sort]) -> Result<Sort, SortFault>
    ensures { SortGives result (sort_of_pair op (map plain_sort sorts.now)) }
{
    match sorts {
        [s] => at_one(alloc, op, s),
        [s, t] => at_two(alloc, op, s, t),
        _ => Err(SortFault::Kind),
    }
}

fn at_one(alloc: Global, op: PairOp, s: &Sort) -> Result<Sort, SortFault>
    ensures { SortGives result (sort_of_pair op (plain_sort s.now ∷ [])) }
{
    match (op, s) {
        (PairOp::Fst, Sort::Pair(first, _)) => allow(first.copy(alloc)?),
        (PairOp::Snd, Sort::Pair(_, second)) => allow(second.copy(alloc)?),
        _ => Err(SortFault::Kind),
    }
}

fn at_two(alloc: Global, op: PairOp, s: &Sort, t: &Sort) -> Result<Sort, SortFault>
    ensures { SortGives result (sort_of_pair op (plain_sort s.now ∷ plain_sort t.now ∷ [])) }
{
    match op {
        PairOp::Pair => pair_of(alloc, s, t),
        PairOp::Fst | PairOp::Snd => Err(SortFault::Kind),
    }
}

fn pair_of(alloc: Global, s: &Sort, t: &Sort) -> Result<Sort, SortFault>
    ensures { SortGives result (allowed (pairs (plain_sort s.now) (plain_sort t.now))) }
{
    let first = s.copy(alloc)?;
    let second = t.copy(alloc)?;
    allowed_pair(alloc, first, second)
}
