ghost use Rattle.std.specs.Prelude.{◌≡◌, Ok, IfOk, map};
ghost use Rattle.std.specs.Option.{option_map};
ghost use Rattle.kid_value.specs.SortView.{plain_sort};
ghost use Rattle.kid_value.specs.PlainSort.{bools, sets};
ghost use Rattle.kid_value.specs.SortOrder.{join as join_of};
ghost use Rattle.kid_term.specs.Sorted.{allowed, with_join, join_all as join_of_all};
ghost use Rattle.kid_sorting.specs.Answers.{SortGives};

use crate::allow::{allow, allowed_set};
use crate::fault::SortFault;
use kid_value::{Memory, Sort, join};
use std::alloc::Global;

/// The least sort above both, if it is there and allowed.
pub fn joined(alloc: Global, s: &Sort, t: &Sort) -> Result<Sort, SortFault>
    ensures { SortGives result (with_join (join_of (plain_sort s.now) (plain_sort t.now)) allowed) }
{
    match join(alloc, s, t)? {
        Some(sort) => allow(sort),
        None => Err(SortFault::Kind),
    }
}

/// The truth values, if there is a sort above both.
pub fn comparable(alloc: Global, s: &Sort, t: &Sort) -> Result<Sort, SortFault>
    ensures { SortGives result (with_join (join_of (plain_sort s.now) (plain_sort t.now)) (λ _. Ok bools)) }
{
    match join(alloc, s, t)? {
        Some(_) => Ok(Sort::Bool),
        None => Err(SortFault::Kind),
    }
}

/// The sort of the sets of the least sort above both.
pub fn set_of_joined(alloc: Global, s: &Sort, t: &Sort) -> Result<Sort, SortFault>
    ensures { SortGives result (with_join (join_of (plain_sort s.now) (plain_sort t.now)) (λ e. allowed (sets e))) }
{
    match join(alloc, s, t)? {
        Some(sort) => allowed_set(alloc, sort),
        None => Err(SortFault::Kind),
    }
}

/// An equal sort to `whole`, if there is a sort above both others.
pub fn whole_if_joined(alloc: Global, s: &Sort, t: &Sort, whole: &Sort) -> Result<Sort, SortFault>
    ensures { SortGives result (with_join (join_of (plain_sort s.now) (plain_sort t.now)) (λ _. allowed (plain_sort whole.now))) }
{
    match join(alloc, s, t)? {
        Some(_) => allow(whole.copy(alloc)?),
        None => Err(SortFault::Kind),
    }
}

/// The least sort above all, or `None` where there is none.
#[tactic(auto, using(crate::proofs::JoinLemmas::never_first, crate::proofs::JoinLemmas::onto_last, crate::proofs::JoinLemmas::joined_onto_none))]
pub fn join_all(alloc: Global, sorts: &[Sort]) -> Result<Option<Sort>, Memory>
    ensures { IfOk result (λ o. option_map plain_sort o ≡ join_of_all (map plain_sort sorts.now)) }
{
    let mut whole = Sort::Never;
    let mut rest = sorts;
    while let Some((last, earlier)) = rest.split_last() {
        match join(alloc, last, &whole)? {
            Some(sort) => whole = sort,
            None => return Ok(None),
        }
        rest = earlier;
    }
    Ok(Some(whole))
}
