ghost use Rattle.std.specs.Prelude.{◌≡◌, pos, ◌+ℤ◌, ◌-ℤ◌, MatchOption, FitsSigned};
ghost use Rattle.std.specs.Int.{w64};
ghost use Rattle.kid_value.specs.SortView.{plain_sort};
ghost use Rattle.kid_value.specs.PlainSort.{sets, maps};
ghost use Rattle.kid_value.specs.SortOrder.{join as join_of};
ghost use Rattle.kid_term.specs.Sorted.{allowed, with_join};
ghost use Rattle.kid_term.specs.WordSorts.{count_in as count_within, are_keys as may_be_keys, keys_from as keys_upward};
ghost use Rattle.kid_sorting.specs.Answers.{SortGives};

use crate::allow::{allowed_map, allowed_set};
use crate::common::joined;
use crate::fault::SortFault;
use kid_value::Sort;
use std::alloc::Global;

/// The number as a count, or `None` where it is below 1 or above the most.
pub fn count_in(most: u32, n: i64) -> Option<u32>
    ensures { result ≡ count_within most n }
{
    if 1 <= n && n <= i64::from(most) {
        Some(n as u32)
    } else {
        None
    }
}

/// Whether keys may have the sort.
pub fn are_keys(sort: &Sort) -> bool
    ensures { result ≡ may_be_keys (plain_sort sort.now) }
{
    match sort {
        Sort::Never | Sort::Int { .. } => true,
        _ => false,
    }
}

/// The sort of so many numbers from `lo` on, or `None` where the greatest of them is no i64.
fn keys_from(lo: i64, count: u32) -> Option<Sort>
    ensures { MatchOption result (¬ FitsSigned w64 ((lo +ℤ pos count) -ℤ pos 1)) (λ s. plain_sort s ≡ keys_upward lo count) }
{
    let hi = lo.checked_add(i64::from(count) - 1)?;
    Some(Sort::Int { lo, hi })
}

/// The sort of the sets of such numbers.
#[tactic(auto, using(crate::proofs::KeyLemmas::set_outside))]
pub fn set_of_keys(alloc: Global, lo: i64, count: u32) -> Result<Sort, SortFault>
    ensures { SortGives result (allowed (sets (keys_upward lo count))) }
{
    match keys_from(lo, count) {
        Some(keys) => allowed_set(alloc, keys),
        None => Err(SortFault::Bounds),
    }
}

/// The sort of the maps from such numbers to a sort.
#[tactic(auto, using(crate::proofs::KeyLemmas::map_outside))]
pub fn map_of_keys(alloc: Global, lo: i64, count: u32, value: Sort) -> Result<Sort, SortFault>
    ensures { SortGives result (allowed (maps (keys_upward lo count) (plain_sort value))) }
{
    match keys_from(lo, count) {
        Some(keys) => allowed_map(alloc, keys, value),
        None => Err(SortFault::Bounds),
    }
}

/// The least sort above such numbers and another sort.
#[tactic(auto, using(crate::proofs::KeyLemmas::joined_outside, crate::proofs::KeyLemmas::not_joined))]
pub fn key_or(alloc: Global, lo: i64, count: u32, other: &Sort) -> Result<Sort, SortFault>
    ensures { SortGives result (with_join (join_of (keys_upward lo count) (plain_sort other.now)) allowed) }
{
    if !are_keys(other) {
        return Err(SortFault::Kind);
    }
    match keys_from(lo, count) {
        Some(keys) => joined(alloc, &keys, other),
        None => Err(SortFault::Bounds),
    }
}
