//! Whether terms have sorts, and which.
ghost use Rattle.std.specs.Prelude.{◌≡◌, IfOk, map};
ghost use Rattle.kid_value.specs.NameView.{plain_name};
ghost use Rattle.kid_value.specs.SortView.{plain_sort};
ghost use Rattle.kid_term.specs.Sorted.{Sorted};
ghost use Rattle.kid_term.specs.Sorting.{sort_of};
ghost use Rattle.kid_term.specs.TermView.{plain_term};
ghost use Rattle.kid_sorting.specs.Answers.{Fails};
ghost use Rattle.kid_scope.specs.InstanceView.{plain_part};
ghost use Rattle.kid_scope.specs.Rewriting as spec;
ghost use Rattle.kid_kernel.specs.Judging.{Refuses, Judges};
ghost use Rattle.kid_kernel.specs.SortedLaw.{Sorts};

use kid_sorting::{SortFault, judge, sort_over};
use kid_term::{Defs, Term, Why};
use kid_value::{Memory, Sort, Text};
use std::alloc::Global;

/// Why a step is refused where a term has a fault in its sort.
pub fn why(fault: SortFault) -> Why
    ensures { (r : Sorted) → Fails fault r → Refuses result (spec.unsorted r) }
{
    match fault {
        SortFault::Size => Why::Limit,
        SortFault::TermDeep => Why::Limit,
        SortFault::Unknown => Why::IllSorted,
        SortFault::Kind => Why::IllSorted,
        SortFault::Bounds => Why::IllSorted,
        SortFault::Shadow => Why::IllSorted,
        SortFault::Memory => Why::Memory,
    }
}

/// Whether a term has a sort over the definitions and the names.
///
/// # Errors
///
/// `Limit` exactly where the term is too large or too deep, `IllSorted` exactly where else it has
/// no sort, and `Memory` where memory is wanting.
pub fn is_sorted(
    alloc: Global,
    definitions: &Defs,
    names: &[(Text, Sort)],
    term: &Term,
) -> Result<(), Why>
    ensures { Judges result (spec.unsorted (sort_of definitions.now (map plain_name names.now) (plain_term term.now))) }
{
    match sort_over(alloc, definitions.items(), names, term) {
        Ok(_) => Ok(()),
        Err(fault) => Err(why(fault)),
    }
}

/// The sort of a term, if it has one.
///
/// # Errors
///
/// Fails where memory is wanting.
pub fn sort_in(
    alloc: Global,
    definitions: &Defs,
    names: &[(Text, Sort)],
    term: &Term,
) -> Result<Option<Sort>, Memory>
    ensures { IfOk result (λ o. Sorts o (sort_of definitions.now (map plain_name names.now) (plain_term term.now))) }
{
    match sort_over(alloc, definitions.items(), names, term) {
        Ok(sort) => Ok(Some(sort)),
        Err(SortFault::Memory) => Err(Memory),
        Err(_) => Ok(None),
    }
}

/// Whether the term's sort lies within this one.
#[tactic(auto, using(crate::proofs::JudgingLemmas::within_same))]
pub fn is_within(
    alloc: Global,
    definitions: &Defs,
    names: &[(Text, Sort)],
    sort: &Sort,
    term: &Term,
) -> Result<bool, Memory>
    ensures { IfOk result (λ b. b ≡ spec.lies_within (plain_sort sort.now) (sort_of definitions.now (map plain_name names.now) (plain_term term.now))) }
{
    judge::is_within(alloc, sort, definitions.items(), names, term)
}

/// Whether the sort of each of these terms lies within the one that stands beside it.
///
/// # Errors
///
/// Fails where memory is wanting.
pub fn all_within(
    alloc: Global,
    definitions: &Defs,
    names: &[(Text, Sort)],
    parts: &[(Term, Sort)],
) -> Result<bool, Memory>
    ensures { IfOk result (λ b. b ≡ spec.all_within definitions.now (map plain_name names.now) (map plain_part parts.now)) }
{
    for part in parts {
        if !is_within(alloc, definitions, names, &part.1, &part.0)? {
            return Ok(false);
        }
    }
    Ok(true)
}
