//! When a condition holds in a scope.
ghost use Rattle.std.specs.Prelude.{◌≡◌, ◌&&◌, true, IfOk, Ok};
ghost use Rattle.kid_value.specs.SortView.{plain_sort};
ghost use Rattle.kid_term.specs.Fitting.{AreSound};
ghost use Rattle.kid_term.specs.Sorting.{sort_of};
ghost use Rattle.kid_term.specs.TermView.{plain_term};
ghost use Rattle.kid_scope.specs.Holds as spec;
ghost use Rattle.kid_kernel.specs.Leading.{IsBounded};
ghost use Rattle.kid_kernel.specs.ScopeView.{plain_scope};
ghost use Rattle.kid_kernel.specs.SortedLaw.{Sorts};

use crate::comparing::{Comparison, compared, conjuncts};
use crate::evaluating::is_true;
use crate::judging::sort_in;
use crate::scope::Scope;
use kid_scope::{lies_at_most, lies_below, stands_in};
use kid_term::Term;
use kid_value::{Memory, Sort};
use std::alloc::Global;

/// Whether a condition has a sort in the scope and holds there: as it stands, or as both parts of a
/// conjunction. It holds as it stands where it is a fact or assumed, has no free name and is true,
/// or is true by the least sorts of the two sides that it compares.
///
/// # Errors
///
/// Fails where memory is wanting.
pub fn holds(alloc: Global, scope: &Scope, condition: &Term) -> Result<bool, Memory>
    requires { AreSound scope.now.definitions.now }
    ensures { IfOk result (λ b. b ≡ spec.holds scope.now.definitions.now (plain_scope scope.now) (plain_term condition.now)) }
{
    if !has_a_sort(alloc, scope, condition)? {
        return Ok(false);
    }
    is_held(alloc, scope, condition)
}

fn has_a_sort(alloc: Global, scope: &Scope, term: &Term) -> Result<bool, Memory>
    ensures { IfOk result (λ b. b ≡ spec.has_a_sort (sort_of scope.now.definitions.now scope.now.names (plain_term term.now))) }
{
    let found = sort_in(alloc, scope.definitions, scope.names.items(), term)?;
    Ok(found.is_some())
}

/// Whether a condition with a sort holds as it stands, or as both parts of a conjunction.
#[cycle(held)]
fn is_held(alloc: Global, scope: &Scope, condition: &Term) -> Result<bool, Memory>
    requires sound { AreSound scope.now.definitions.now }
    requires sorted { spec.has_a_sort (sort_of scope.now.definitions.now scope.now.names (plain_term condition.now)) ≡ true }
    ensures { IfOk result (λ b. b ≡ spec.is_held scope.now.definitions.now (plain_scope scope.now) (plain_term condition.now)) }
{
    if holds_whole(alloc, scope, condition)? {
        return Ok(true);
    }
    match conjuncts(condition) {
        Some((first, second)) => both_held(alloc, scope, first, second),
        None => Ok(false),
    }
}

#[cycle(held)]
fn both_held(alloc: Global, scope: &Scope, first: &Term, second: &Term) -> Result<bool, Memory>
    requires sound { AreSound scope.now.definitions.now }
    requires first { spec.has_a_sort (sort_of scope.now.definitions.now scope.now.names (plain_term first.now)) ≡ true }
    requires second { spec.has_a_sort (sort_of scope.now.definitions.now scope.now.names (plain_term second.now)) ≡ true }
    ensures { IfOk result (λ b. b ≡ (spec.is_held scope.now.definitions.now (plain_scope scope.now) (plain_term first.now) && spec.is_held scope.now.definitions.now (plain_scope scope.now) (plain_term second.now))) }
{
    if !is_held(alloc, scope, first)? {
        return Ok(false);
    }
    is_held(alloc, scope, second)
}

fn holds_whole(alloc: Global, scope: &Scope, condition: &Term) -> Result<bool, Memory>
    requires sound { AreSound scope.now.definitions.now }
    requires sorted { spec.has_a_sort (sort_of scope.now.definitions.now scope.now.names (plain_term condition.now)) ≡ true }
    ensures { IfOk result (λ b. b ≡ spec.holds_whole scope.now.definitions.now (plain_scope scope.now) (plain_term condition.now)) }
{
    if is_given(scope, condition) {
        return Ok(true);
    }
    if is_plainly_true(alloc, scope, condition)? {
        return Ok(true);
    }
    by_bounds(alloc, scope, condition)
}

/// Whether the condition is a fact or assumed.
fn is_given(scope: &Scope, condition: &Term) -> bool
    ensures { result ≡ spec.is_given scope.now.definitions.now (plain_scope scope.now) (plain_term condition.now) }
{
    stands_in(condition, scope.facts) || stands_in(condition, scope.assumed.items())
}

/// Whether no name stands free in the condition, and it is true.
fn is_plainly_true(alloc: Global, scope: &Scope, condition: &Term) -> Result<bool, Memory>
    requires sound { AreSound scope.now.definitions.now }
    requires sorted { spec.has_a_sort (sort_of scope.now.definitions.now scope.now.names (plain_term condition.now)) ≡ true }
    ensures { IfOk result (λ b. b ≡ spec.is_plainly_true scope.now.definitions.now (plain_scope scope.now) (plain_term condition.now)) }
{
    if !condition.is_closed() {
        return Ok(false);
    }
    is_true(alloc, scope.definitions, condition)
}

/// Whether what the condition compares lies apart by the least sorts of both sides.
fn by_bounds(alloc: Global, scope: &Scope, condition: &Term) -> Result<bool, Memory>
    requires { IsBounded (plain_term condition.now) }
    ensures { IfOk result (λ b. b ≡ spec.by_bounds scope.now.definitions.now (plain_scope scope.now) (plain_term condition.now)) }
{
    match compared(condition) {
        Some(Comparison::AtMost(a, b)) => are_at_most(alloc, scope, a, b),
        Some(Comparison::Below(a, b)) => are_below(alloc, scope, a, b),
        None => Ok(false),
    }
}

/// Whether by their least sorts the first is at most the second.
fn are_at_most(alloc: Global, scope: &Scope, a: &Term, b: &Term) -> Result<bool, Memory>
    requires first { IsBounded (plain_term a.now) }
    requires second { IsBounded (plain_term b.now) }
    ensures { IfOk result (λ t. t ≡ spec.lies_at_most (spec.sort_here scope.now.definitions.now (plain_scope scope.now) (plain_term a.now)) (spec.sort_here scope.now.definitions.now (plain_scope scope.now) (plain_term b.now))) }
{
    match sort_here(alloc, scope, a)? {
        Some(low) => is_at_most(alloc, scope, &low, b),
        None => Ok(false),
    }
}

fn is_at_most(alloc: Global, scope: &Scope, low: &Sort, b: &Term) -> Result<bool, Memory>
    requires { IsBounded (plain_term b.now) }
    ensures { IfOk result (λ t. t ≡ spec.lies_at_most (Ok (plain_sort low.now)) (spec.sort_here scope.now.definitions.now (plain_scope scope.now) (plain_term b.now))) }
{
    match sort_here(alloc, scope, b)? {
        Some(high) => Ok(lies_at_most(low, &high)),
        None => Ok(false),
    }
}

/// Whether by their least sorts the first is less than the second.
fn are_below(alloc: Global, scope: &Scope, a: &Term, b: &Term) -> Result<bool, Memory>
    requires first { IsBounded (plain_term a.now) }
    requires second { IsBounded (plain_term b.now) }
    ensures { IfOk result (λ t. t ≡ spec.lies_below (spec.sort_here scope.now.definitions.now (plain_scope scope.now) (plain_term a.now)) (spec.sort_here scope.now.definitions.now (plain_scope scope.now) (plain_term b.now))) }
{
    match sort_here(alloc, scope, a)? {
        Some(low) => is_below(alloc, scope, &low, b),
        None => Ok(false),
    }
}

fn is_below(alloc: Global, scope: &Scope, low: &Sort, b: &Term) -> Result<bool, Memory>
    requires { IsBounded (plain_term b.now) }
    ensures { IfOk result (λ t. t ≡ spec.lies_below (Ok (plain_sort low.now)) (spec.sort_here scope.now.definitions.now (plain_scope scope.now) (plain_term b.now))) }
{
    match sort_here(alloc, scope, b)? {
        Some(high) => Ok(lies_below(low, &high)),
        None => Ok(false),
    }
}

/// The least sort of a term, if it has one.
fn sort_here(alloc: Global, scope: &Scope, term: &Term) -> Result<Option<Sort>, Memory>
    requires { IsBounded (plain_term term.now) }
    ensures { IfOk result (λ o. Sorts o (spec.sort_here scope.now.definitions.now (plain_scope scope.now) (plain_term term.now))) }
{
    sort_in(alloc, scope.definitions, scope.names.items(), term)
}
