//! Subterms that become their value: without a free name, or held to be true or false.
ghost use Rattle.std.specs.Prelude.{◌≡◌, ◌∷◌, [], true, false, IfOk, Ok};
ghost use Rattle.kid_term.specs.PlainTerm.{truth};
ghost use Rattle.kid_term.specs.Fitting.{AreSound};
ghost use Rattle.kid_term.specs.Sorting.{sort_of};
ghost use Rattle.kid_term.specs.TermView.{plain_term};
ghost use Rattle.kid_scope.specs.Holds.{has_a_sort};
ghost use Rattle.kid_scope.specs.InstanceView.{InstanceGiven, plain_instance};
ghost use Rattle.kid_scope.specs.Instances.{provided};
ghost use Rattle.kid_scope.specs.Scope as scopes;
ghost use Rattle.kid_scope.specs.Settling as spec;

use crate::evaluating::term_of_value;
use crate::scope::Scope;
use kid_scope::{Instance, Within, just, negated};
use kid_sorting::judge::is_truth;
use kid_term::{Literal, Term, Terms, Why};
use kid_value::Memory;
use std::alloc::Global;

/// The term of the value of a term that has a sort.
///
/// # Errors
///
/// `NoMatch` exactly where a name stands free in the term, and `Memory` where memory is wanting.
pub fn compute(alloc: Global, scope: &Scope, term: &Term) -> Result<Instance, Why>
    requires sound { AreSound scope.now.definitions.now }
    requires sorted { has_a_sort (sort_of scope.now.definitions.now scope.now.names (plain_term term.now)) ≡ true }
    ensures { InstanceGiven result (spec.computed scope.now.definitions.now (plain_term term.now)) }
{
    if !term.is_closed() {
        return Err(Why::NoMatch);
    }
    match term_of_value(alloc, scope.definitions, term) {
        Ok(new) => Ok(just(alloc, new)),
        Err(_) => Err(Why::Memory),
    }
}

/// True, provided that the term holds.
///
/// # Errors
///
/// `NoMatch` exactly where the term is no truth value, and `Memory` where memory is wanting.
pub fn hold(alloc: Global, scope: &Scope, term: &Term) -> Result<Instance, Why>
    ensures { InstanceGiven result (spec.settled_as true (plain_term term.now) (sort_of scope.now.definitions.now scope.now.names (plain_term term.now))) }
{
    match is_a_truth(alloc, scope, term) {
        Ok(true) => holding(alloc, term),
        Ok(false) => Err(Why::NoMatch),
        Err(_) => Err(Why::Memory),
    }
}

/// False, provided that the term's negation holds.
///
/// # Errors
///
/// `NoMatch` exactly where the term is no truth value, and `Memory` where memory is wanting.
pub fn fail(alloc: Global, scope: &Scope, term: &Term) -> Result<Instance, Why>
    ensures { InstanceGiven result (spec.settled_as false (scopes.negated (plain_term term.now)) (sort_of scope.now.definitions.now scope.now.names (plain_term term.now))) }
{
    match is_a_truth(alloc, scope, term) {
        Ok(true) => failing(alloc, term),
        Ok(false) => Err(Why::NoMatch),
        Err(_) => Err(Why::Memory),
    }
}

/// Whether the term is a truth value.
#[tactic(auto, using(crate::proofs::JudgingLemmas::truth_same))]
fn is_a_truth(alloc: Global, scope: &Scope, term: &Term) -> Result<bool, Memory>
    ensures { IfOk result (λ b. b ≡ spec.is_a_truth (sort_of scope.now.definitions.now scope.now.names (plain_term term.now))) }
{
    is_truth(alloc, scope.definitions.items(), scope.names.items(), term)
}

fn holding(alloc: Global, term: &Term) -> Result<Instance, Why>
    ensures { InstanceGiven result (provided (plain_term term.now ∷ []) (truth true)) }
{
    match term.copy(alloc) {
        Ok(condition) => under(alloc, condition, true),
        Err(_) => Err(Why::Memory),
    }
}

fn failing(alloc: Global, term: &Term) -> Result<Instance, Why>
    ensures { InstanceGiven result (provided (scopes.negated (plain_term term.now) ∷ []) (truth false)) }
{
    match negated(alloc, term) {
        Ok(condition) => under(alloc, condition, false),
        Err(_) => Err(Why::Memory),
    }
}

/// The truth value, under one condition.
fn under(alloc: Global, condition: Term, value: bool) -> Result<Instance, Why>
    ensures { InstanceGiven result (provided (plain_term condition ∷ []) (truth value)) }
{
    let mut conditions = Terms::new(alloc);
    match conditions.push(condition) {
        Ok(()) => Ok(Instance {
            conditions,
            term: Term::Lit(Literal::Bool(value)),
            within: Within::new(alloc),
        }),
        Err(_) => Err(Why::Memory),
    }
}
