//! Rewriting of one subterm.
ghost use Rattle.std.specs.Prelude.{◌≡◌, IfOk, Some, map, true};
ghost use Rattle.kid_term.specs.Fitting.{AreSound};
ghost use Rattle.kid_term.specs.Names.{latest_first};
ghost use Rattle.kid_term.specs.PlainTerm.{PlainTerm};
ghost use Rattle.kid_term.specs.Places.{put_at};
ghost use Rattle.kid_term.specs.Replacing.{subterm};
ghost use Rattle.kid_term.specs.Sorting.{sort_of};
ghost use Rattle.kid_term.specs.TermView.{plain_term};
ghost use Rattle.kid_scope.specs.Holds.{has_a_sort};
ghost use Rattle.kid_scope.specs.InstanceView.{InstanceGiven, plain_instance};
ghost use Rattle.kid_scope.specs.Rewriting as spec;
ghost use Rattle.kid_scope.specs.Scope.{scope_at};
ghost use Rattle.kid_kernel.specs.Placed.{IsPlaced, IsThere, Finds, Stands, Rewrote, KeepsAt, licensed_by, settled_within, top_scope};
ghost use Rattle.kid_kernel.specs.ScopeView.{plain_scope};
ghost use Rattle.kid_kernel.specs.TheoryView.{plain_theory};

use crate::conditions::licensed;
use crate::equal::Equal;
use crate::judging::{all_within, is_sorted};
use crate::scope::{Scope, scope_at};
use crate::theory::Theory;
use kid_scope::{Instance, Within};
use kid_term::{Path, Term, Why};
use kid_value::Names;
use std::alloc::Global;

/// What the rule makes of the term, where its conditions hold.
fn made<E: Equal>(
    alloc: Global,
    theory: &Theory,
    scope: &Scope,
    term: &Term,
    rule: &E,
) -> Result<Instance, Why>
    requires { IsPlaced (plain_theory theory.now) scope.now (plain_term term.now) }
    ensures { InstanceGiven result (licensed_by (E.rewrites rule.now) (plain_theory theory.now) (plain_scope scope.now) (plain_term term.now)) }
{
    match rule.instance(alloc, theory, scope, term) {
        Ok(new) => licensed(alloc, scope, new),
        Err(why) => Err(why),
    }
}

/// What the rule makes of the subterm at the path, and the scope there.
fn found<'a, E: Equal>(
    alloc: Global,
    theory: &'a Theory,
    names: &Names,
    facts: &'a [Term],
    term: &Term,
    path: &Path,
    rule: &E,
) -> Result<(Scope<'a>, Instance), Why>
    requires sound { AreSound theory.now.signature.definitions }
    requires sorted { has_a_sort (sort_of theory.now.signature.definitions names.now (plain_term term.now)) ≡ true }
    ensures { Finds result (plain_theory theory.now) (spec.made (E.rewrites rule.now) (plain_theory theory.now) (top_scope names.now (map plain_term facts.now)) (plain_term term.now) path.now) (scope_at (latest_first theory.now.signature.definitions) (plain_term term.now) path.now (top_scope names.now (map plain_term facts.now))) }
{
    match term.at(path) {
        None => Err(Why::NoPath),
        Some(old) => match scope_at(alloc, theory.signature.defs(), names, facts, term, path) {
            Err(_) => Err(Why::Memory),
            Ok(scope) => match made(alloc, theory, &scope, old, rule) {
                Err(why) => Err(why),
                Ok(new) => Ok((scope, new)),
            },
        },
    }
}

/// That the whole term is sorted, and each of these terms lies within its sort.
pub(crate) fn may_stand(
    alloc: Global,
    scope: &Scope,
    names: &Names,
    within: &Within,
    whole: &Term,
) -> Result<(), Why>
    ensures { Stands result (plain_term whole.now) (settled_within scope.now.definitions.now (plain_scope scope.now) names.now within.now (plain_term whole.now)) }
{
    match is_sorted(alloc, scope.definitions, names.items(), whole) {
        Err(why) => Err(why),
        Ok(()) => match all_within(
            alloc,
            scope.definitions,
            scope.names.items(),
            within.items(),
        ) {
            Err(_) => Err(Why::Memory),
            Ok(true) => Ok(()),
            Ok(false) => Err(Why::IllSorted),
        },
    }
}

/// The old term, where another stood in its place.
#[tactic(auto, using(kid_scope::proofs::PutBack::put_back, kid_scope::proofs::PutBack::never_absent))]
fn undone(whole: Term, path: &Path, old: Term) -> Term
    ensures { (t new : PlainTerm) → plain_term whole ≡ put_at t path.now new → subterm t path.now ≡ Some (plain_term old) → plain_term result ≡ t }
{
    match whole.replace(path, old) {
        Ok((term, _)) => term,
        Err((term, _)) => term,
    }
}

/// The term with another at the path, where that may stand.
fn put(
    alloc: Global,
    scope: &Scope,
    names: &Names,
    term: Term,
    path: &Path,
    new: Instance,
) -> Result<Term, (Term, Why)>
    requires { IsThere (plain_term term) path.now }
    ensures { Rewrote result (plain_term term) (spec.settled scope.now.definitions.now (plain_scope scope.now) names.now (plain_instance new) (put_at (plain_term term) path.now (plain_term new.term))) }
{
    match term.replace(path, new.term) {
        Err((term, _)) => Err((term, Why::NoPath)),
        Ok((whole, old)) => match may_stand(alloc, scope, names, &new.within, &whole) {
            Ok(()) => Ok(whole),
            Err(why) => Err((undone(whole, path, old), why)),
        },
    }
}

/// The term with the subterm at the path rewritten by the rule, or the old one with why it is
/// refused.
fn exchanged<E: Equal>(
    alloc: Global,
    theory: &Theory,
    names: &Names,
    facts: &[Term],
    term: Term,
    path: &Path,
    rule: &E,
) -> Result<Term, (Term, Why)>
    requires sound { AreSound theory.now.signature.definitions }
    requires sorted { has_a_sort (sort_of theory.now.signature.definitions names.now (plain_term term)) ≡ true }
    ensures { Rewrote result (plain_term term) (spec.rewritten (E.rewrites rule.now) (plain_theory theory.now) (top_scope names.now (map plain_term facts.now)) (plain_term term) path.now) }
{
    match found(alloc, theory, names, facts, &term, path, rule) {
        Err(why) => Err((term, why)),
        Ok((scope, new)) => put(alloc, &scope, names, term, path, new),
    }
}

/// The term with the subterm at the path rewritten by the rule.
///
/// # Errors
///
/// Gives the old term back with the first refusal: `NoPath` where the path is not there, that of
/// the rule, `Condition` with the number of the first condition that does not hold, `IllSorted` or
/// `Limit` where the whole new term has no sort, `IllSorted` where a term does not lie within its
/// sort, and `Memory` where memory is wanting.
pub(crate) fn rewrite_at<E: Equal>(
    alloc: Global,
    theory: &Theory,
    names: &Names,
    facts: &[Term],
    term: Term,
    path: &Path,
    rule: &E,
) -> Result<Term, (Term, Why)>
    requires sound { AreSound theory.now.signature.definitions }
    requires sorted { has_a_sort (sort_of theory.now.signature.definitions names.now (plain_term term)) ≡ true }
    ensures exact { Rewrote result (plain_term term) (spec.rewritten (E.rewrites rule.now) (plain_theory theory.now) (top_scope names.now (map plain_term facts.now)) (plain_term term) path.now) }
    // The new term has the old one's value wherever the scope is met.
    ensures kept { IfOk result (λ new. KeepsAt (plain_theory theory.now) (top_scope names.now (map plain_term facts.now)) (plain_term term) (plain_term new)) }
{
    exchanged(alloc, theory, names, facts, term, path, rule)
}
