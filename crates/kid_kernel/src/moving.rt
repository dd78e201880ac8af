//! The fact that a move adds.
ghost use Rattle.std.specs.Prelude.{◌≡◌, true, MatchResult, Ok, map};
ghost use Rattle.kid_term.specs.Fitting.{AreSound};
ghost use Rattle.kid_term.specs.Sorting.{sort_of};
ghost use Rattle.kid_term.specs.TermView.{plain_term};
ghost use Rattle.kid_scope.specs.Holds.{has_a_sort};
ghost use Rattle.kid_scope.specs.InstanceView.{Fails, TermGiven};
ghost use Rattle.kid_kernel.specs.Held.{AllSorted};
ghost use Rattle.kid_moves.specs.MoveView.{plain_move};
ghost use Rattle.kid_kernel.specs.Moves as spec;
ghost use Rattle.kid_kernel.specs.Placed.{top_scope};
ghost use Rattle.kid_moves.specs.PlainRule.{left_of, right_of, both_of, again, after_lines};
ghost use Rattle.kid_moves.specs.RuleView.{plain_line};
ghost use Rattle.kid_kernel.specs.Rules.{lines_rewritten};
ghost use Rattle.kid_kernel.specs.TheoryView.{plain_theory};

use crate::comparing::conjuncts;
use crate::concluding::{concluded, rewrite_line};
use crate::parts::{copied, joined};
use crate::theory::Theory;
use kid_moves::{Line, Lines, Move};
use kid_scope::fact_at;
use kid_term::{Term, Why};
use kid_value::Names;
use std::alloc::Global;

fn given(facts: &[Term], k: u32) -> Result<&Term, Why>
    ensures { MatchResult result (λ t. spec.given (map plain_term facts.now) k ≡ Ok (plain_term t.now)) (λ w. Fails w (spec.given (map plain_term facts.now) k)) }
{
    match fact_at(facts, k) {
        None => Err(Why::NoMatch),
        Some(fact) => Ok(fact),
    }
}

fn given_parts(facts: &[Term], k: u32) -> Result<(&Term, &Term), Why>
    ensures { MatchResult result (λ p. spec.given_parts (map plain_term facts.now) k ≡ Ok (plain_term p.0.now, plain_term p.1.now)) (λ w. Fails w (spec.given_parts (map plain_term facts.now) k)) }
{
    match conjuncts(given(facts, k)?) {
        None => Err(Why::NoMatch),
        Some(parts) => Ok(parts),
    }
}

/// The two facts as one.
fn both_given(
    alloc: Global,
    theory: &Theory,
    names: &Names,
    facts: &[Term],
    k: u32,
    l: u32,
) -> Result<Term, Why>
    ensures { TermGiven result (spec.moved (plain_theory theory.now) names.now (map plain_term facts.now) (both_of k l)) }
{
    let a = given(facts, k)?;
    let b = given(facts, l)?;
    joined(alloc, theory, names, a, b)
}

/// The term after the lines.
fn after_lines(
    alloc: Global,
    theory: &Theory,
    names: &Names,
    facts: &[Term],
    term: Term,
    lines: &[Line],
) -> Result<Term, Why>
    requires sound { AreSound theory.now.signature.definitions }
    requires sorted { has_a_sort (sort_of theory.now.signature.definitions names.now (plain_term term)) ≡ true }
    ensures { TermGiven result (lines_rewritten (plain_theory theory.now) (top_scope names.now (map plain_term facts.now)) (map plain_line lines.now) (plain_term term)) }
{
    let mut whole = term;
    for line in lines {
        match rewrite_line(alloc, theory, names, facts, whole, line) {
            Ok(new) => whole = new,
            Err((_, why)) => return Err(why),
        }
    }
    Ok(whole)
}

/// A copy of the fact after the lines.
fn copied_after(
    alloc: Global,
    theory: &Theory,
    names: &Names,
    facts: &[Term],
    k: u32,
    lines: &Lines,
) -> Result<Term, Why>
    requires sound { AreSound theory.now.signature.definitions }
    requires sorted { AllSorted theory.now.signature.definitions names.now (map plain_term facts.now) }
    ensures { TermGiven result (spec.moved (plain_theory theory.now) names.now (map plain_term facts.now) (after_lines k lines.now)) }
{
    let fact = given(facts, k)?;
    let copy = copied(alloc, fact)?;
    after_lines(alloc, theory, names, facts, copy, lines.items())
}

/// The fact that a move adds. It takes time linear in that fact, but for what rules and lines take.
///
/// # Errors
///
/// The refusal of the move, and `Memory` where memory is wanting.
pub(crate) fn moved(
    alloc: Global,
    theory: &Theory,
    names: &Names,
    facts: &[Term],
    step: &Move,
) -> Result<Term, Why>
    requires sound { AreSound theory.now.signature.definitions }
    requires sorted { AllSorted theory.now.signature.definitions names.now (map plain_term facts.now) }
    ensures { TermGiven result (spec.moved (plain_theory theory.now) names.now (map plain_term facts.now) (plain_move step.now)) }
{
    match step {
        Move::Left(k) => copied(alloc, given_parts(facts, *k)?.0),
        Move::Right(k) => copied(alloc, given_parts(facts, *k)?.1),
        Move::Join(k, l) => both_given(alloc, theory, names, facts, *k, *l),
        Move::Again(k) => copied(alloc, given(facts, *k)?),
        Move::Have(rule, terms) => concluded(alloc, theory, names, facts, rule, terms),
        Move::Copy(k, lines) => copied_after(alloc, theory, names, facts, *k, lines),
    }
}
