//! Rows, each of them one text: names, the facts at the start, what is done with them, and what comes of it.
//!
//! A line's row has the term, the line, and the new term or the refusal. A move's row has the move, and the new fact or the
//! refusal. A start's row has `begun` or the refusal. A judgement's row has the condition, and `true` or `false`. A proof's row has
//! a list of moves, and the last fact.
ghost use Rattle.std.specs.Prelude.{◌≡◌, true};
ghost use Rattle.kid_term.specs.Sorting.{sort_of as sort_there};
ghost use Rattle.kid_term.specs.TermView.{plain_term};
ghost use Rattle.kid_scope.specs.Holds.{has_a_sort};
ghost use Rattle.kid_kernel.specs.IsTheory.{IsTheory};
ghost use Rattle.kid_kernel.specs.Key.{key};
ghost use Rattle.kid_kernel.specs.TheoryView.{plain_theory};

use crate::answers::{are_terms, is_after, is_answer, is_refusal, is_term};
use crate::over::{facts_over, parts, theory_of};
use crate::spread::read_row;
use crate::theories::ROWS;
use kid_codec::term_of;
use kid_kernel::{Facts, Line, Move, Theory, rewrite};
use kid_lines::{line_of, move_of};
use kid_sexp::Tree;
use kid_sorting::sort_of;
use kid_term::{Term, same};
use std::alloc::Global;
use std::process::Abort;

fn rewrites(
    alloc: Global,
    theory: &Theory,
    facts: &Facts,
    term: Term,
    line: &Line,
    old: &Tree,
    want: &Tree,
) -> bool
    requires theory { key (plain_theory theory.now) ≡ facts.now.theory }
    requires sorted { has_a_sort (sort_there theory.now.signature.definitions facts.now.names (plain_term term)) ≡ true }
{
    let found = rewrite(alloc, theory, facts, term, line);
    is_answer(alloc, &found, old, want)
}

#[tactic(auto, using(crate::proofs::FactLemmas::sorted_over))]
fn rewrites_sorted(
    alloc: Global,
    theory: &Theory,
    facts: &Facts,
    term: Term,
    line: &Line,
    old: &Tree,
    want: &Tree,
) -> bool
    requires { key (plain_theory theory.now) ≡ facts.now.theory }
{
    match sort_of(alloc, &theory.signature, facts.names(), &term) {
        Ok(_) => rewrites(alloc, theory, facts, term, line, old, want),
        Err(_) => false,
    }
}

/// Whether the line makes this of the old term.
pub fn rewrites_by(
    alloc: Global,
    theory: &Theory,
    facts: &Facts,
    line: &Line,
    old: &Tree,
    want: &Tree,
) -> bool
    requires { key (plain_theory theory.now) ≡ facts.now.theory }
{
    match term_of(alloc, old) {
        Ok(term) => rewrites_sorted(alloc, theory, facts, term, line, old, want),
        Err(_) => false,
    }
}

fn rewrites_over(
    alloc: Global,
    theory: &Theory,
    facts: &Facts,
    line: &Tree,
    old: &Tree,
    want: &Tree,
) -> bool
    requires { key (plain_theory theory.now) ≡ facts.now.theory }
{
    match line_of(alloc, line) {
        Ok(line) => rewrites_by(alloc, theory, facts, &line, old, want),
        Err(_) => false,
    }
}

fn line_holds(alloc: Global, theory: &Theory, row: &[Tree]) -> bool
    requires { IsTheory (plain_theory theory.now) }
{
    let [names, start, old, line, want] = row else {
        return false;
    };
    match facts_over(alloc, theory, names, start) {
        Ok(facts) => rewrites_over(alloc, theory, &facts, line, old, want),
        Err(_) => false,
    }
}

/// Whether the tree is this word.
fn is_word(tree: &Tree, word: &[u8]) -> bool {
    match tree {
        Tree::Atom(text) => text.is(word),
        Tree::List(_) => false,
    }
}

fn are_same(found: Option<&Term>, term: Option<&Term>) -> bool {
    match (found, term) {
        (Some(found), Some(term)) => same(found, term),
        (None, None) => true,
        _ => false,
    }
}

/// Whether the fact of the last number is the last one, and there is none of number 0, nor of the one after the last.
pub fn has_ends(facts: &Facts) -> bool {
    match facts.count().checked_add(1) {
        Some(next) => {
            facts.fact(0).is_none()
                && are_same(facts.fact(facts.count()), facts.items().last())
                && facts.fact(next).is_none()
        }
        None => false,
    }
}

/// Whether the last fact is this one.
fn ends_with(alloc: Global, facts: &Facts, want: &Tree) -> bool {
    match facts.fact(facts.count()) {
        Some(fact) => is_term(alloc, fact, want),
        None => false,
    }
}

fn moves(
    alloc: Global,
    theory: &Theory,
    facts: Facts,
    step: &Move,
    start: &Tree,
    want: &Tree,
) -> bool
    requires { key (plain_theory theory.now) ≡ facts.theory }
{
    let mut facts = facts;
    let found = facts.step(alloc, theory, step);
    has_ends(&facts) && is_after(alloc, facts.items(), found, start, want)
}

fn moves_by(
    alloc: Global,
    theory: &Theory,
    facts: Facts,
    step: &Tree,
    start: &Tree,
    want: &Tree,
) -> bool
    requires { key (plain_theory theory.now) ≡ facts.theory }
{
    match move_of(alloc, step) {
        Ok(step) => moves(alloc, theory, facts, &step, start, want),
        Err(_) => false,
    }
}

fn move_holds(alloc: Global, theory: &Theory, row: &[Tree]) -> bool
    requires { IsTheory (plain_theory theory.now) }
{
    let [names, start, step, want] = row else {
        return false;
    };
    match facts_over(alloc, theory, names, start) {
        Ok(facts) => moves_by(alloc, theory, facts, step, start, want),
        Err(_) => false,
    }
}

fn start_holds(alloc: Global, theory: &Theory, row: &[Tree]) -> bool
    requires { IsTheory (plain_theory theory.now) }
{
    let [names, start, want] = row else {
        return false;
    };
    match facts_over(alloc, theory, names, start) {
        Ok(facts) => is_word(want, b"begun") && are_terms(alloc, facts.items(), start),
        Err(why) => is_refusal(why, want),
    }
}

fn judges(alloc: Global, theory: &Theory, facts: &Facts, condition: &Term, want: &Tree) -> bool
    requires { key (plain_theory theory.now) ≡ facts.now.theory }
{
    match facts.holds(alloc, theory, condition) {
        Ok(true) => is_word(want, b"true"),
        Ok(false) => is_word(want, b"false"),
        Err(_) => false,
    }
}

fn judges_over(alloc: Global, theory: &Theory, facts: &Facts, condition: &Tree, want: &Tree) -> bool
    requires { key (plain_theory theory.now) ≡ facts.now.theory }
{
    match term_of(alloc, condition) {
        Ok(condition) => judges(alloc, theory, facts, &condition, want),
        Err(_) => false,
    }
}

fn judgement_holds(alloc: Global, theory: &Theory, row: &[Tree]) -> bool
    requires { IsTheory (plain_theory theory.now) }
{
    let [names, start, condition, want] = row else {
        return false;
    };
    match facts_over(alloc, theory, names, start) {
        Ok(facts) => judges_over(alloc, theory, &facts, condition, want),
        Err(_) => false,
    }
}

/// Whether the move was made.
#[tactic(auto, using(crate::proofs::FactLemmas::steps_over))]
pub fn steps(alloc: Global, theory: &Theory, facts: &mut Facts, step: &Tree) -> bool
    requires { key (plain_theory theory.now) ≡ facts.old.theory }
    ensures { key (plain_theory theory.now) ≡ facts.new.theory }
{
    match move_of(alloc, step) {
        Ok(step) => facts.step(alloc, theory, &step).is_ok(),
        Err(_) => false,
    }
}

fn proves(alloc: Global, theory: &Theory, facts: Facts, steps_of: &[Tree], want: &Tree) -> bool
    requires { key (plain_theory theory.now) ≡ facts.theory }
{
    let mut proof = facts;
    for step in steps_of {
        if !steps(alloc, theory, &mut proof, step) {
            return false;
        }
    }
    ends_with(alloc, &proof, want)
}

fn proves_by(alloc: Global, theory: &Theory, facts: Facts, by: &Tree, want: &Tree) -> bool
    requires { key (plain_theory theory.now) ≡ facts.theory }
{
    match parts(by) {
        Some(trees) => proves(alloc, theory, facts, trees, want),
        None => false,
    }
}

fn proof_holds(alloc: Global, theory: &Theory, row: &[Tree]) -> bool
    requires { IsTheory (plain_theory theory.now) }
{
    let [names, start, by, want] = row else {
        return false;
    };
    match facts_over(alloc, theory, names, start) {
        Ok(facts) => proves_by(alloc, theory, facts, by, want),
        Err(_) => false,
    }
}

/// What the rows of a table are.
#[derive(Clone, Copy)]
pub enum Kind {
    Line,
    Move,
    Start,
    Judgement,
    Proof,
}

fn trees_hold(alloc: Global, theory: &Theory, kind: Kind, row: &[Tree]) -> bool
    requires { IsTheory (plain_theory theory.now) }
{
    match kind {
        Kind::Line => line_holds(alloc, theory, row),
        Kind::Move => move_holds(alloc, theory, row),
        Kind::Start => start_holds(alloc, theory, row),
        Kind::Judgement => judgement_holds(alloc, theory, row),
        Kind::Proof => proof_holds(alloc, theory, row),
    }
}

fn row_holds(alloc: Global, theory: &Theory, kind: Kind, row: &str) -> bool
    requires { IsTheory (plain_theory theory.now) }
{
    match read_row(alloc, row) {
        Some(forest) => trees_hold(alloc, theory, kind, forest.as_slice()),
        None => false,
    }
}

fn each_holds(rt: &impl Abort, alloc: Global, theory: &Theory, kind: Kind, rows: &[&str])
    requires { IsTheory (plain_theory theory.now) }
{
    for row in rows {
        assert!(rt; row_holds(alloc, theory, kind, row), "at {row}");
    }
}

/// Each row holds over the theory of this text.
pub fn hold_over(rt: &impl Abort, alloc: Global, text: &str, kind: Kind, rows: &[&str]) {
    match theory_of(alloc, text) {
        Ok(theory) => each_holds(rt, alloc, &theory, kind, rows),
        Err(_) => assert!(rt; false, "a theory that is not read"),
    }
}

/// Each row holds over the theory of the rows.
pub fn hold(rt: &impl Abort, alloc: Global, kind: Kind, rows: &[&str]) {
    hold_over(rt, alloc, ROWS, kind, rows);
}
