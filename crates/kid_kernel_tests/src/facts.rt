//! Calls of facts that no row makes.
ghost use Rattle.std.specs.Prelude.{◌≡◌};
ghost use Rattle.kid_kernel.specs.IsTheory.{IsTheory};
ghost use Rattle.kid_kernel.specs.Key.{key};
ghost use Rattle.kid_kernel.specs.TheoryView.{plain_theory};

use crate::answers::are_terms;
use crate::over::{facts_over, parts, terms_of, theory_of};
use crate::rows::{has_ends, rewrites_by, steps};
use crate::spread::read_row;
use crate::theories::SQUARE;
use kid_kernel::{Facts, Line, Rule, Theory};
use kid_sexp::Tree;
use kid_term::{Path, Terms};
use kid_value::{Sort, Text};
use std::alloc::Global;

/// A name over the inputs, two facts, a move, and a refusal.
const ROW: &str = "(x) ((le 1 n) (le x n)) (again 2) no-match";

fn is_interval(sort: &Sort, from: i64, to: i64) -> bool {
    match sort {
        Sort::Int { lo, hi } => *lo == from && *hi == to,
        _ => false,
    }
}

fn is_name(name: &(Text, Sort), word: &[u8], from: i64, to: i64) -> bool {
    name.0.is(word) && is_interval(&name.1, from, to)
}

/// The names are the input and then the other one.
fn has_names(facts: &Facts) -> bool {
    let [first, second] = facts.names().items() else {
        return false;
    };
    is_name(first, b"n", 0, 100) && is_name(second, b"x", 1, 9)
}

/// There are the facts at the start, and no others.
fn is_start(alloc: Global, facts: &Facts, start: &Tree) -> bool {
    facts.count() == 2
        && are_terms(alloc, facts.items(), start)
        && has_names(facts)
        && has_ends(facts)
}

fn begins(alloc: Global, theory: &Theory, facts: &Facts, start: &Tree) -> bool
    requires { key (plain_theory theory.now) ≡ facts.now.theory }
{
    facts.follow(theory);
    is_start(alloc, facts, start)
}

/// A move adds to the facts, and nothing to the others.
fn adds_alone(
    alloc: Global,
    theory: &Theory,
    facts: Facts,
    others: &Facts,
    start: &Tree,
    step: &Tree,
) -> bool
    requires { key (plain_theory theory.now) ≡ facts.theory }
{
    let mut more = facts;
    steps(alloc, theory, &mut more, step) && more.count() == 3 && is_start(alloc, others, start)
}

/// The copy is as the facts are, and a move adds to it alone.
fn copies(alloc: Global, theory: &Theory, facts: &Facts, start: &Tree, step: &Tree) -> bool
    requires { key (plain_theory theory.now) ≡ facts.now.theory }
{
    match facts.copy(alloc) {
        Ok(copy) => {
            is_start(alloc, &copy, start) && adds_alone(alloc, theory, copy, facts, start, step)
        }
        Err(_) => false,
    }
}

/// A move that is made a thousand times adds as many facts.
fn adds_many(alloc: Global, theory: &Theory, facts: Facts, step: &Tree) -> bool
    requires { key (plain_theory theory.now) ≡ facts.theory }
{
    let mut more = facts;
    for _ in 0..1000 {
        if !steps(alloc, theory, &mut more, step) {
            return false;
        }
    }
    more.count() == 1002 && has_ends(&more)
}

/// No text of a line has such arguments.
fn using(alloc: Global, args: Terms) -> Line {
    Line {
        path: Path::new(alloc),
        back: false,
        rule: Rule::UseFact(1),
        args,
    }
}

/// The first fact makes nothing of itself where arguments are given.
fn takes_none(alloc: Global, theory: &Theory, facts: &Facts, start: &[Tree], want: &Tree) -> bool
    requires { key (plain_theory theory.now) ≡ facts.now.theory }
{
    match (terms_of(alloc, start), start.first()) {
        (Ok(args), Some(old)) => {
            let line = using(alloc, args);
            rewrites_by(alloc, theory, facts, &line, old, want)
        }
        _ => false,
    }
}

fn takes_no_arguments(
    alloc: Global,
    theory: &Theory,
    facts: &Facts,
    start: &Tree,
    want: &Tree,
) -> bool
    requires { key (plain_theory theory.now) ≡ facts.now.theory }
{
    match parts(start) {
        Some(trees) => takes_none(alloc, theory, facts, trees, want),
        None => false,
    }
}

fn all_stand(
    alloc: Global,
    theory: &Theory,
    facts: Facts,
    start: &Tree,
    step: &Tree,
    want: &Tree,
) -> bool
    requires { key (plain_theory theory.now) ≡ facts.theory }
{
    begins(alloc, theory, &facts, start)
        && takes_no_arguments(alloc, theory, &facts, start, want)
        && copies(alloc, theory, &facts, start, step)
        && adds_many(alloc, theory, facts, step)
}

fn stand_over(alloc: Global, theory: &Theory, row: &[Tree]) -> bool
    requires { IsTheory (plain_theory theory.now) }
{
    let [names, start, step, want] = row else {
        return false;
    };
    match facts_over(alloc, theory, names, start) {
        Ok(facts) => all_stand(alloc, theory, facts, start, step, want),
        Err(_) => false,
    }
}

fn stand_for(alloc: Global, theory: &Theory, row: &str) -> bool
    requires { IsTheory (plain_theory theory.now) }
{
    match read_row(alloc, row) {
        Some(forest) => stand_over(alloc, theory, forest.as_slice()),
        None => false,
    }
}

fn stand(alloc: Global, text: &str, row: &str) -> bool {
    match theory_of(alloc, text) {
        Ok(theory) => stand_for(alloc, &theory, row),
        Err(_) => false,
    }
}

#[test]
fn facts_begin_and_are_copied_and_grow(rt: HostRuntime) {
    assert!(rt; stand(rt.alloc(), SQUARE, ROW));
}
