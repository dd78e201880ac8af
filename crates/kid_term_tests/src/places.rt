//! Subterms by their paths. The steps of a path are terms: a digit for each, `m` for the greatest step, and `q` for 250 steps to the
//! first child.
use crate::notation::{is, put_term, terms};
use kid_term::{Literal, Path, Term};
use std::alloc::Global;
use std::process::Abort;

const GREATEST: u32 = 4294967295;

fn go(path: &mut Path, step: u32) -> Option<()> {
    path.push(step).ok()
}

fn go_down(path: &mut Path, count: u32) -> Option<()> {
    for _ in 0..count {
        go(path, 0)?;
    }
    Some(())
}

fn follow(path: &mut Path, step: &Term) -> Option<()> {
    match step {
        Term::Lit(Literal::Int(n)) => go(path, u32::try_from(*n).ok()?),
        Term::Var(name) => if name.is(b"q") {
            go_down(path, 250)
        } else {
            go(path, GREATEST)
        },
        _ => None,
    }
}

// the steps are read from the last to the first
fn path(alloc: Global, steps: &[Term]) -> Option<Path> {
    let mut path = Path::new(alloc);
    for step in steps.iter().rev() {
        follow(&mut path, step)?;
    }
    Some(path)
}

fn is_at(alloc: Global, terms: &[Term]) -> Option<bool> {
    match terms {
        [want, steps @ .., term] => match term.at(&path(alloc, steps)?) {
            Some(found) => Some(is(found, want)),
            None => None,
        },
        _ => None,
    }
}

fn is_found(alloc: Global, text: &str) -> bool {
    match terms(alloc, text) {
        Some(terms) => matches!(is_at(alloc, &terms), Some(true)),
        None => false,
    }
}

fn finds(rt: &impl Abort, alloc: Global, rows: &[&str]) {
    for row in rows {
        assert!(rt; is_found(alloc, row), "at {row}");
    }
}

// a term, a path, and what stands there
const FOUND: [&str; 11] = [
    "x x",
    "<xy <xy",
    "<xy 0 x",
    "<xy 1 y",
    "?pqx 2 x",
    "$fxy 1 y",
    ":9x 0 x",
    "Ays<xy 0 s",
    "Ays<xy 1 <xy",
    "Ays<xy 11 y",
    "AyOxsTy 01 T",
];

#[test]
fn finds_subterms(rt: HostRuntime) {
    finds(&rt, rt.alloc(), &FOUND);
}

fn is_nowhere(alloc: Global, terms: &[Term]) -> Option<bool> {
    match terms {
        [steps @ .., term] => Some(term.at(&path(alloc, steps)?).is_none()),
        _ => None,
    }
}

fn is_missing(alloc: Global, text: &str) -> bool {
    match terms(alloc, text) {
        Some(terms) => matches!(is_nowhere(alloc, &terms), Some(true)),
        None => false,
    }
}

fn misses(rt: &impl Abort, alloc: Global, rows: &[&str]) {
    for row in rows {
        assert!(rt; is_missing(alloc, row), "at {row}");
    }
}

// a term, and a path that is one step too long or goes beyond the last child
const MISSING: [&str; 10] = [
    "x 0",
    "3 0",
    "E 0",
    "<xy 2",
    "<xy 10",
    "<xy m",
    "Ays<xy 2",
    "Ays<xy 12",
    "Ays<xy 00",
    "'x 0",
];

#[test]
fn finds_nothing_elsewhere(rt: HostRuntime) {
    misses(&rt, rt.alloc(), &MISSING);
}

fn are_both(terms: &[Term]) -> bool {
    match terms {
        [other, whole, .., made, left] => is(made, whole) && is(left, other),
        _ => false,
    }
}

fn put_both(terms: &mut Vec<Term>, first: Term, second: Term) -> Option<()> {
    let put = put_term(terms, first);
    put_term(terms, second)?;
    put
}

// puts the whole and the other term that was made or given back, and tells whether it was made
fn put_result(terms: &mut Vec<Term>, made: Result<(Term, Term), (Term, Term)>) -> Option<bool> {
    match made {
        Ok((whole, old)) => {
            put_both(terms, whole, old)?;
            Some(true)
        }
        Err((whole, new)) => {
            put_both(terms, whole, new)?;
            Some(false)
        }
    }
}

fn put_replaced(terms: &mut Vec<Term>, path: &Path, term: Term) -> Option<bool> {
    match terms.pop() {
        Some(new) => put_result(terms, term.replace(path, new)),
        None => None,
    }
}

fn path_among(alloc: Global, terms: &[Term]) -> Option<Path> {
    match terms {
        [_, _, steps @ .., _, _] => path(alloc, steps),
        _ => None,
    }
}

// whether the term was made or given back, where both terms are as they should be
fn replaced(alloc: Global, text: &str) -> Option<bool> {
    let mut terms = terms(alloc, text)?;
    let path = path_among(alloc, &terms)?;
    let made = match terms.pop() {
        Some(term) => put_replaced(&mut terms, &path, term)?,
        None => return None,
    };
    if are_both(&terms) { Some(made) } else { None }
}

fn is_replaced(alloc: Global, text: &str) -> bool {
    matches!(replaced(alloc, text), Some(true))
}

fn replaces(rt: &impl Abort, alloc: Global, rows: &[&str]) {
    for row in rows {
        assert!(rt; is_replaced(alloc, row), "at {row}");
    }
}

// a term, a new one, a path, what is made, and what stood there
const REPLACED: [&str; 13] = [
    "Ays<xy z 10 Ays<zy x",
    "Ays<xy z 11 Ays<xz y",
    "Ays<xy z 1 Aysz <xy",
    "Ays<xy z 0 Ayz<xy s",
    "Ays<xy z z Ays<xy",
    "AyOxsTy F 01 AyOxsFy T",
    // names mean what they mean at the place
    "Ays<xy y 10 Ays<yy x",
    "x +ab +ab x",
    "?pqx +ab 0 ?+abqx p",
    "?pqx +ab 2 ?pq+ab x",
    "$fxy 3 1 $fx3 y",
    ":9x 3 0 :93 x",
    "Qx z q Qz x",
];

#[test]
fn replaces_subterms(rt: HostRuntime) {
    replaces(&rt, rt.alloc(), &REPLACED);
}

fn is_given_back(alloc: Global, text: &str) -> bool {
    matches!(replaced(alloc, text), Some(false))
}

fn gives_back(rt: &impl Abort, alloc: Global, rows: &[&str]) {
    for row in rows {
        assert!(rt; is_given_back(alloc, row), "at {row}");
    }
}

// a term, a new one, a path that is not there, and both as they were
const GIVEN_BACK: [&str; 11] = [
    "Ays<xy z 12 Ays<xy z",
    "Ays<xy z 2 Ays<xy z",
    "Ays<xy z 00 Ays<xy z",
    "Ays<xy z 110 Ays<xy z",
    "x z 0 x z",
    "3 z 0 3 z",
    "E z 0 E z",
    "<xy +ab 2 <xy +ab",
    "<xy +ab 10 <xy +ab",
    "<xy +ab m <xy +ab",
    "'x z 0 'x z",
];

#[test]
fn gives_both_terms_back(rt: HostRuntime) {
    gives_back(&rt, rt.alloc(), &GIVEN_BACK);
}

fn is_step(found: u32, step: &Term) -> bool {
    match step {
        Term::Lit(Literal::Int(n)) => i64::from(found) == *n,
        _ => found == GREATEST,
    }
}

fn are_steps(found: &[u32], steps: &[Term]) -> bool {
    if found.len() != steps.len() {
        return false;
    }
    for (found, step) in found.iter().zip(steps.iter().rev()) {
        if !is_step(*found, step) {
            return false;
        }
    }
    true
}

fn held(alloc: Global, text: &str) -> Option<bool> {
    let steps = terms(alloc, text)?;
    let path = path(alloc, &steps)?;
    Some(path.len() == steps.len() && are_steps(path.as_slice(), &steps))
}

fn is_held(alloc: Global, text: &str) -> bool {
    matches!(held(alloc, text), Some(true))
}

fn holds(rt: &impl Abort, alloc: Global, rows: &[&str]) {
    for row in rows {
        assert!(rt; is_held(alloc, row), "at {row}");
    }
}

const PATHS: [&str; 5] = ["", "m", "01010102", "010101012", "010101010101"];

#[test]
fn holds_long_paths(rt: HostRuntime) {
    holds(&rt, rt.alloc(), &PATHS);
}
