//! Equal terms, and copies.
use crate::notation::{are_alike, push, terms};
use kid_term::{Literal, Term, same};
use std::alloc::Global;
use std::process::Abort;

// whether two terms are equal or not as the last one says, from both sides
fn are_told(terms: &[Term]) -> bool {
    match terms {
        [Term::Lit(Literal::Bool(want)), right, left] => {
            same(left, right) == *want && same(right, left) == *want
        }
        _ => false,
    }
}

fn is_told(alloc: Global, text: &str) -> bool {
    match terms(alloc, text) {
        Some(terms) => are_told(&terms),
        None => false,
    }
}

fn compares(rt: &impl Abort, alloc: Global, rows: &[&str]) {
    for row in rows {
        assert!(rt; is_told(alloc, row), "at {row}");
    }
}

// two terms, and whether they are equal
const LEAVES: [&str; 17] = [
    "x x T", "x y F", "3 3 T", "3 4 F", "T T T", "F F T", "T F F", "1 T F", "0 F F", "x 3 F",
    "E E T", "E x F", "E !x F", "'x 'x T", "'x 'y F", "'x x F", "'x 3 F",
];

#[test]
fn compares_leaves(rt: HostRuntime) {
    compares(&rt, rt.alloc(), &LEAVES);
}

const APPLICATIONS: [&str; 18] = [
    "!x !x T",
    "!x x F",
    "!x #x F",
    "<xy <xy T",
    "<xy <yx F",
    "<xy <xz F",
    "<xy +xy F",
    "?pq3 ?pq3 T",
    "?pq3 ?pq4 F",
    "@fx @fx T",
    "@fx @gx F",
    "@fx !x F",
    "@fx $fxx F",
    "$fxy $fxx F",
    ":9x :9x T",
    // casts to a larger sort and to a smaller one
    ":8x :9x F",
    ":9x :9y F",
    ":9x !x F",
];

#[test]
fn compares_applications(rt: HostRuntime) {
    compares(&rt, rt.alloc(), &APPLICATIONS);
}

const BINDERS: [&str; 9] = [
    "Ays<xy Ays<xy T",
    // names of binders are compared
    "Ays<xy Azs<xz F",
    "Ays<xw Azs<xw F",
    "Ays<xy Sys<xy F",
    "Ays<xy Ayt<xy F",
    "Ays<xy Ays<xz F",
    "AysT AyTs F",
    "<aUys+y3 <aUys+y3 T",
    "<aUys+y3 <aUys+y4 F",
];

#[test]
fn compares_binders(rt: HostRuntime) {
    compares(&rt, rt.alloc(), &BINDERS);
}

fn put_copy(alloc: Global, terms: &mut Vec<Term>) -> Option<()> {
    match terms.as_slice() {
        [term] => {
            let copy = term.copy(alloc).ok();
            push(terms, copy)
        }
        _ => None,
    }
}

fn copied(alloc: Global, text: &str) -> Option<bool> {
    let mut terms = terms(alloc, text)?;
    put_copy(alloc, &mut terms)?;
    Some(are_alike(&terms))
}

fn is_copied(alloc: Global, text: &str) -> bool {
    matches!(copied(alloc, text), Some(true))
}

fn copies(rt: &impl Abort, alloc: Global, rows: &[&str]) {
    for row in rows {
        assert!(rt; is_copied(alloc, row), "at {row}");
    }
}

const COPIED: [&str; 20] = [
    "x", "7", "T", "F", "E", "!x", "#x", "<xy", "?pqx", "@fx", "$fxy", ":9x", "Ays<xy", "SysOxtT",
    "Oxs<x3", "Ixs+xy", "Uxs:9x", "'x",
    // a limit that nobody wrote down would show here alone
    "Dx", "Lyx",
];

#[test]
fn copies_terms(rt: HostRuntime) {
    copies(&rt, rt.alloc(), &COPIED);
}
