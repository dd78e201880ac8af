//! Facts at the start, and what holds over them. A term between `{` and `}` stands below 125 times `not`.
use crate::rows::{Kind, hold};

/// Names, facts, and whether they are taken.
const STARTS: [&str; 8] = [
    "(p a) (p (le a 1)) begun",
    // of none
    "() () begun",
    // number
    "(a) ((add a 1)) ill-sorted",
    // unknown name
    "(a) ((le a b)) ill-sorted",
    // too deep
    "(p) ((not (not (not {p})))) limit",
    // just deep enough
    "(p) ((not (not {p}))) begun",
    // first in order
    "(p a) (p (add a 1) (not (not (not {p})))) ill-sorted",
    // first in order limit
    "(p a) ((not (not (not {p}))) (add a 1)) limit",
];

#[test]
fn begins(rt: HostRuntime) {
    hold(&rt, rt.alloc(), Kind::Start, &STARTS);
}

/// Names, facts, a condition, and whether it holds.
const JUDGEMENTS: [&str; 18] = [
    // fact
    "(p q) (p q) q true",
    // another fact
    "(p q) (p) q false",
    // joined
    "(p q) (p q) (and q p) true",
    // nested
    "(p q r) (p q r) (and (and q p) (and r r)) true",
    // closed
    "() () (subset (set 2) (range 1 3)) true",
    // closed false
    "() () (in 4 (range 1 3)) false",
    // unknown name
    "(a) ((le a 1)) (le b 1) false",
    // no sort
    "(a p) () (le a p) false",
    // no truth
    "(a) () a false",
    // by bounds
    "(k) () (le (twice k) 10) true",
    // too narrow
    "(k) () (le (twice k) 9) false",
    // not of a fact
    "(p) (p) (not (not p)) false",
    // turned equation
    "(a b) ((eq a b)) (eq b a) false",
    // equation of itself
    "(a) () (eq a a) false",
    // or of a fact
    "(p q) (p) (or p q) false",
    // not equal by bounds
    "(low high) () (not (eq low high)) false",
    // not less by bounds
    "(low high) () (not (lt high low)) false",
    // one part
    "(p q) (p) (and p q) false",
];

#[test]
fn judges_conditions(rt: HostRuntime) {
    hold(&rt, rt.alloc(), Kind::Judgement, &JUDGEMENTS);
}
