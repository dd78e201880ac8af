//! Whole proofs, each with its last fact.
use crate::rows::{Kind, hold, hold_over};
use crate::theories::{QUEENS, SQUARE};

const PROOFS: [&str; 2] = [
    // no move
    "(p q) (p q) () q",
    // what is smaller than a sum that is known
    "(c s t) (true (and (subset s t) (eq (sum t) c))) ((left 2) (right 2) (have m11 (s t)) (copy 5 (at (1) (use 4)))) (le (sum s) c)",
];

#[test]
fn proves(rt: HostRuntime) {
    hold(&rt, rt.alloc(), Kind::Proof, &PROOFS);
}

const OVER_SQUARE: [&str; 2] = [
    // twice a number
    "(x) ((le 1 n)) ((have m1 ((mul x (add 1 1)))) (copy 2 (at (0) e22) (at (0 0) e21) (at (0 1) e21) (at (1 1) compute) (at (1) e19))) (eq (add x x) (mul 2 x))",
    // by the sort of an input
    "() () ((have m2 (0 n 100))) (le 0 100)",
];

#[test]
fn proves_over_an_input(rt: HostRuntime) {
    hold_over(&rt, rt.alloc(), SQUARE, Kind::Proof, &OVER_SQUARE);
}

const JUDGEMENTS: [&str; 4] = [
    // the condition on inputs is no fact by itself
    "() () (le 1 n) false",
    "() ((le 1 n)) (le 1 n) true",
    // by the sort of an input
    "(x) () (le 0 n) true",
    "(x) () (le x 9) true",
];

#[test]
fn judges_over_an_input(rt: HostRuntime) {
    hold_over(&rt, rt.alloc(), SQUARE, Kind::Judgement, &JUDGEMENTS);
}

/// The first items of a safe sequence are safe.
const OVER_QUEENS: [&str; 1] = [
    "(v x) (true (prefix v x) (and (eq (len x) n) (and (subset (items x) (range 1 n)) (safe x)))) ((right 3) (right 4) (have m15 (v x)) (have m13 (1 1 (len v) (len x))) (copy 5 (at () unfold) (at () (b12 (range 1 (len v)))) (at (0 1) (b12 (range 1 (len v)))) (at (0) b8)) (left 8) (left 9) (copy 10 (at (1 1 1 0 0 0) (e45 v)) (at (1 1 1 0 0 1) (e45 v)) (at (1 1 1 1 0 0 0 0) (e45 v)) (at (1 1 1 1 0 0 0 1) (e45 v)) (at (1 1 1 1 1 0 0 0) (e45 v)) (at (1 1 1 1 1 0 0 1) (e45 v)) (at () (fold safe v)))) (safe v)",
];

#[test]
fn proves_of_queens(rt: HostRuntime) {
    hold_over(&rt, rt.alloc(), QUEENS, Kind::Proof, &OVER_QUEENS);
}
