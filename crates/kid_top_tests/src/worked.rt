//! Work that is done.
use crate::called::{DERIVE, Ended, RUN, SCRIPT, SOLVE, SQUARE, called, ends, has_status};
use kid_value::Memory;
use std::alloc::Global;
use std::process::Abort;

/// The program that is derived for the square.
pub const PROGRAM: &str =
    "(program 1)\n(input n (int 0 100))\n(require (le 1 n))\n(output z (int 1 10))\n(main (if true (call 1 10)))\n(search ((low (int 1 11)) (high (int 0 10))) (if (eq low high) (if (eq (mul (cast (int 1 10) low) (cast (int 1 10) low)) n) (emit (cast (int 1 10) low)))) (if (lt low high) (if true (call low (div (add low high) 2))) (if true (call (add (div (add low high) 2) 1) high))))\n";

const SOLVE_SHORT: [&str; 6] = ["solve", "theory", "script", "inputs", "--fuel", "18"];

const SQUARES: [(&str, &str); 3] = [
    ("theory", SQUARE),
    ("script", SCRIPT),
    ("inputs", "(49) (0) (50)"),
];

#[test]
fn solves(rt: HostRuntime) {
    let text = "7\n(answers 1 splits 19)\n(outside)\n(answers 0 splits 19)\n";
    ends(&rt, rt.alloc(), &SOLVE, &SQUARES, 0, text, "");
}

#[test]
fn solves_with_little_fuel(rt: HostRuntime) {
    let text = "7\n(fuel 18)\n(outside)\n(fuel 18)\n";
    ends(&rt, rt.alloc(), &SOLVE_SHORT, &SQUARES, 4, text, "");
}

fn holds(ended: &Result<Ended, Memory>, name: &str, text: &str) -> bool {
    match ended {
        Ok(ended) => ended.store.held(name).unwrap_or(b"") == text.as_bytes(),
        Err(_) => false,
    }
}

pub fn derives_texts(
    rt: &impl Abort,
    alloc: Global,
    files: &[(&str, &str)],
    program: &str,
    derivation: &str,
) {
    let ended = called(alloc, &DERIVE, files);
    assert!(rt; has_status(&ended, 0));
    assert!(rt; holds(&ended, "program", program));
    assert!(rt; holds(&ended, "derivation", derivation));
}

const SQUARE_FILES: [(&str, &str); 2] = [("theory", SQUARE), ("script", SCRIPT)];

#[test]
fn derives(rt: HostRuntime) {
    let derivation = "(match range (low high) 1 10 (by))\n";
    derives_texts(&rt, rt.alloc(), &SQUARE_FILES, PROGRAM, derivation);
}

const PROGRAM_FILES: [(&str, &str); 2] = [("program", PROGRAM), ("inputs", "(49)")];

#[test]
fn runs(rt: HostRuntime) {
    let text = "7\n(answers 1 splits 19)\n";
    ends(&rt, rt.alloc(), &RUN, &PROGRAM_FILES, 0, text, "");
}

/// A theory with definitions of which one calls the other, and a set as its input.
const HALVES: &str =
    "(theory halves) (def twice ((n (int 0 9))) (int 0 18) (add n n)) (def has-twice ((s (set (int 0 100))) (z (int 0 9))) bool (some x s (eq x (twice z)))) (input s (set (int 0 100))) (require (lt 0 (card s))) (output z (int 0 9)) (ensure (has-twice s z))";

/// The program that is derived for it.
const HALVING: &str =
    "(program 1)\n(def twice ((n (int 0 9))) (int 0 18) (add n n))\n(def has-twice ((s (set (int 0 100))) (z (int 0 9))) bool (some x s (eq x (twice z))))\n(input s (set (int 0 100)))\n(require (lt 0 (card s)))\n(output z (int 0 9))\n(main (if true (call 0 9)))\n(search ((low (int 0 10)) (high (int -1 9))) (if (eq low high) (if (has-twice s (cast (int 0 9) low)) (emit (cast (int 0 9) low)))) (if (lt low high) (if true (call low (div (add low high) 2))) (if true (call (add (div (add low high) 2) 1) high))))\n";

const HALVES_SOLVED: [(&str, &str); 3] = [
    ("theory", HALVES),
    ("script", SCRIPT),
    ("inputs", "((set 7 18 4)) ((set)) ((set 1 3 20))"),
];

#[test]
fn solves_with_definitions_and_a_set(rt: HostRuntime) {
    let text = "2\n9\n(answers 2 splits 19)\n(outside)\n(answers 0 splits 19)\n";
    ends(&rt, rt.alloc(), &SOLVE, &HALVES_SOLVED, 0, text, "");
}

const HALVES_FILES: [(&str, &str); 2] = [("theory", HALVES), ("script", SCRIPT)];

#[test]
fn derives_definitions(rt: HostRuntime) {
    let derivation = "(match range (low high) 0 9 (by))\n";
    derives_texts(&rt, rt.alloc(), &HALVES_FILES, HALVING, derivation);
}

/// A theory whose inputs are a sequence, a map and a pair, with an axiom that is false where the sequence has items.
const ROWS: &str =
    "(theory rows) (input v (seq (int 0 9) 4)) (input m (map (int 0 9) bool)) (input p (pair (int 0 9) bool)) (require true) (axiom short () (given) (holds (eq v (seq)))) (output z (int 0 9)) (ensure (or (in z (items v)) (or (and (in z (dom m)) (get m z false)) (eq (pair z true) p))))";

const ROWS_SOLVED: [(&str, &str); 3] = [
    ("theory", ROWS),
    ("script", SCRIPT),
    (
        "inputs",
        "((seq 3 3 8) (map (1 true) (2 false)) (pair 6 true)) ((seq) (map) (pair 6 false))",
    ),
];

#[test]
fn solves_with_rows(rt: HostRuntime) {
    let text = "1\n3\n6\n8\n(answers 4 splits 19)\n(answers 0 splits 19)\n";
    ends(&rt, rt.alloc(), &SOLVE, &ROWS_SOLVED, 0, text, "");
}
