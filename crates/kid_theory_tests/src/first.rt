//! How many answers a theory file asks for.
use crate::over::{refuses, takes};
use kid_theory::{TheoryCode, read_theory};
use std::alloc::Global;

const COUNTS: [&str; 2] = ["(first 1)", "(first 1000000)"];

#[test]
fn takes_counts(rt: HostRuntime) {
    takes(&rt, rt.alloc(), 5, 5, &COUNTS);
}

const NAMES: [&str; 3] = [
    "(theory first)",
    "(theory square) (def first () bool true)",
    "(theory square) (input first bool)",
];

#[test]
fn takes_the_word_as_a_name(rt: HostRuntime) {
    takes(&rt, rt.alloc(), 0, 1, &NAMES);
}

const REFUSED: [(&str, u32, TheoryCode); 11] = [
    ("(first 0)", 6, TheoryCode::Form),
    ("(first 1000001)", 6, TheoryCode::Form),
    ("(first -1)", 6, TheoryCode::Form),
    ("(first 01)", 6, TheoryCode::Form),
    ("(first x)", 6, TheoryCode::Form),
    ("(first (1))", 6, TheoryCode::Form),
    ("(first)", 6, TheoryCode::Form),
    ("(first 1 1)", 6, TheoryCode::Form),
    ("first", 6, TheoryCode::Form),
    ("(first 1) (first 1)", 7, TheoryCode::Form),
    ("(first 1) (ensure true)", 7, TheoryCode::Form),
];

#[test]
fn refuses_counts(rt: HostRuntime) {
    refuses(&rt, rt.alloc(), 5, 5, &REFUSED);
}

const BEFORE_THE_RELATION: [(&str, u32, TheoryCode); 1] = [("(first 1)", 5, TheoryCode::Form)];

#[test]
fn refuses_a_count_before_the_relation(rt: HostRuntime) {
    refuses(&rt, rt.alloc(), 4, 4, &BEFORE_THE_RELATION);
}

/// How many answers the theory of a file asks for.
fn count_of(alloc: Global, file: &str) -> Option<u32> {
    match read_theory(alloc, file.as_bytes()) {
        Ok(theory) => theory.spec.first,
        Err(_) => None,
    }
}

#[test]
fn reads_a_count(rt: HostRuntime) {
    let file = "(theory t) (require true) (output z bool) (ensure z) (first 120)";
    assert!(rt; count_of(rt.alloc(), file) == Some(120));
}
