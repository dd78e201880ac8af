//! Axioms.
use crate::over::{refuses, takes};
use kid_theory::TheoryCode;

const TAKEN_AXIOMS: [&str; 5] = [
    "(axiom no () (given) (holds false))",
    "(axiom a ((x (int 0 9))) (given (le 0 x) true) (equal (add x n) (add n x)))",
    // variables of two axioms have one name
    "(axiom a ((x bool)) (given) (holds x)) (axiom c ((x bool)) (given) (holds x))",
    // sorts of which neither lies within the other
    "(axiom a ((x (int -9 9))) (given) (equal x n))",
    "(axiom a () (given) (equal (set) (set n)))",
];

#[test]
fn takes_axioms(rt: HostRuntime) {
    takes(&rt, rt.alloc(), 3, 3, &TAKEN_AXIOMS);
}

const SHAPES_OF_AXIOMS: [(&str, u32, TheoryCode); 14] = [
    ("(axiom a () (holds true))", 4, TheoryCode::Form),
    ("(axiom a () (given))", 4, TheoryCode::Form),
    ("(axiom a () (given) (holds))", 4, TheoryCode::Form),
    ("(axiom a () (given) (equal n))", 4, TheoryCode::Form),
    ("(axiom a () (given) (equal n n n))", 4, TheoryCode::Form),
    ("(axiom a () (given) true)", 4, TheoryCode::Form),
    ("(axiom a () given (holds true))", 4, TheoryCode::Form),
    (
        "(axiom a () (given (add 1)) (holds true))",
        4,
        TheoryCode::Form,
    ),
    ("(axiom (a) () (given) (holds true))", 4, TheoryCode::Form),
    ("(axiom a (x) (given) (holds true))", 4, TheoryCode::Form),
    (
        "(axiom a () (given) (holds true) (by))",
        4,
        TheoryCode::Form,
    ),
    (
        "(axiom a () (given (win 0 1 5)) (holds true))",
        4,
        TheoryCode::Form,
    ),
    (
        "(axiom a () (given) (equal n (wcard 5)))",
        4,
        TheoryCode::Form,
    ),
    (
        "(axiom a () (given) (holds (win 0 1 5)))",
        4,
        TheoryCode::Form,
    ),
];

#[test]
fn refuses_shapes_of_axioms(rt: HostRuntime) {
    refuses(&rt, rt.alloc(), 3, 3, &SHAPES_OF_AXIOMS);
}

const NAMES_OF_AXIOMS: [(&str, u32, TheoryCode); 6] = [
    ("(axiom A () (given) (holds true))", 4, TheoryCode::Name),
    ("(axiom n () (given) (holds true))", 4, TheoryCode::Name),
    (
        "(axiom a () (given) (holds true)) (axiom a () (given) (holds true))",
        5,
        TheoryCode::Name,
    ),
    // a variable of an axiom before
    (
        "(axiom a ((x bool)) (given) (holds x)) (axiom x () (given) (holds true))",
        5,
        TheoryCode::Name,
    ),
    // a name before sorts
    ("(axiom n () (given) (holds n))", 4, TheoryCode::Name),
    // the output's name
    ("(axiom z () (given) (holds true))", 5, TheoryCode::Name),
];

#[test]
fn refuses_names_of_axioms(rt: HostRuntime) {
    refuses(&rt, rt.alloc(), 3, 3, &NAMES_OF_AXIOMS);
}

const VARIABLES: [(&str, u32, TheoryCode); 7] = [
    (
        "(axiom a ((X bool)) (given) (holds true))",
        4,
        TheoryCode::Name,
    ),
    (
        "(axiom a ((n bool)) (given) (holds true))",
        4,
        TheoryCode::Name,
    ),
    (
        "(axiom a ((a bool)) (given) (holds true))",
        4,
        TheoryCode::Name,
    ),
    (
        "(axiom a ((x bool) (x bool)) (given) (holds x))",
        4,
        TheoryCode::Name,
    ),
    (
        "(axiom a () (given) (holds true)) (axiom c ((a bool)) (given) (holds a))",
        5,
        TheoryCode::Name,
    ),
    // the output's name
    (
        "(axiom a ((z bool)) (given) (holds z))",
        5,
        TheoryCode::Name,
    ),
    (
        "(axiom a ((x (set (int 1 65537)))) (given) (holds true))",
        4,
        TheoryCode::Sort,
    ),
];

#[test]
fn refuses_variables(rt: HostRuntime) {
    refuses(&rt, rt.alloc(), 3, 3, &VARIABLES);
}

const TERMS_OF_AXIOMS: [(&str, u32, TheoryCode); 11] = [
    ("(axiom a () (given n) (holds true))", 4, TheoryCode::Sort),
    (
        "(axiom a () (given true n) (holds true))",
        4,
        TheoryCode::Sort,
    ),
    ("(axiom a () (given) (holds n))", 4, TheoryCode::Sort),
    ("(axiom a () (given) (holds (f)))", 4, TheoryCode::Sort),
    ("(axiom a () (given) (equal n true))", 4, TheoryCode::Sort),
    ("(axiom a () (given) (equal n z))", 4, TheoryCode::Sort),
    ("(axiom a () (given) (equal z n))", 4, TheoryCode::Sort),
    // binders
    (
        "(axiom a () (given (all y (set n) true)) (holds true))",
        4,
        TheoryCode::Sort,
    ),
    (
        "(axiom a () (given) (holds (not (some y (set n) true))))",
        4,
        TheoryCode::Sort,
    ),
    (
        "(axiom a () (given) (equal (sumof y (set n) y) n))",
        4,
        TheoryCode::Sort,
    ),
    (
        "(axiom a () (given) (equal n (sumof y (set n) y)))",
        4,
        TheoryCode::Sort,
    ),
];

#[test]
fn refuses_terms_of_axioms(rt: HostRuntime) {
    refuses(&rt, rt.alloc(), 3, 3, &TERMS_OF_AXIOMS);
}
