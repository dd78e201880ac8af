//! Laws, whose proofs are tried.
use crate::over::{refuses, takes};
use kid_theory::{TheoryCode, read_theory};
use std::alloc::Global;

const TAKEN_LAWS: [&str; 9] = [
    // a goal without names, the input condition, a condition of the law
    "(law a () (given) (holds true) (by))",
    "(law a () (given) (holds (le 1 n)) (by))",
    "(law a ((x bool)) (given x) (holds x) (by))",
    // both parts of a goal
    "(law a ((x bool)) (given x) (holds (and x (le 1 n))) (by))",
    "(law twice ((x (int 1 9))) (given) (equal (add x x) (mul 2 x)) (by (have m1 ((mul x (add 1 1)))) (copy 2 (at (0) e22) (at (0 0) e21) (at (0 1) e21) (at (1 1) compute) (at (1) e19))))",
    // by an axiom, and by a law under its condition
    "(axiom p ((x (int 0 9))) (given) (holds (le x n))) (law q () (given) (holds (le 3 n)) (by (have p (3))))",
    "(law p ((x (int 0 9))) (given (le 1 x)) (holds (le 1 x)) (by)) (law q () (given) (holds (le 1 2)) (by (have p (2))))",
    // by an equation, forth and back
    "(law p ((x (int 0 9))) (given) (equal (add x 0) x) (by (have m1 ((add x 0))) (copy 2 (at (1) e16)))) (law q ((y (int 0 9))) (given) (equal (add y 0) y) (by (have m1 ((add y 0))) (copy 2 (at (1) p))))",
    "(axiom p ((x (int 0 9))) (given) (equal x (add x 0))) (law q ((y (int 0 9))) (given) (equal (add y 0) y) (by (have m1 (y)) (copy 2 (at (0) p))))",
];

#[test]
fn takes_laws(rt: HostRuntime) {
    takes(&rt, rt.alloc(), 3, 3, &TAKEN_LAWS);
}

const SHAPES_OF_LAWS: [(&str, u32, TheoryCode); 12] = [
    ("(law a () (given) (holds true))", 4, TheoryCode::Form),
    ("(law a () (given) (holds true) by)", 4, TheoryCode::Form),
    ("(law a () (given) (holds true) ())", 4, TheoryCode::Form),
    (
        "(law a () (given) (holds true) (by) (by))",
        4,
        TheoryCode::Form,
    ),
    ("(law a () (given) (by))", 4, TheoryCode::Form),
    (
        "(law a () (given) (holds true) (by left))",
        4,
        TheoryCode::Form,
    ),
    (
        "(law a () (given) (holds true) (by (left 1 1)))",
        4,
        TheoryCode::Form,
    ),
    (
        "(law a () (given) (holds true) (by (left 01)))",
        4,
        TheoryCode::Form,
    ),
    // a cast to a sort that is not allowed, and an operator on words
    (
        "(law a () (given) (holds true) (by (have m1 ((cast (set (int 1 65537)) (set))))))",
        4,
        TheoryCode::Form,
    ),
    (
        "(law a () (given) (holds true) (by (have m1 ((wcard 5)))))",
        4,
        TheoryCode::Form,
    ),
    // strategies
    (
        "(law a () (given) (holds true) (by (copy 1 (normal (e1) 5))))",
        4,
        TheoryCode::Form,
    ),
    (
        "(law a () (given) (holds true) (by (want (le 1 n))))",
        4,
        TheoryCode::Form,
    ),
];

#[test]
fn refuses_shapes_of_laws(rt: HostRuntime) {
    refuses(&rt, rt.alloc(), 3, 3, &SHAPES_OF_LAWS);
}

const UNPROVED: [(&str, u32, TheoryCode); 10] = [
    (
        "(law a () (given) (holds false) (by))",
        4,
        TheoryCode::Proof,
    ),
    (
        "(law a ((x bool)) (given) (holds x) (by))",
        4,
        TheoryCode::Proof,
    ),
    // without its last line
    (
        "(law twice ((x (int 1 9))) (given) (equal (add x x) (mul 2 x)) (by (have m1 ((mul x (add 1 1)))) (copy 2 (at (0) e22) (at (0 0) e21) (at (0 1) e21) (at (1 1) compute))))",
        4,
        TheoryCode::Proof,
    ),
    // sides in the other order
    (
        "(law a ((x (int 0 9))) (given) (equal x (add x 0)) (by (have m1 ((add x 0))) (copy 2 (at (1) e16))))",
        4,
        TheoryCode::Proof,
    ),
    // a move that does not apply, though the goal holds
    (
        "(law a () (given) (holds true) (by (left 1)))",
        4,
        TheoryCode::Proof,
    ),
    (
        "(law a () (given) (holds true) (by (again 2)))",
        4,
        TheoryCode::Proof,
    ),
    // by itself
    (
        "(law twice ((x (int 1 9))) (given) (equal (add x x) (mul 2 x)) (by (have m1 ((add x x))) (copy 2 (at (1) twice))))",
        4,
        TheoryCode::Proof,
    ),
    // by a later one
    (
        "(law q () (given) (holds (le 3 n)) (by (have p (3)))) (axiom p ((x (int 0 9))) (given) (holds (le x n)))",
        4,
        TheoryCode::Proof,
    ),
    // under a condition that does not hold
    (
        "(law p ((x (int 0 9))) (given (le 1 x)) (holds (le 1 x)) (by)) (law q () (given) (holds (le 1 0)) (by (have p (0))))",
        5,
        TheoryCode::Proof,
    ),
    // outside the variable's sort
    (
        "(axiom p ((x (int 0 9))) (given) (holds (le x n))) (law q () (given) (holds (le 10 n)) (by (have p (10))))",
        5,
        TheoryCode::Proof,
    ),
];

#[test]
fn refuses_laws_without_a_proof(rt: HostRuntime) {
    refuses(&rt, rt.alloc(), 3, 3, &UNPROVED);
}

const FIRST_CODES: [(&str, u32, TheoryCode); 6] = [
    // a shape before a name, a name before a sort, a sort before a proof
    (
        "(law n () (given) (holds true) (by x))",
        4,
        TheoryCode::Form,
    ),
    ("(law n () (given) (holds n) (by))", 4, TheoryCode::Name),
    ("(law a () (given) (holds n) (by))", 4, TheoryCode::Sort),
    (
        "(law a ((x (set (int 1 65537)))) (given) (holds false) (by))",
        4,
        TheoryCode::Sort,
    ),
    // a form before a later one
    (
        "(law a () (given) (holds false) (by)) (axiom n () (given) (holds true))",
        4,
        TheoryCode::Proof,
    ),
    (
        "(law a () (given) (holds true) (by)) (law a () (given) (holds true) (by))",
        5,
        TheoryCode::Name,
    ),
];

#[test]
fn tells_the_first_code_of_a_law(rt: HostRuntime) {
    refuses(&rt, rt.alloc(), 3, 3, &FIRST_CODES);
}

/// How many laws and axioms the theory of a file has.
fn counts(alloc: Global, file: &str) -> Option<(usize, usize)> {
    match read_theory(alloc, file.as_bytes()) {
        Ok(theory) => Some((theory.laws.items().len(), theory.axioms.items().len())),
        Err(_) => None,
    }
}

#[test]
fn parts_laws_and_axioms(rt: HostRuntime) {
    let file =
        "(theory t) (require true) (axiom a () (given) (holds true)) (law b () (given) (holds true) (by)) (axiom c () (given) (holds true)) (output z bool) (ensure z)";
    assert!(rt; counts(rt.alloc(), file) == Some((1, 2)));
}
