//! The forms of a theory, but for axioms.
use crate::over::{refuses, takes};
use kid_theory::TheoryCode;

const WHAT_DOES_NOT_READ: [(&str, u32, TheoryCode); 9] = [
    (")", 0, TheoryCode::Read),
    ("(theory square", 0, TheoryCode::Read),
    ("(theory \u{7f})", 0, TheoryCode::Read),
    ("(program 1) (", 0, TheoryCode::Read),
    ("", 1, TheoryCode::Form),
    ("; nothing", 1, TheoryCode::Form),
    ("(theory square)", 2, TheoryCode::Form),
    ("(theory square) (require true)", 3, TheoryCode::Form),
    (
        "(theory square) (require true) (output z bool)",
        4,
        TheoryCode::Form,
    ),
];

#[test]
fn refuses_what_does_not_read(rt: HostRuntime) {
    refuses(&rt, rt.alloc(), 0, 5, &WHAT_DOES_NOT_READ);
}

const TAKEN_TITLES: [&str; 3] = [
    "(theory abcdefghijklmnopqrstuvwxyz-01234)",
    // the name of an input
    "(theory n)",
    "(theory e)",
];

#[test]
fn takes_titles(rt: HostRuntime) {
    takes(&rt, rt.alloc(), 0, 1, &TAKEN_TITLES);
}

const TITLES: [(&str, u32, TheoryCode); 13] = [
    ("(theory)", 1, TheoryCode::Form),
    ("(theory a b)", 1, TheoryCode::Form),
    ("(theory (a))", 1, TheoryCode::Form),
    ("(program 1)", 1, TheoryCode::Form),
    ("theory", 1, TheoryCode::Form),
    ("()", 1, TheoryCode::Form),
    ("", 1, TheoryCode::Form),
    ("(theory Square)", 1, TheoryCode::Name),
    ("(theory 1)", 1, TheoryCode::Name),
    ("(theory add)", 1, TheoryCode::Name),
    ("(theory e1)", 1, TheoryCode::Name),
    (
        "(theory abcdefghijklmnopqrstuvwxyz-012345)",
        1,
        TheoryCode::Name,
    ),
    ("(theory square) (theory square)", 2, TheoryCode::Form),
];

#[test]
fn refuses_titles(rt: HostRuntime) {
    refuses(&rt, rt.alloc(), 0, 1, &TITLES);
}

const TAKEN_DEFINITIONS: [&str; 6] = [
    "(def f () bool true)",
    "(def f ((x bool)) bool x) (def g ((x bool)) bool (f x))",
    // parameters are compared with one another alone
    "(def f ((f bool) (n bool) (z bool)) bool f)",
    "(def f () (int 0 9) 9)",
    "(def f ((s (set (int 1 65536)))) (int 0 65536) (card s))",
    // a name that a binder has is no call
    "(def f ((s (set bool))) bool (all g s g)) (def g () bool true)",
];

#[test]
fn takes_definitions(rt: HostRuntime) {
    takes(&rt, rt.alloc(), 1, 1, &TAKEN_DEFINITIONS);
}

const SHAPES_OF_DEFINITIONS: [(&str, u32, TheoryCode); 13] = [
    ("(def f () bool)", 2, TheoryCode::Form),
    ("(def f () bool true true)", 2, TheoryCode::Form),
    ("(def f bool true)", 2, TheoryCode::Form),
    ("(def (f) () bool true)", 2, TheoryCode::Form),
    ("(def f x bool true)", 2, TheoryCode::Form),
    ("(def f (x) bool true)", 2, TheoryCode::Form),
    ("(def f ((x)) bool true)", 2, TheoryCode::Form),
    ("(def f ((x bool bool)) bool true)", 2, TheoryCode::Form),
    ("(def f () truth true)", 2, TheoryCode::Form),
    ("(def f () bool (add 1))", 2, TheoryCode::Form),
    ("(def f () bool 01)", 2, TheoryCode::Form),
    ("(def f () bool true) def", 3, TheoryCode::Form),
    // operators on words stand in programs alone
    ("(def f () (int 0 62) (wcard 5))", 2, TheoryCode::Form),
];

#[test]
fn refuses_shapes_of_definitions(rt: HostRuntime) {
    refuses(&rt, rt.alloc(), 1, 1, &SHAPES_OF_DEFINITIONS);
}

const DEFINITIONS: [(&str, u32, TheoryCode); 20] = [
    ("(def F () bool true)", 2, TheoryCode::Name),
    ("(def not () bool true)", 2, TheoryCode::Name),
    ("(def f ((X bool)) bool true)", 2, TheoryCode::Name),
    ("(def f ((x bool) (x bool)) bool x)", 2, TheoryCode::Name),
    (
        "(def f () bool true) (def f () bool true)",
        3,
        TheoryCode::Name,
    ),
    // the input's name
    ("(def n () bool true)", 3, TheoryCode::Name),
    // the output's name
    ("(def z () bool true)", 5, TheoryCode::Name),
    ("(def f ((x bool)) bool (f x))", 2, TheoryCode::Cycle),
    (
        "(def f () bool (g)) (def g () bool true)",
        2,
        TheoryCode::Cycle,
    ),
    ("(def f () bool (g)) (def g)", 2, TheoryCode::Cycle),
    ("(def f () bool (not (g))) (def g)", 2, TheoryCode::Cycle),
    (
        "(def f () bool (all x (g) true)) (def g)",
        2,
        TheoryCode::Cycle,
    ),
    (
        "(def f () bool (all x (set 1) (g))) (def g)",
        2,
        TheoryCode::Cycle,
    ),
    ("(def f () bool (g))", 2, TheoryCode::Sort),
    ("(def f () bool n)", 2, TheoryCode::Sort),
    ("(def f () (int 0 9) 10)", 2, TheoryCode::Sort),
    ("(def f () bool 1)", 2, TheoryCode::Sort),
    ("(def f () bool (eq 1 true))", 2, TheoryCode::Sort),
    (
        "(def f ((x (set (int 1 65537)))) bool true)",
        2,
        TheoryCode::Sort,
    ),
    ("(def f () (int 2 1) 1)", 2, TheoryCode::Sort),
];

#[test]
fn refuses_definitions(rt: HostRuntime) {
    refuses(&rt, rt.alloc(), 1, 1, &DEFINITIONS);
}

const FIRST_CODE_OF_A_DEFINITION: [(&str, u32, TheoryCode); 5] = [
    // a shape before a name
    ("(def F () bool)", 2, TheoryCode::Form),
    // a name before a cycle
    (
        "(def f () bool true) (def f () bool (f))",
        3,
        TheoryCode::Name,
    ),
    // a cycle before sorts
    (
        "(def f ((x (set (int 1 65537)))) bool (f))",
        2,
        TheoryCode::Cycle,
    ),
    // a name before sorts
    ("(def F () (set (int 1 65537)) 1)", 2, TheoryCode::Name),
    // the first form
    ("(def f () bool 1) (def)", 2, TheoryCode::Sort),
];

#[test]
fn tells_the_first_code_of_a_definition(rt: HostRuntime) {
    refuses(&rt, rt.alloc(), 1, 1, &FIRST_CODE_OF_A_DEFINITION);
}

const TAKEN_INPUTS: [&str; 6] = [
    "(input n (int 0 100)) (input abcdefghijklmnopqrstuvwxyz-01234 bool)",
    "(input n (int 0 100)) (input s (set (int 1 65536)))",
    "(input n (int -4611686018427387904 4611686018427387904))",
    "(input n (int 0 100)) (input s (seq bool 65536))",
    "(input n (int 0 9)) (input s (seq (seq (seq (seq (seq (seq (seq bool 1) 1) 1) 1) 1) 1) 1))",
    // 15 of them beside the first
    "(input n (int 0 100)) (input a bool) (input b bool) (input c bool) (input d bool) (input e bool) (input f bool) \
        (input g bool) (input h bool) (input i bool) (input j bool) (input k bool) (input l bool) (input m bool) (input o bool) \
        (input p bool)",
];

#[test]
fn takes_inputs(rt: HostRuntime) {
    takes(&rt, rt.alloc(), 1, 2, &TAKEN_INPUTS);
}

const INPUTS: [(&str, u32, TheoryCode); 17] = [
    ("(input n)", 2, TheoryCode::Form),
    ("(input (n) bool)", 2, TheoryCode::Form),
    ("(input n bool bool)", 2, TheoryCode::Form),
    ("(input n (int 0))", 2, TheoryCode::Form),
    ("(input n (int 0 4611686018427387905))", 2, TheoryCode::Form),
    ("(input n (int 0 100)) n", 3, TheoryCode::Form),
    (
        "(input n (int 0 100)) (def f () bool true)",
        3,
        TheoryCode::Form,
    ),
    ("(input N bool)", 2, TheoryCode::Name),
    ("(input n (int 0 100)) (input n bool)", 3, TheoryCode::Name),
    (
        "(input abcdefghijklmnopqrstuvwxyz-012345 bool)",
        2,
        TheoryCode::Name,
    ),
    ("(input s (set (int 1 65537)))", 2, TheoryCode::Sort),
    ("(input s (seq bool 65537))", 2, TheoryCode::Sort),
    ("(input s (seq bool -1))", 2, TheoryCode::Sort),
    ("(input s (int 1 0))", 2, TheoryCode::Sort),
    (
        "(input s (seq (seq (seq (seq (seq (seq (seq (seq bool 1) 1) 1) 1) 1) 1) 1) 1))",
        2,
        TheoryCode::Sort,
    ),
    // a shape before a name, and a name before a sort
    ("(input N (int 0))", 2, TheoryCode::Form),
    ("(input N (int 1 0))", 2, TheoryCode::Name),
];

#[test]
fn refuses_inputs(rt: HostRuntime) {
    refuses(&rt, rt.alloc(), 1, 2, &INPUTS);
}

const THE_SEVENTEENTH_INPUT: [(&str, u32, TheoryCode); 3] = [
    (
        "(input a bool) (input b bool) (input c bool) (input d bool) (input e bool) (input f bool) (input g bool) (input h bool) \
            (input i bool) (input j bool) (input k bool) (input l bool) (input m bool) (input o bool) (input p bool) (input q bool)",
        18,
        TheoryCode::Limit,
    ),
    // whatever else it holds
    (
        "(input a bool) (input b bool) (input c bool) (input d bool) (input e bool) (input f bool) (input g bool) (input h bool) \
            (input i bool) (input j bool) (input k bool) (input l bool) (input m bool) (input o bool) (input p bool) (input)",
        18,
        TheoryCode::Limit,
    ),
    (
        "(input a bool) (input b bool) (input c bool) (input d bool) (input e bool) (input f bool) (input g bool) (input h bool) \
            (input i bool) (input j bool) (input k bool) (input l bool) (input m bool) (input o bool) (input p bool) (input a bool)",
        18,
        TheoryCode::Limit,
    ),
];

#[test]
fn refuses_the_seventeenth_input(rt: HostRuntime) {
    refuses(&rt, rt.alloc(), 2, 2, &THE_SEVENTEENTH_INPUT);
}

const TAKEN_CONDITIONS: [&str; 4] = [
    "(require true)",
    "(require (all x (set n) (le 1 x)))",
    "(require (le n 4611686018427387904))",
    "(require (le -4611686018427387904 n))",
];

#[test]
fn takes_conditions(rt: HostRuntime) {
    takes(&rt, rt.alloc(), 2, 3, &TAKEN_CONDITIONS);
}

const CONDITIONS: [(&str, u32, TheoryCode); 15] = [
    ("(require)", 3, TheoryCode::Form),
    ("(require true true)", 3, TheoryCode::Form),
    ("(require (add 1))", 3, TheoryCode::Form),
    ("(require (win 0 1 n))", 3, TheoryCode::Form),
    ("(require (le n 4611686018427387905))", 3, TheoryCode::Form),
    ("(require (le -4611686018427387905 n))", 3, TheoryCode::Form),
    ("(require true) (require true)", 4, TheoryCode::Form),
    ("", 3, TheoryCode::Form),
    ("(require n)", 3, TheoryCode::Sort),
    ("(require (le 1 z))", 3, TheoryCode::Sort),
    ("(require (le 1 true))", 3, TheoryCode::Sort),
    ("(require (f))", 3, TheoryCode::Sort),
    ("(require (all n (set n) true))", 3, TheoryCode::Sort),
    ("(require (cast (int 1 0) n))", 3, TheoryCode::Sort),
    // a shape before a sort
    (
        "(require (le (cast (int 1 0) n) (add 1)))",
        3,
        TheoryCode::Form,
    ),
];

#[test]
fn refuses_conditions(rt: HostRuntime) {
    refuses(&rt, rt.alloc(), 2, 3, &CONDITIONS);
}

const OUTPUTS: [(&str, u32, TheoryCode); 8] = [
    ("(output z)", 4, TheoryCode::Form),
    ("(output (z) bool)", 4, TheoryCode::Form),
    ("", 4, TheoryCode::Form),
    ("(output Z bool)", 4, TheoryCode::Name),
    ("(output n bool)", 4, TheoryCode::Name),
    ("(output n (int 1 0))", 4, TheoryCode::Name),
    ("(output z (set (int 1 65537)))", 4, TheoryCode::Sort),
    ("(output z (int 1 10)) (output y bool)", 5, TheoryCode::Form),
];

#[test]
fn refuses_outputs(rt: HostRuntime) {
    refuses(&rt, rt.alloc(), 3, 4, &OUTPUTS);
}

const RELATIONS: [(&str, u32, TheoryCode); 8] = [
    ("(ensure)", 5, TheoryCode::Form),
    (
        "(ensure (all i (range 0 1) (win 0 i n)))",
        5,
        TheoryCode::Form,
    ),
    ("(require true)", 5, TheoryCode::Form),
    ("", 5, TheoryCode::Form),
    ("(ensure (add z 1))", 5, TheoryCode::Sort),
    ("(ensure (le z w))", 5, TheoryCode::Sort),
    ("(ensure true) (ensure true)", 6, TheoryCode::Form),
    ("(ensure true) x", 6, TheoryCode::Form),
];

#[test]
fn refuses_relations(rt: HostRuntime) {
    refuses(&rt, rt.alloc(), 4, 5, &RELATIONS);
}
