//! Enum sorts and tags in theory files.
use crate::over::{refusal, refuses, takes};
use kid_theory::TheoryCode;

const TAKEN: [&str; 5] = [
    "(input c (enum blue red))",
    "(input enum (enum enum))",
    "(def f () (enum blue red) 'red)",
    "(def f ((x (enum a b))) bool (eq x 'a))",
    "(def f () bool (in 'a (set 'a 'b)))",
];

#[test]
fn takes_tags(rt: HostRuntime) {
    takes(&rt, rt.alloc(), 1, 1, &TAKEN);
}

const REFUSED: [(&str, u32, TheoryCode); 11] = [
    ("(input c (enum red blue))", 2, TheoryCode::Sort),
    ("(input c (enum a a))", 2, TheoryCode::Sort),
    ("(input c (enum))", 2, TheoryCode::Sort),
    ("(input c (enum A))", 2, TheoryCode::Form),
    ("(input c (enum true))", 2, TheoryCode::Form),
    ("(input c (enum (a)))", 2, TheoryCode::Form),
    ("(input 'c bool)", 2, TheoryCode::Name),
    ("(def f () (enum blue) 'red)", 2, TheoryCode::Sort),
    ("(def f () bool (le 'a 'b))", 2, TheoryCode::Sort),
    ("(def f () bool (eq 'a 'B))", 2, TheoryCode::Form),
    ("(def f () bool (eq 'a '))", 2, TheoryCode::Form),
];

#[test]
fn refuses_tags(rt: HostRuntime) {
    refuses(&rt, rt.alloc(), 1, 1, &REFUSED);
}

const TINT: &str =
    "(theory tint) (input k (set (int 1 50))) (input e (set (pair (int 1 50) (int 1 50)))) (require true) \
    (output z (map (int 1 50) (enum blue red))) \
    (ensure (and (and (eq (dom z) k) (subset (ran z) (set 'blue 'red))) \
    (all p e (not (eq (get z (fst p) 'blue) (get z (snd p) 'blue))))))";

#[test]
fn takes_a_theory_of_colours(rt: HostRuntime) {
    assert!(rt; refusal(rt.alloc(), TINT.as_bytes()).is_none());
}
