//! Equations of truths and of numbers, forth and back, and terms that are no instance.
use crate::rows::{Kind, hold};

/// From `and` to `eq`.
const TRUTHS: [&str; 57] = [
    "(p q) () (and p q) (at () e1) (and q p)",
    "(p q) () (or (and p q) q) (back (0) e1) (or (and q p) q)",
    "(p q) () (or p q) (at () e1) no-match",
    // argument
    "(p q) () (and p q) (at () (e1 p)) no-match",
    "(p q) () (or p q) (back () e1) no-match",
    "(p q r) () (and p (and q r)) (at () e2) (and (and p q) r)",
    "(p q r) () (and (and p q) r) (back () e2) (and p (and q r))",
    "(p q r) () (and (and p q) r) (at () e2) no-match",
    "(p q r) () (and p (and q r)) (back () e2) no-match",
    "(p q) () (or (and p p) q) (at (0) e3) (or p q)",
    "(p q) () (or p q) (back (0) e3) (or (and p p) q)",
    "(p q) () (and p q) (at () e3) no-match",
    // other binder name
    "(s) () (and (all i s (le i 2)) (all j s (le j 2))) (at () e3) no-match",
    "(p) () (and p true) (at () e4) p",
    "(p) () p (back () e4) (and p true)",
    "(p) () (and true p) (at () e4) no-match",
    "(a b) () (le a b) (back (0) e4) ill-sorted",
    "(p) () (and p false) (at () e5) false",
    "(p q) () (or q false) (back (1) (e5 p)) (or q (and p false))",
    "(p) () (and p true) (at () e5) no-match",
    "(p q) () (or q false) (back (1) e5) no-match",
    // back two
    "(p q) () (or q false) (back (1) (e5 p q)) no-match",
    // back other term
    "(p q) () (or q false) (back (0) (e5 p)) no-match",
    "(p q) () (or p q) (at () e6) (not (and (not p) (not q)))",
    "(p q) () (not (and (not p) (not q))) (back () e6) (or p q)",
    "(p q) () (and p q) (at () e6) no-match",
    "(p q) () (not (and p (not q))) (back () e6) no-match",
    "(p q) () (and (not (not p)) q) (at (0) e7) (and p q)",
    "(p q) () (and p q) (back (1) e7) (and p (not (not q)))",
    "(p) () (not p) (at () e7) no-match",
    // back of a number
    "(a b) () (le a b) (back (0) e7) ill-sorted",
    "(p q) () (implies p q) (at () e8) (or (not p) q)",
    "(p q) () (or (not p) q) (back () e8) (implies p q)",
    "(p q) () (or (not p) q) (at () e8) no-match",
    "(p q) () (or p q) (back () e8) no-match",
    "(p) () (implies true p) (at () e9) p",
    "(p) () p (back () e9) (implies true p)",
    "(p) () (implies p true) (at () e9) no-match",
    "(a b) () (le a b) (back (1) e9) ill-sorted",
    "(a b) () (le (if true a b) b) (at (0) e10) (le a b)",
    "(a b) () (le a b) (back (0) (e10 b)) (le (if true a b) b)",
    "(a b p) () (le (if p a b) b) (at (0) e10) no-match",
    "(a b) () (le a b) (back (0) e10) no-match",
    // back of another kind
    "(a b p) () (le a b) (back (0) (e10 p)) ill-sorted",
    "(a b) () (le (if false a b) a) (at (0) e11) (le b a)",
    "(a b) () (le a b) (back (1) (e11 a)) (le a (if false a b))",
    "(a b) () (le (if true a b) a) (at (0) e11) no-match",
    "(a b) () (le a b) (back (1) (e11 a b)) no-match",
    "(s) () (eq s s) (at () e12) true",
    "(p s) () (and p true) (back (1) (e12 s)) (and p (eq s s))",
    "(s t) () (eq s t) (at () e12) no-match",
    "(p s) () (and p true) (back (1) e12) no-match",
    // back of false
    "(p s) () (and p false) (back (1) (e12 s)) no-match",
    "(v w) () (eq v w) (at () e13) (eq w v)",
    "(v w) () (eq w v) (back () e13) (eq v w)",
    "(a b) () (le a b) (at () e13) no-match",
    "(a b) () (le a b) (back () e13) no-match",
];

#[test]
fn rewrites_truths(rt: HostRuntime) {
    hold(&rt, rt.alloc(), Kind::Line, &TRUTHS);
}

/// From `add` to `min`.
const NUMBERS: [&str; 54] = [
    "(a b c) () (le (add a b) c) (at (0) e14) (le (add b a) c)",
    "(a b) () (le (add b a) 1) (back (0) e14) (le (add a b) 1)",
    "(a b) () (le (mul a b) 1) (at (0) e14) no-match",
    "(a b) () (le (mul a b) 1) (back (0) e14) no-match",
    "(a b c) () (le (add a (add b c)) 0) (at (0) e15) (le (add (add a b) c) 0)",
    "(a b c) () (le (add (add a b) c) 0) (back (0) e15) (le (add a (add b c)) 0)",
    "(a b c) () (le (add (add a b) c) 0) (at (0) e15) no-match",
    "(a b c) () (le (add a (add b c)) 0) (back (0) e15) no-match",
    "(a b) () (le (add a 0) b) (at (0) e16) (le a b)",
    "(a b) () (le a b) (back (1) e16) (le a (add b 0))",
    "(a b) () (le (add 0 a) b) (at (0) e16) no-match",
    "(p q) () (and p q) (back (0) e16) ill-sorted",
    "(a b) () (le (sub a b) 1) (at (0) e17) (le (add a (neg b)) 1)",
    "(a b) () (le (add a (neg b)) 1) (back (0) e17) (le (sub a b) 1)",
    "(a b) () (le (add a b) 1) (at (0) e17) no-match",
    "(a b) () (le (add a b) 1) (back (0) e17) no-match",
    "(a b) () (le (add a (neg a)) b) (at (0) e18) (le 0 b)",
    "(a b) () (le 0 b) (back (0) (e18 a)) (le (add a (neg a)) b)",
    "(a b) () (le (add a (neg b)) b) (at (0) e18) no-match",
    "(a b) () (le 0 b) (back (0) e18) no-match",
    // negative number
    "(b) () (le (add 2 -2) b) (at (0) e18) no-match",
    "(a b) () (le (mul a b) 1) (at (0) e19) (le (mul b a) 1)",
    "(a b) () (le (mul a b) (mul b a)) (back (1) e19) (le (mul a b) (mul a b))",
    "(a b) () (le (add a b) 1) (at (0) e19) no-match",
    "(a b) () (le (add a b) 1) (back (0) e19) no-match",
    "(a b) () (le (mul a 1) b) (at (0) e21) (le a b)",
    "(a b) () (le a b) (back (0) e21) (le (mul a 1) b)",
    "(a b) () (le (mul 1 a) b) (at (0) e21) no-match",
    "(p q) () (and p q) (back (1) e21) ill-sorted",
    "(a b c) () (le (mul a (add b c)) 1) (at (0) e22) (le (add (mul a b) (mul a c)) 1)",
    "(a b c) () (le (add (mul a b) (mul a c)) 1) (back (0) e22) (le (mul a (add b c)) 1)",
    "(a b c) () (le (mul (add a b) c) 1) (at (0) e22) no-match",
    "(a b c) () (le (add (mul a b) (mul b c)) 1) (back (0) e22) no-match",
    "(a b) () (lt a b) (at () e23) (not (le b a))",
    "(a b) () (not (le b a)) (back () e23) (lt a b)",
    "(a b) () (le a b) (at () e23) no-match",
    "(a b) () (not (lt b a)) (back () e23) no-match",
    "(a b c) () (le (add a c) (add b c)) (at () e24) (le a b)",
    "(a b c) () (le a b) (back () (e24 c)) (le (add a c) (add b c))",
    "(a b c) () (le (add a c) (add c b)) (at () e24) no-match",
    "(a b c) () (le a b) (back () e24) no-match",
    "(a b) () (eq a b) (at () e25) (and (le a b) (le b a))",
    "(a b) () (and (le a b) (le b a)) (back () e25) (eq a b)",
    "(p q) () (eq p q) (at () e25) ill-sorted",
    "(a b) () (le a b) (at () e25) no-match",
    "(a b) () (and (le a b) (le a b)) (back () e25) no-match",
    "(a b) () (le (max a b) 1) (at (0) e26) (le (if (le a b) b a) 1)",
    "(a b) () (le (if (le a b) b a) 1) (back (0) e26) (le (max a b) 1)",
    "(a b) () (le (min a b) 1) (at (0) e26) no-match",
    "(a b) () (le (if (le a b) a b) 1) (back (0) e26) no-match",
    "(a b) () (le (min a b) -1) (at (0) e27) (le (if (le a b) a b) -1)",
    "(a b) () (le (if (le a b) a b) -1) (back (0) e27) (le (min a b) -1)",
    "(a b) () (le (max a b) 1) (at (0) e27) no-match",
    "(a b) () (le (if (le b a) a b) 1) (back (0) e27) no-match",
];

#[test]
fn rewrites_numbers(rt: HostRuntime) {
    hold(&rt, rt.alloc(), Kind::Line, &NUMBERS);
}
