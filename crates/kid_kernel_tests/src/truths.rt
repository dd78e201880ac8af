//! Values of terms without free names, and truths that hold or fail at a place.
use crate::rows::{Kind, hold};

/// Terms that become their values.
const VALUES: [&str; 40] = [
    // number
    "(a) () (le a (add 1 2)) (at (1) compute) (le a 3)",
    // negative
    "(a) () (le a (sub 1 2)) (at (1) compute) (le a -1)",
    // call
    "(a) () (le a (twice 2)) (at (1) compute) (le a 4)",
    // truth
    "() () (all x (set 1 2) (lt x 3)) (at () compute) true",
    // set
    "(s) () (subset s (union (set 3 1) (set 2 1))) (at (1) compute) (subset s (set 1 2 3))",
    // setof
    "(s) () (subset s (setof x (range 1 5) (lt x 3))) (at (1) compute) (subset s (set 1 2))",
    // pair
    "() () (pair (add 1 1) (not true)) (at () compute) (pair 2 false)",
    // sequence
    "(v) () (prefix v (snoc (seq 1 0) 1)) (at (1) compute) (prefix v (seq 1 0 1))",
    // map
    "() () (put (put (map) 2 5) 1 4) (at () compute) (put (put (map) 1 4) 2 5)",
    // map key twice
    "() () (put (put (map) 1 5) 1 4) (at () compute) (put (map) 1 4)",
    // map of sets
    "() () (fill (set 2 1) (set 4 3)) (at () compute) (put (put (map) 1 (set 3 4)) 2 (set 3 4))",
    // tag
    "() () (least (set 'red 'blue) 'red) (at () compute) 'blue",
    // itself
    "() () (set 2 1 2) (at () compute) (set 1 2)",
    "(a) () (le a (add a 2)) (at (1) compute) no-match",
    // bound name
    "() () (all x (set 1) (lt x 3)) (at (1) compute) no-match",
    // below a binder
    "() () (all x (set 1) (lt x (add 1 1))) (at (1 1) compute) (all x (set 1) (lt x 2))",
    // back
    "() () (add 1 2) (back () compute) no-match",
    // argument
    "() () (add 1 2) (at () (compute 3)) no-match",
    // division by 0
    "() () (div 7 0) (at () compute) 0",
    // remainder by 0
    "() () (mod 7 0) (at () compute) 0",
    // floor
    "() () (div -7 2) (at () compute) -4",
    // by a negative
    "() () (div 7 -2) (at () compute) -3",
    // negative by a negative
    "() () (div -7 -2) (at () compute) 4",
    // remainder of a negative
    "() () (mod -7 2) (at () compute) 1",
    // remainder by a negative
    "() () (mod -7 -2) (at () compute) 1",
    // empty set
    "(s) () (eq s (inter (set 1) (set 2))) (at (1) compute) (eq s (set))",
    // empty range
    "() () (range 2 1) (at () compute) (set)",
    // least of none
    "() () (least (set) 9) (at () compute) 9",
    // sum of none
    "() () (sum (set)) (at () compute) 0",
    // card of none
    "() () (card (set)) (at () compute) 0",
    // missing key
    "() () (get (put (map) 1 5) 2 9) (at () compute) 9",
    // drop missing key
    "() () (drop (put (map) 1 5) 2) (at () compute) (put (map) 1 5)",
    // empty map
    "() () (drop (put (map) 1 5) 1) (at () compute) (map)",
    // place beyond
    "() () (at (seq 4 5) 3 0) (at () compute) 0",
    // place 0
    "() () (at (seq 4 5) 0 9) (at () compute) 9",
    // rest beyond
    "() () (rest (seq 4 5) 3) (at () compute) (seq)",
    // rest negative
    "() () (rest (seq 4 5) -1) (at () compute) (seq 4 5)",
    // prefix of all
    "() () (prefix (seq) (seq 4)) (at () compute) true",
    // all of none
    "() () (all x (set) false) (at () compute) true",
    // cast outside
    "() () (cast (int 3 5) 9) (at () compute) 3",
];

#[test]
fn computes_values(rt: HostRuntime) {
    hold(&rt, rt.alloc(), Kind::Line, &VALUES);
}

/// What holds, and what fails.
const SETTLED: [&str; 43] = [
    // fact
    "(p q) (p) (and q p) (at (1) holds) (and q true)",
    // closed
    "(p) () (and p (lt 1 2)) (at (1) holds) (and p true)",
    // at most by bounds
    "(p x high) () (and p (le x high)) (at (1) holds) (and p true)",
    // less by bounds
    "(p low high) () (and p (lt low high)) (at (1) holds) (and p true)",
    // not at most by bounds
    "(p low high) () (and p (not (le high low))) (at (1) holds) (and p true)",
    // less by equal bounds
    "(p x high) () (and p (lt x high)) (at (1) holds) condition-1",
    // not at most by equal bounds
    "(p x high) () (and p (not (le high x))) (at (1) holds) condition-1",
    // both
    "(p q r) (p q) (or r (and p q)) (at (1) holds) (or r true)",
    // both as one fact
    "(p q r) ((and p q)) (or r (and p q)) (at (1) holds) (or r true)",
    // part of a fact
    "(p q r) ((and p q)) (or r p) (at (1) holds) condition-1",
    // one of both
    "(p q r) (p) (or r (and p q)) (at (1) holds) condition-1",
    // second of and
    "(p) () (and p p) (at (1) holds) (and p true)",
    // first of and
    "(p) () (and p p) (at (0) holds) condition-1",
    // second of implies
    "(p) () (implies p p) (at (1) holds) (implies p true)",
    // first of implies
    "(p) () (implies p p) (at (0) holds) condition-1",
    // second of or
    "(p) () (or p (not p)) (at (1) holds) condition-1",
    // second of if
    "(p q) () (if p p q) (at (1) holds) (if p true q)",
    // negation in the second of if
    "(p q) () (if p (not p) q) (at (1) holds) condition-1",
    // third of if
    "(p q) () (if p q (not p)) (at (2) holds) (if p q true)",
    // test in the third of if
    "(p q) () (if p q p) (at (2) holds) condition-1",
    // test of if
    "(p q) () (if p p q) (at (0) holds) condition-1",
    // member below a binder
    "(s) () (all x s (in x s)) (at (1) holds) (all x s true)",
    // member below each other binder
    "(s) () (some x s (in x s)) (at (1) holds) (some x s true)",
    "(s) () (setof x s (in x s)) (at (1) holds) (setof x s true)",
    "(s) () (image x s (if (in x s) 1 0)) (at (1 0) holds) (image x s (if true 1 0))",
    "(s) () (sumof x s (if (in x s) x 0)) (at (1 0) holds) (sumof x s (if true x 0))",
    // member of another set
    "(s t) () (all x s (in x t)) (at (1) holds) condition-1",
    // two above
    "(p q) () (and p (and q p)) (at (1 1) holds) (and p (and q true))",
    // by the sort of a bound name
    "(p) () (all x (range 1 3) (and p (le x 3))) (at (1 1) holds) (all x (range 1 3) (and p true))",
    "(p q) (q) p (at () holds) condition-1",
    // no truth
    "(a b) () (le a b) (at (0) holds) no-match",
    // back
    "(p) (p) true (back () holds) no-match",
    // argument
    "(p) (p) p (at () (holds p)) no-match",
    // fact
    "(p q) ((not p)) (or p q) (at (0) fails) (or false q)",
    // closed
    "(p) () (or (lt 2 1) p) (at (0) fails) (or false p)",
    // by bounds
    "(p low high) () (or (le high low) p) (at (0) fails) (or false p)",
    // less by bounds
    "(p low high) () (or (lt high low) p) (at (0) fails) condition-1",
    // third of if
    "(p q) () (if p q p) (at (2) fails) (if p q false)",
    // not of a fact
    "(p) (p) (not p) (at () fails) condition-1",
    "(p) () p (at () fails) condition-1",
    // no truth
    "(a b) () (le a b) (at (1) fails) no-match",
    // back
    "(p) ((not p)) false (back () fails) no-match",
    // argument
    "(p) ((not p)) p (at () (fails p)) no-match",
];

#[test]
fn settles_truths(rt: HostRuntime) {
    hold(&rt, rt.alloc(), Kind::Line, &SETTLED);
}
