//! Equations of sets, sequences and maps, forth and back, and terms that are no instance.
use crate::rows::{Kind, hold};

/// From `union` to `card`.
const SETS: [&str; 59] = [
    "(s t) () (card (union s t)) (at (0) e28) (card (union t s))",
    "(s t) () (union s t) (back () e28) (union t s)",
    "(s t) () (inter s t) (at () e28) no-match",
    "(s t) () (inter s t) (back () e28) no-match",
    "(s t u) () (union s (union t u)) (at () e29) (union (union s t) u)",
    "(s t u) () (union (union s t) u) (back () e29) (union s (union t u))",
    "(s t u) () (union (union s t) u) (at () e29) no-match",
    "(s t u) () (union s (union t u)) (back () e29) no-match",
    "(s t) () (subset (union s (set)) t) (at (0) e30) (subset s t)",
    "(s t) () (subset s t) (back (1) e30) (subset s (union t (set)))",
    "(s t) () (subset (union (set) s) t) (at (0) e30) no-match",
    "(a b) () (le a b) (back (0) e30) ill-sorted",
    "(s t) () (inter s t) (at () e31) (inter t s)",
    "(s t) () (eq (inter s t) (set)) (back (0) e31) (eq (inter t s) (set))",
    "(s t) () (union s t) (at () e31) no-match",
    "(s t) () (union s t) (back () e31) no-match",
    "(x s) () (with x s) (at () e32) (union (set x) s)",
    "(x s) () (union (set x) s) (back () e32) (with x s)",
    "(x s) () (without x s) (at () e32) no-match",
    "(x y s) () (union (set x y) s) (back () e32) no-match",
    "(x s) () (without x s) (at () e33) (diff s (set x))",
    "(x s) () (diff s (set x)) (back () e33) (without x s)",
    "(x s) () (with x s) (at () e33) no-match",
    "(s t) () (diff s t) (back () e33) no-match",
    "(x s t) () (in x (union s t)) (at () e34) (or (in x s) (in x t))",
    "(x s t) () (or (in x s) (in x t)) (back () e34) (in x (union s t))",
    "(x s t) () (in x (inter s t)) (at () e34) no-match",
    "(x y s t) () (or (in x s) (in y t)) (back () e34) no-match",
    "(x s t) () (in x (inter s t)) (at () e35) (and (in x s) (in x t))",
    "(x s t) () (and (in x s) (in x t)) (back () e35) (in x (inter s t))",
    "(x s t) () (in x (diff s t)) (at () e35) no-match",
    "(x y s t) () (and (in x s) (in y t)) (back () e35) no-match",
    "(x s t) () (in x (diff s t)) (at () e36) (and (in x s) (not (in x t)))",
    "(x s t) () (and (in x s) (not (in x t))) (back () e36) (in x (diff s t))",
    "(x s) () (in x s) (at () e36) no-match",
    "(x s t) () (and (in x s) (in x t)) (back () e36) no-match",
    "(x y) () (in x (set y)) (at () e37) (eq x y)",
    "(x y) () (eq x y) (back () e37) (in x (set y))",
    "(x y) () (in x (set y x)) (at () e37) no-match",
    // no member
    "(x) () (in x (set)) (at () e37) no-match",
    "(x s) () (in x s) (back () e37) no-match",
    "(a b c) () (in a (range b c)) (at () e38) (and (le b a) (le a c))",
    "(a b c) () (and (le b a) (le a c)) (back () e38) (in a (range b c))",
    "(a s) () (in a s) (at () e38) no-match",
    "(a b c) () (and (le b a) (le c a)) (back () e38) no-match",
    "(s t) () (subset s t) (at () e39) (eq (diff s t) (set))",
    "(s t) () (eq (diff s t) (set)) (back () e39) (subset s t)",
    "(s t) () (eq s t) (at () e39) no-match",
    "(s t) () (eq (diff s t) s) (back () e39) no-match",
    "(x s) ((not (in x s))) (le (sum (with x s)) 4) (at (0) e40) (le (add (sum s) x) 4)",
    "(x s) ((not (in x s))) (le (add (sum s) x) 4) (back (0) e40) (le (sum (with x s)) 4)",
    "(x s) () (le (sum (with x s)) 4) (at (0) e40) condition-1",
    "(x s) () (le (add (sum s) x) 4) (back (0) e40) condition-1",
    // other shape
    "(x s) ((not (in x s))) (le (sum (without x s)) 4) (at (0) e40) no-match",
    "(x s) ((not (in x s))) (le (card (with x s)) 2) (at (0) e41) (le (add (card s) 1) 2)",
    "(x s y) ((not (in x s))) (le (add (card s) 1) 2) (back (0) (e41 x)) (le (card (with x s)) 2)",
    "(x s t) ((not (in x t))) (le (card (with x s)) 2) (at (0) e41) condition-1",
    "(x s) ((not (in x s))) (le (add (card s) 1) 2) (back (0) e41) no-match",
    // back member
    "(x s) ((in x s)) (le (add (card s) 1) 2) (back (0) (e41 x)) condition-1",
];

#[test]
fn rewrites_sets(rt: HostRuntime) {
    hold(&rt, rt.alloc(), Kind::Line, &SETS);
}

/// From `len` to `get`.
const SEQUENCES: [&str; 39] = [
    "(m x y d) () (le (get (put m x y) x d) 0) (at (0) e20) (le y 0)",
    "(m x y d) () (le y 0) (back (0) (e20 m x d)) (le (get (put m x y) x d) 0)",
    "(m x y d) () (le (get (put m x y) d d) 0) (at (0) e20) no-match",
    "(m x y d) () (le y 0) (back (0) (e20 m x)) no-match",
    "(v x) () (le (len (snoc v x)) 2) (at (0) e42) (le (add (len v) 1) 2)",
    "(v x) () (le (add (len v) 1) 2) (back (0) (e42 x)) (le (len (snoc v x)) 2)",
    "(v) () (le (len v) 2) (at (0) e42) no-match",
    "(v x) () (le (add (len v) 1) 2) (back (0) e42) no-match",
    // back of another kind
    "(v p) () (le (add (len v) 1) 2) (back (0) (e42 p)) ill-sorted",
    "(v x) () (items (snoc v x)) (at () e43) (with x (items v))",
    "(v x) () (with x (items v)) (back () e43) (items (snoc v x))",
    "(v) () (items v) (at () e43) no-match",
    "(x s) () (with x s) (back () e43) no-match",
    "(v x) () (le (total (snoc v x)) 2) (at (0) e44) (le (add (total v) x) 2)",
    "(v x) () (le (add (total v) x) 2) (back (0) e44) (le (total (snoc v x)) 2)",
    "(v) () (le (total v) 2) (at (0) e44) no-match",
    "(s x) () (le (add (sum s) x) 2) (back (0) e44) no-match",
    "(v w a d) ((prefix v w) (in a (range 1 (len v)))) (le (at w a d) 0) (at (0) (e45 v)) (le (at v a d) 0)",
    "(v w a d) ((prefix v w) (in a (range 1 (len v)))) (le (at v a d) 0) (back (0) (e45 w)) (le (at w a d) 0)",
    "(v w a d) ((in a (range 1 (len v)))) (le (at w a d) 0) (at (0) (e45 v)) condition-1",
    // second refused
    "(v w a d) ((prefix v w)) (le (at w a d) 0) (at (0) (e45 v)) condition-2",
    // argument missing
    "(v w a d) ((prefix v w) (in a (range 1 (len v)))) (le (at w a d) 0) (at (0) e45) no-match",
    "(v w a d) ((prefix w v) (in a (range 1 (len v)))) (le (at v a d) 0) (back (0) (e45 w)) condition-1",
    // back argument missing
    "(v w a d) ((prefix v w) (in a (range 1 (len v)))) (le (at v a d) 0) (back (0) e45) no-match",
    "(v x d) () (le (at (snoc v x) (add (len v) 1) d) 0) (at (0) e46) (le x 0)",
    "(v x d) () (le x 0) (back (0) (e46 v d)) (le (at (snoc v x) (add (len v) 1) d) 0)",
    "(v x d) () (le (at (snoc v x) (len v) d) 0) (at (0) e46) no-match",
    "(v x d) () (le x 0) (back (0) (e46 v)) no-match",
    // back turned
    "(v x d) () (le x 0) (back (0) (e46 d v)) ill-sorted",
    "(m x y) () (dom (put m x y)) (at () e47) (with x (dom m))",
    "(m x y) () (with x (dom m)) (back () (e47 y)) (dom (put m x y))",
    "(m) () (dom m) (at () e47) no-match",
    "(m x) () (with x (dom m)) (back () e47) no-match",
    "(m n x d) ((submap m n) (in x (dom m))) (le (get n x d) 0) (at (0) (e48 m)) (le (get m x d) 0)",
    "(m n x d) ((submap m n) (in x (dom m))) (le (get m x d) 0) (back (0) (e48 n)) (le (get n x d) 0)",
    "(m n x d) ((submap m n) (in x (dom n))) (le (get n x d) 0) (at (0) (e48 m)) condition-2",
    // first refused
    "(m n x d) ((submap n m) (in x (dom m))) (le (get n x d) 0) (at (0) (e48 m)) condition-1",
    // argument missing
    "(m n x d) ((submap m n) (in x (dom m))) (le (get n x d) 0) (at (0) e48) no-match",
    "(m n x d) ((submap m n)) (le (get m x d) 0) (back (0) (e48 n)) condition-2",
];

#[test]
fn rewrites_sequences_and_maps(rt: HostRuntime) {
    hold(&rt, rt.alloc(), Kind::Line, &SEQUENCES);
}

/// Empty sets, sequences and maps, and places below others.
const CORNERS: [&str; 21] = [
    // empty sets
    "() () (eq (set) (set)) (at () e12) true",
    // key there already
    "(x d) () (get (put (put (map) 1 0) 1 x) 1 d) (at () e20) x",
    // empty
    "() () (union (set) (set)) (at () e30) (set)",
    // empty range
    "(a) () (in a (range 2 1)) (at () e38) (and (le 2 a) (le a 1))",
    // empty
    "(s) () (subset (set) s) (at () e39) (eq (diff (set) s) (set))",
    // empty
    "(a) () (sum (with a (set))) (at () e40) condition-1",
    // closed
    "() () (sum (with 3 (set 1 2))) (at () e40) (add (sum (set 1 2)) 3)",
    // closed member
    "() () (sum (with 2 (set 1 2))) (at () e40) condition-1",
    // beyond the prefix
    "(w d) () (at w 1 d) (at () (e45 (seq))) condition-1",
    // beyond the prefix as a fact
    "(w d) ((prefix (seq) w)) (at w 1 d) (at () (e45 (seq))) condition-2",
    // empty sequence
    "(x d) () (at (snoc (seq) x) (add (len (seq)) 1) d) (at () e46) x",
    // missing key
    "(n d) ((submap (map) n)) (get n 1 d) (at () (e48 (map))) condition-2",
    // scope condition
    "(x s b) () (and (not (in x s)) (le (sum (with x s)) b)) (at (1 0) e40) (and (not (in x s)) (le (add (sum s) x) b))",
    // scope condition before
    "(x s b) () (and (le (sum (with x s)) b) (not (in x s))) (at (0 0) e40) condition-1",
    // scope condition of if
    "(x s) () (if (in x s) (sum s) (sum (with x s))) (at (2) e40) (if (in x s) (sum s) (add (sum s) x))",
    // scope condition of a binder
    "(s t) () (all x s (implies (not (in x t)) (le (sum (with x t)) 4))) (at (1 1 0) e40) (all x s (implies (not (in x t)) (le (add (sum t) x) 4)))",
    // in a set of a binder
    "(a s) () (all x (setof y s (all z (set) (eq z a))) (lt x a)) (at (0 1) b2) (all x (setof y s true) (lt x a))",
    // after a new name
    "(s t b) () (all x (setof y s (some z t (lt y z))) (lt x b)) (at () b14) (all x s (implies (some z t (lt x z)) (lt x b)))",
    // of maps
    "(m n) () (eq m n) (at () e13) (eq n m)",
    // back makes a wider sort
    "(k) () (le (twice k) 4) (back (0 0) (e10 9)) ill-sorted",
    // back to true anywhere
    "(p k) () (and true p) (back (0) (grown k)) (and (le k (twice k)) p)",
];

#[test]
fn rewrites_in_corners(rt: HostRuntime) {
    hold(&rt, rt.alloc(), Kind::Line, &CORNERS);
}
