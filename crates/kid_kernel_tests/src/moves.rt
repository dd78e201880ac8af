//! Moves, by the fact that each adds. A term between `{` and `}` stands below 125 times `not`.
use crate::rows::{Kind, hold};

/// Conclusions of each implication.
const IMPLICATIONS: [&str; 46] = [
    "(s) () (have m1 (s)) (eq s s)",
    "(a b) () (have m1 (a b)) no-match",
    // no term
    "() () (have m1 ()) no-match",
    "(a b c) ((le a b) (le b c)) (have m2 (a b c)) (le a c)",
    "(a b c) ((le a b)) (have m2 (a b c)) condition-2",
    "(a b c d) ((le c d) (le a b)) (have m3 (a b c d)) (le (add a c) (add b d))",
    "(a b c d) ((le c d)) (have m3 (a b c d)) condition-1",
    "(m x y) ((not (in x (dom m)))) (have m4 (x m y)) (submap m (put m x y))",
    "(m x y) () (have m4 (x m y)) condition-1",
    // turned
    "(m x y) ((not (in x (dom m)))) (have m4 (m x y)) condition-1",
    "(a b x) ((le a b)) (have m5 (a b x)) (le (mul a x) (mul b x))",
    "(a b c) ((le a b)) (have m5 (a b c)) condition-2",
    "(s t u) ((subset s t) (subset t u)) (have m6 (s t u)) (subset s u)",
    "(s t u) ((subset s t) (subset u t)) (have m6 (s t u)) condition-2",
    "(s t x) ((subset s t) (in x s)) (have m7 (s t x)) (in x t)",
    "(s t x) ((subset t s) (in x s)) (have m7 (s t x)) condition-1",
    "(s t) () (have m8 (s t)) (subset s (union s t))",
    "(s) () (have m8 (s)) no-match",
    // of a number
    "(s a) () (have m8 (s a)) ill-sorted",
    "(s) ((not (eq s (set)))) (have m9 (s 7)) (in (least s 7) s)",
    "(s) () (have m9 (s 7)) condition-1",
    "(s t) ((subset s t)) (have m10 (s t)) (le (card s) (card t))",
    "(s t) ((subset s t)) (have m10 (t s)) condition-1",
    "(s t) ((subset s t)) (have m11 (s t)) (le (sum s) (sum t))",
    "(neg-s neg-t) ((subset neg-s neg-t)) (have m11 (neg-s neg-t)) condition-2",
    // by a fact
    "(neg-s neg-t) ((subset neg-s neg-t) (le 0 (least neg-t 0))) (have m11 (neg-s neg-t)) (le (sum neg-s) (sum neg-t))",
    "(s t x) ((eq (inter s t) (set)) (in x t)) (have m12 (s t x)) (not (in x s))",
    "(s t x) ((eq (inter s t) (set)) (in x s)) (have m12 (s t x)) condition-2",
    // turned
    "(s t x) ((eq (inter t s) (set)) (in x t)) (have m12 (s t x)) condition-1",
    "(a b c d) ((le a b) (le c d)) (have m13 (a b c d)) (subset (range b c) (range a d))",
    "(a b c d) ((le a b)) (have m13 (a b c d)) condition-2",
    "(x s) ((in x s)) (have m14 (x s)) (le (least s x) x)",
    "(x y s) ((in y s)) (have m14 (x s)) condition-1",
    "(v w) ((prefix v w)) (have m15 (v w)) (le (len v) (len w))",
    "(v w) ((prefix w v)) (have m15 (v w)) condition-1",
    "(v w) ((prefix v w)) (have m16 (v w)) (subset (items v) (items w))",
    "(v w) () (have m16 (v w)) condition-1",
    "(v x) () (have m17 (v x)) (prefix v (snoc v x))",
    "(v) () (have m17 (v)) no-match",
    // of another kind
    "(v p) () (have m17 (v p)) ill-sorted",
    "(v w) ((prefix v w)) (have m18 (v w)) (le (total v) (total w))",
    "(neg-v neg-w) ((prefix neg-v neg-w)) (have m18 (neg-v neg-w)) condition-2",
    "(m n) ((submap m n)) (have m19 (m n)) (subset (dom m) (dom n))",
    "(m n) ((submap m n)) (have m19 (n m)) condition-1",
    "(m g x y) ((fits m g) (in x (dom g))) (have m20 (m g x y)) (in (get m x y) (get g x (set)))",
    "(m g x y) ((fits m g) (in x (dom m))) (have m20 (m g x y)) condition-2",
];

#[test]
fn concludes(rt: HostRuntime) {
    hold(&rt, rt.alloc(), Kind::Move, &IMPLICATIONS);
}

/// Conclusions of laws of the theory.
const LAWS: [&str; 9] = [
    // proved
    "(k) () (have fives (k)) (le k 5)",
    // law
    "(k) () (have grows (k)) (le k (twice k))",
    // law condition
    "(k j) ((le j k)) (have rises (j k)) (le (twice j) (twice k))",
    // law refused
    "(k j) ((le k j)) (have rises (j k)) condition-1",
    // law of three conditions
    "(h i j) ((lt h 5) (le i j) (le h i)) (have chained (h i j)) (le h j)",
    // law third refused
    "(h i j) ((le h i) (le i j)) (have chained (h i j)) condition-3",
    // law its own names
    "(h i) ((le i h)) (have rises (i h)) (le (twice i) (twice h))",
    // law of another sort
    "(wide) () (have small (wide)) ill-sorted",
    // law wrong count
    "(k) () (have grows (k k)) no-match",
];

#[test]
fn concludes_by_laws_of_the_theory(rt: HostRuntime) {
    hold(&rt, rt.alloc(), Kind::Move, &LAWS);
}

/// Each move, and its refusals in their order.
const MOVES: [&str; 61] = [
    // left accepted
    "(p q) ((and p q)) (left 1) p",
    // left refused
    "(p q) ((or p q)) (left 1) no-match",
    // left missing
    "(p q) ((and p q)) (left 2) no-match",
    // left 0
    "(p q) ((and p q)) (left 0) no-match",
    // left the greatest number
    "(p q) ((and p q)) (left 4294967295) no-match",
    // right accepted
    "(p q) (q (and p q)) (right 2) q",
    // right refused
    "(p q) ((implies p q)) (right 1) no-match",
    // right missing
    "(p q) ((and p q)) (right 3) no-match",
    // right 0
    "(p q) ((and p q)) (right 0) no-match",
    // join accepted
    "(p q) (p q) (join 2 1) (and q p)",
    // join one fact
    "(p) (p) (join 1 1) (and p p)",
    // join first missing
    "(p q) (p q) (join 3 1) no-match",
    // join second missing
    "(p q) (p q) (join 1 3) no-match",
    // join 0
    "(p q) (p q) (join 0 1) no-match",
    // join too deep
    "(p q) ((not (not {p})) q) (join 1 2) limit",
    // join just deep enough
    "(p q) ((not {p}) q) (join 1 2) (and (not {p}) q)",
    // join missing before too deep
    "(p q) ((not (not {p})) q) (join 1 3) no-match",
    // again accepted
    "(p q) (p q) (again 2) q",
    // again refused
    "(p q) (p q) (again 3) no-match",
    // again 0
    "(p q) (p q) (again 0) no-match",
    // have unknown number
    "(a) () (have m21 (a)) unknown-law",
    // have m0
    "(a) () (have m0 (a)) unknown-law",
    // have an equation
    "(a b) () (have e14 (a b)) unknown-law",
    // have a binder rule
    "(s) () (have b11 (s)) unknown-law",
    // have another rule
    "(p) (p) (have holds (p)) unknown-law",
    // have a rule of facts
    "(p) (p) (have (use 1) ()) unknown-law",
    // have each other rule
    "(k) () (have unfold (k)) unknown-law",
    "(p) (p) (have compute (p)) unknown-law",
    "(p) (p) (have fails (p)) unknown-law",
    "(p) (p) (have uncast (p)) unknown-law",
    // have a fold
    "(k) () (have (fold twice) (k)) unknown-law",
    // have an equation of the theory
    "(k) () (have doubled (k)) unknown-law",
    // have unknown name
    "(k) () (have tripled (k)) unknown-law",
    // have unknown law before no match
    "(k) () (have doubled (k k)) unknown-law",
    // have no match before condition
    "(a b c) () (have m2 (a c)) no-match",
    // have no match before ill sorted
    "(a p) () (have m8 (a p a)) no-match",
    // have condition 1 before condition 2
    "(a b c) () (have m2 (a b c)) condition-1",
    // have condition before ill sorted
    "(s a) () (have m10 (s a)) condition-1",
    // have ill sorted
    "(s p) () (have m8 (s p)) ill-sorted",
    // have unknown name in a term
    "(s) () (have m8 (s t)) ill-sorted",
    // have limit
    "(p) () (have m1 ((not (not {p})))) limit",
    // have just deep enough
    "(p) () (have m1 ((not {p}))) (eq (not {p}) (not {p}))",
    // have limit before ill sorted
    "(a) () (have m1 ((not (not {a})))) limit",
    // have condition by a later fact
    "(a b c) ((le b c) (le a b)) (have m2 (a b c)) (le a c)",
    // have condition closed
    "(a) ((le a 1)) (have m2 (a 1 3)) (le a 3)",
    // copy accepted
    "(a b) ((eq a b) (le a 1)) (copy 2 (at (0) (use 1))) (le b 1)",
    // copy condition in the second line
    "(a b) ((eq a b) (le a 1)) (copy 2 (at (0) (use 1)) (at () holds)) condition-1",
    // copy two lines
    "(a b) ((eq a b) (le a 1)) (copy 2 (at (0) (use 1)) (back () e7)) (not (not (le b 1)))",
    // copy no line
    "(p) (p) (copy 1) p",
    // copy missing
    "(p) (p) (copy 2 (at () holds)) no-match",
    // copy missing before no path
    "(p) (p) (copy 2 (at (0) tripled)) no-match",
    // copy no path
    "(p q) ((and p q)) (copy 1 (at (2) e1)) no-path",
    // copy unknown law
    "(p q) ((and p q)) (copy 1 (at () m2)) unknown-law",
    // copy no match
    "(p q) ((and p q)) (copy 1 (at () e3)) no-match",
    // copy capture
    "(s a) ((all x s (lt x a))) (copy 1 (at () (b1 a))) capture",
    // copy condition
    "(x s a) ((le (sum (with x s)) a)) (copy 1 (at (0) e40)) condition-1",
    // copy ill sorted
    "(p q) ((eq p q)) (copy 1 (at () e25)) ill-sorted",
    // copy limit
    "(p) ((not (not {p}))) (copy 1 (back () e3)) limit",
    // copy first refused line
    "(p q) ((and p q)) (copy 1 (at () e1) (at () e3) (at (5) e1)) no-match",
    // copy of itself holds
    "(p) (p) (copy 1 (at () holds)) true",
    // copy uses itself
    "(a b) ((eq a b)) (copy 1 (at (0) (use 1))) (eq b b)",
];

#[test]
fn moves(rt: HostRuntime) {
    hold(&rt, rt.alloc(), Kind::Move, &MOVES);
}
