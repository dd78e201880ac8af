//! Rules that look at definitions, facts, sorts and laws of the theory.
use crate::rows::{Kind, hold};

/// Calls that are opened, and bodies that are folded.
const CALLS: [&str; 21] = [
    "(k) () (le (twice k) 4) (at (0) unfold) (le (add k k) 4)",
    // no parameter
    "(a) () (le a (five)) (at (1) unfold) (le a 5)",
    // with a binder
    "(k) () (some-above k) (at () unfold) (some i (range 1 3) (lt k i))",
    "(k) () (le (twice k) 4) (at () unfold) no-match",
    // captured
    "(i) () (some-above i) (at () unfold) capture",
    // captured below a binder
    "() () (all i (range 1 2) (some-above i)) (at (1) unfold) capture",
    // after a new name
    "() () (all j (range 1 2) (some-above j)) (at (1) unfold) (all j (range 1 2) (some i (range 1 3) (lt j i)))",
    // call in a call
    "(k) () (le (min (twice k) (five)) 4) (at (0 0) unfold) (le (min (add k k) (five)) 4)",
    // back
    "(k) () (add k k) (back () unfold) no-match",
    // argument
    "(k) () (twice k) (at () (unfold k)) no-match",
    "(k) () (le (add k k) 4) (at (0) (fold twice k)) (le (twice k) 4)",
    // no parameter
    "(a) () (le a 5) (at (1) (fold five)) (le a (five))",
    // with a binder
    "(k) () (some i (range 1 3) (lt k i)) (at () (fold some-above k)) (some-above k)",
    "(k y) () (add k y) (at () (fold twice k)) no-match",
    // other binder name
    "(k) () (some j (range 1 3) (lt k j)) (at () (fold some-above k)) no-match",
    // would capture
    "() () (some i (range 1 3) (lt i i)) (at () (fold some-above i)) no-match",
    // unknown
    "(k) () (add k k) (at () (fold thrice k)) unknown-law",
    // wrong count
    "(k) () (add k k) (at () (fold twice k k)) no-match",
    // back
    "(k) () (add k k) (back () (fold twice k)) no-match",
    // back unknown
    "(k) () (add k k) (back () (fold thrice k)) unknown-law",
    // too wide
    "(wide) () (le (add wide wide) 4) (at (0) (fold twice wide)) ill-sorted",
];

#[test]
fn opens_and_folds_calls(rt: HostRuntime) {
    hold(&rt, rt.alloc(), Kind::Line, &CALLS);
}

/// Facts that are used.
const USES: [&str; 17] = [
    // equation
    "(a b) ((eq a b)) (le a 1) (at (0) (use 1)) (le b 1)",
    // equation back
    "(a b) ((eq a b)) (le b 1) (back (0) (use 1)) (le a 1)",
    // equation refused
    "(a b) ((eq a b)) (le b 1) (at (0) (use 1)) no-match",
    // equation back refused
    "(a b) ((eq a b)) (le a 1) (back (0) (use 1)) no-match",
    // equation is no truth
    "(a b) ((eq a b)) (and (eq a b) (le a 1)) (at (0) (use 1)) no-match",
    // equation of terms
    "(s t a) ((eq (sum s) a)) (le (sum s) (sum t)) (at (0) (use 1)) (le a (sum t))",
    // truth
    "(p q) ((or p q)) (and q (or p q)) (at (1) (use 1)) (and q true)",
    // truth back
    "(p q) ((or p q)) (and q true) (back (1) (use 1)) no-match",
    // truth refused
    "(p q) ((or p q)) (and q (or q p)) (at (1) (use 1)) no-match",
    // second
    "(a b p) ((eq a b) p) (and p (le a b)) (at (0) (use 2)) (and true (le a b))",
    // 0
    "(p) (p) p (at () (use 0)) no-match",
    // beyond
    "(p) (p) p (at () (use 2)) no-match",
    // the greatest number
    "(p) (p) p (at () (use 4294967295)) no-match",
    // what is assumed
    "(p) () (and p p) (at (1) (use 1)) no-match",
    // below a binder
    "(a b s) ((eq a b)) (all x s (lt x a)) (at (1 1) (use 1)) (all x s (lt x b))",
    // too wide
    "(k wide) ((eq k wide)) (le (twice k) 4) (at (0 0) (use 1)) ill-sorted",
    // of an empty set below which a body has no sort
    "(s a) ((eq s (set))) (all x s (lt x a)) (at (0) (use 1)) ill-sorted",
];

#[test]
fn uses_facts(rt: HostRuntime) {
    hold(&rt, rt.alloc(), Kind::Line, &USES);
}

/// Casts that change nothing.
const CASTS: [&str; 21] = [
    // by bounds
    "(x) () (le (cast (int 0 5) x) 1) (at (0) uncast) (le x 1)",
    // by facts
    "(over) ((le over 5) (le 0 over)) (le (cast (int 0 5) over) 1) (at (0) uncast) (le over 1)",
    // too small
    "(under) () (le (cast (int 0 5) under) 1) (at (0) uncast) condition-1",
    // too great
    "(wide) () (le (cast (int 0 5) wide) 1) (at (0) uncast) condition-2",
    // integer of a truth
    "(p) () (le (cast (int 0 5) p) 1) (at (0) uncast) condition-1",
    // sequence
    "(w) ((le (len w) 2)) (le (len (cast (seq (int 0 1) 2) w)) 1) (at (0 0) uncast) (le (len w) 1)",
    // sequence by bounds
    "(v) () (le (len (cast (seq (int 0 1) 2) v)) 1) (at (0 0) uncast) (le (len v) 1)",
    // sequence too long
    "(w) () (le (len (cast (seq (int 0 1) 2) w)) 1) (at (0 0) uncast) condition-1",
    // sequence of wider items
    "(w) ((le (len w) 2)) (le (len (cast (seq (int 0 0) 2) w)) 1) (at (0 0) uncast) no-match",
    // sequence of a set
    "(s) () (le (len (cast (seq (int 0 5) 2) s)) 1) (at (0 0) uncast) no-match",
    // set
    "(s) () (le (card (cast (set (int 0 5)) s)) 1) (at (0 0) uncast) (le (card s) 1)",
    // set refused
    "(s) () (le (card (cast (set (int 1 2)) s)) 1) (at (0 0) uncast) no-match",
    // truth
    "(p) () (cast bool p) (at () uncast) p",
    // truth refused
    "(a) () (cast bool a) (at () uncast) no-match",
    // pair
    "(x p) () (cast (pair (int 0 9) bool) (pair x p)) (at () uncast) (pair x p)",
    // map
    "(m) () (cast (map (int 0 2) (int 0 3)) m) (at () uncast) m",
    // tag
    "() () (cast (enum blue red) 'red) (at () uncast) 'red",
    // no cast
    "(x) () (le x 1) (at (0) uncast) no-match",
    // back
    "(x) () (le x 1) (back (0) uncast) no-match",
    // argument
    "(x) () (le (cast (int 0 5) x) 1) (at (0) (uncast x)) no-match",
    // within another term
    "(x) () (cast (int 1 1) (cast (int 0 5) x)) (at (0) uncast) (cast (int 1 1) x)",
];

#[test]
fn takes_casts_away(rt: HostRuntime) {
    hold(&rt, rt.alloc(), Kind::Line, &CASTS);
}

/// Equations of the theory.
const LAWS: [&str; 21] = [
    // equation
    "(k) () (le (twice k) 4) (at (0) doubled) (le (mul k 2) 4)",
    // equation back
    "(k) () (le (mul k 2) 4) (back (0) doubled) (le (twice k) 4)",
    // equation refused
    "(k) () (le k 4) (at (0) doubled) no-match",
    // proved
    "(k) () (le (twice k) 4) (at (0) opened) (le (add k k) 4)",
    // proved back
    "(k) () (le (add k k) 4) (back (0) opened) (le (twice k) 4)",
    // condition
    "(k j) ((le k j)) (le (twice k) (twice j)) (at () ordered) true",
    // condition refused
    "(k j) ((le j k)) (le (twice k) (twice j)) (at () ordered) condition-1",
    // arguments as declared
    "(k j p) ((le k j)) (and p true) (back (1) (ordered j k)) (and p (le (twice k) (twice j)))",
    // arguments turned
    "(k j p) ((le k j)) (and p true) (back (1) (ordered k j)) condition-1",
    // argument missing
    "(k j p) ((le k j)) (and p true) (back (1) (ordered j)) no-match",
    // of another sort
    "(wide) () (le (min wide 5) 4) (at (0) capped) ill-sorted",
    // at a bound name
    "(p) () (all i (range 0 5) (le (min i 5) 4)) (at (1 0) capped) (all i (range 0 5) (le i 4))",
    // at a bound name of another sort
    "(p) () (all i (range 0 9) (le (min i 5) 4)) (at (1 0) capped) ill-sorted",
    // of another sort that still fits
    "(wide) () (not (le wide 5)) (at (0) doubly) ill-sorted",
    // unused variable
    "(a k) () (le (max k 0) 1) (at (0) (spare k)) (le k 1)",
    // unused variable missing
    "(a k) () (le (max k 0) 1) (at (0) spare) no-match",
    // unused variable of another sort
    "(k p) () (le (max k 0) 1) (at (0) (spare p)) ill-sorted",
    // unused variable without a sort
    "(k p) () (le (max k 0) 1) (at (0) (spare (le k p))) ill-sorted",
    // both variables back
    "(k j) () (le k 1) (back (0) (spare 5)) (le (max k 0) 1)",
    // unknown
    "(k) () (le (twice k) 4) (at (0) tripled) unknown-law",
    // that holds in a line
    "(k) () (le k (twice k)) (at () grows) unknown-law",
];

#[test]
fn uses_laws_of_the_theory(rt: HostRuntime) {
    hold(&rt, rt.alloc(), Kind::Line, &LAWS);
}
