//! Refusals of lines. A term between `{` and `}` stands below 125 times `not`; `#` is 125 zeros, and `$` 2044 ones.
use crate::rows::{Kind, hold};

/// One refusal.
const KINDS: [&str; 19] = [
    // no path of a name
    "(p q) () (and p q) (at (0 0) e1) no-path",
    // no path of a number
    "(a) () (le a 3) (at (1 0) e16) no-path",
    // no path beyond the last
    "(p q) () (and p q) (at (2) e1) no-path",
    // no path of the greatest number
    "(p q) () (and p q) (at (4294967295) e1) no-path",
    // no path of an empty set
    "(s) () (eq s (set)) (at (1 0) e12) no-path",
    // no path of a binder
    "(s a) () (all x s (lt x a)) (at (2) e1) no-path",
    // no path of a call without terms
    "(a) () (le a (five)) (at (1 0) e16) no-path",
    // unknown law e0
    "(p q) () (and p q) (at () e0) unknown-law",
    // unknown law e49
    "(p q) () (and p q) (at () e49) unknown-law",
    // unknown law e255
    "(p q) () (and p q) (at () e255) unknown-law",
    // unknown law b0
    "(s a) () (all x s (lt x a)) (at () b0) unknown-law",
    // unknown law b19
    "(s a) () (all x s (lt x a)) (at () b19) unknown-law",
    // unknown law implication
    "(a) () (eq a a) (at () m1) unknown-law",
    // unknown law implication back
    "(p) () (and p true) (back (1) (m1 p)) unknown-law",
    // limit depth
    "(p) () (not (not {p})) (back () e3) limit",
    // limit depth just reached
    "(p) () (not {p}) (back () e3) (and (not {p}) (not {p}))",
    // limit depth at the bottom
    "(p) () (not {p}) (back (0#) e7) limit",
    // limit nodes
    "() () (in 1 (set 1$)) (back () e3) limit",
    // limit nodes just reached
    "() () (in 1 (set$)) (back () e3) (and (in 1 (set$)) (in 1 (set$)))",
];

#[test]
fn refuses_lines(rt: HostRuntime) {
    hold(&rt, rt.alloc(), Kind::Line, &KINDS);
}

/// The first of two or more.
const FIRST: [&str; 27] = [
    // no path before unknown law
    "(p q) () (and p q) (at (2) tripled) no-path",
    // no path before no match
    "(p q) () (and p q) (back (2) compute) no-path",
    // no path before a fact that is not there
    "(p q) () (and p q) (at (0 0) (use 1)) no-path",
    // no path before condition
    "(p q) () (and p q) (at (2) holds) no-path",
    // no path before capture
    "(s a) () (all x s (lt x a)) (at (2) (b1 a)) no-path",
    // unknown law before no match
    "(p q) () (or p q) (back () (fold thrice p q)) unknown-law",
    // unknown law before the count
    "(p q) () (or p q) (at () (m1 p q)) unknown-law",
    // unknown law before arguments without a sort
    "(p q) () (or p q) (at () (e49 (le p q))) unknown-law",
    // no match before capture
    "(s t) () (all x s (some y t (lt x y))) (at () (b18 y y)) no-match",
    // no match before capture back
    "(s a) () (all x s (lt x a)) (back () (b1 a)) no-match",
    // no match before condition
    "(v w a d) () (le (at w a d) 0) (at (0) e45) no-match",
    // no match before condition back
    "(p) () p (back () holds) no-match",
    // no match before ill sorted
    "(p a) () (and p p) (at () (e3 (le p a))) no-match",
    // no match before limit
    "(p q) () (not (not {p})) (back () (e3 q)) no-match",
    // capture before condition
    "(s t) () (all x s (some y t (lt x y))) (at () (b18 y)) capture",
    // capture before ill sorted
    "(s a) () (all x s (lt x a)) (at () (b1 a)) capture",
    // capture before a name that goes out of scope
    "(s) () (all x s (all y (range 1 x) (le y x))) (at () b10) capture",
    // capture before limit
    "(s) () (all x s (some y (set$) (lt x y))) (at () (b18 y)) capture",
    // where nothing is captured
    "(s a) ((in a s)) (all x s (some y (set$) (lt x y))) (at () (b18 a)) limit",
    // condition 1 before condition 2
    "(v w a d) () (le (at w a d) 0) (at (0) (e45 v)) condition-1",
    // condition 2 after condition 1
    "(v w a d) ((prefix v w)) (le (at w a d) 0) (at (0) (e45 v)) condition-2",
    // condition before ill sorted
    "(w a d p) () (le (at w a d) 0) (at (0) (e45 p)) condition-1",
    // condition before a variable of another sort
    "(wide broad) () (le (add wide broad) (add broad wide)) (at (0) swapped) condition-1",
    // condition before limit
    "(s t a) () (all x s {(lt x a)}) (at () (b12 t)) condition-1",
    // limit before ill sorted
    "(p) () (not (not {p})) (back () e16) limit",
    // limit before a variable of another sort
    "(wide) () (not {(le wide 5)}) (at (0#) doubly) limit",
    // ill sorted after all else
    "(k wide) ((eq k wide)) (le (twice k) 4) (at (0 0) (use 1)) ill-sorted",
];

#[test]
fn refuses_by_the_first(rt: HostRuntime) {
    hold(&rt, rt.alloc(), Kind::Line, &FIRST);
}
