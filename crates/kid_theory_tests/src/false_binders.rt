//! Proofs of false laws about definitions with binders, and laws beside them that are true.
use crate::over::{refuses_proofs, takes};

/// A name would be bound, a set is empty, a condition is not there, or a binder has another shape.
const ONE_DEFINITION: [&str; 16] = [
    "(def all-equal ((s (set (int 0 9))) (y (int 0 9))) bool (all x s (eq x y))) (input n (int 0 100)) (require (le 1 n)) (law a-law ((s (set (int 0 9))) (k (int 0 9))) (given) (equal (all-equal s k) true) (by (have m1 ((all-equal s k))) (copy 2 (at (1) unfold) (at (1) (b1 k)) (at (1 1) e12) (at (1) b11))))",
    "(def below ((a (int 0 9))) bool (all x (set 0 1) (all y (range x 9) (le a y)))) (input n (int 0 100)) (require (le 1 n)) (law a-law () (given) (equal (below 1) true) (by (have m1 ((below 1))) (copy 2 (at (1) unfold) (at (1) b10))))",
    "(def all-in ((s (set (int 0 9))) (t (set (int 0 9)))) bool (all x s (in x t))) (input n (int 0 100)) (require (le 1 n)) (law a-law ((t (set (int 0 9)))) (given) (equal (all-in (set) t) false) (by (have m1 ((all-in (set) t))) (copy 2 (at (1) unfold) (at (1) b3))))",
    "(def some-in ((s (set (int 0 9))) (t (set (int 0 9)))) bool (some x s (in x t))) (input n (int 0 100)) (require (le 1 n)) (law a-law ((t (set (int 0 9)))) (given) (equal (some-in (set) t) true) (by (have m1 ((some-in (set) t))) (copy 2 (at (1) unfold) (at (1) b2))))",
    "(def all-in ((s (set (int 0 9))) (t (set (int 0 9)))) bool (all x s (in x t))) (input n (int 0 100)) (require (le 1 n)) (law a-law ((s (set (int 0 9))) (t (set (int 0 9)))) (given) (equal (all-in s t) true) (by (have m1 ((all-in s t))) (copy 2 (at (1) unfold) (at (1) b2))))",
    "(def all-in ((s (set (int 0 9))) (t (set (int 0 9)))) bool (all x s (in x t))) (input n (int 0 100)) (require (le 1 n)) (law a-law ((s (set (int 0 9))) (t (set (int 0 9))) (k (int 0 9))) (given (all-in s t)) (holds (in k t)) (by (copy 2 (at () unfold) (at () (b18 k))) (left 3)))",
    "(def all-in ((s (set (int 0 9))) (t (set (int 0 9)))) bool (all x s (in x t))) (input n (int 0 100)) (require (le 1 n)) (law a-law ((s (set (int 0 9))) (t (set (int 0 9))) (u (set (int 0 9)))) (given (all-in s t)) (holds (all-in u t)) (by (copy 2 (at () unfold) (at () (b12 u))) (left 3) (copy 4 (at () (fold all-in u t)))))",
    "(def all-in ((s (set (int 0 9))) (t (set (int 0 9)))) bool (all x s (in x t))) (input n (int 0 100)) (require (le 1 n)) (law a-law ((s (set (int 0 9))) (t (set (int 0 9))) (u (set (int 0 9)))) (given (subset s u) (all-in s t)) (holds (all-in u t)) (by (copy 3 (at () unfold) (at () (b12 u))) (left 4) (copy 5 (at () (fold all-in u t)))))",
    "(def weight ((s (set (int 0 9)))) (int 0 90) (sumof x s x)) (input n (int 0 100)) (require (le 1 n)) (law a-law ((s (set (int 0 9))) (k (int 0 9))) (given) (equal (weight (with k s)) (add (weight s) k)) (by (have m1 ((weight (with k s)))) (copy 2 (at (1) unfold) (at (1) b16) (at (1 0) (fold weight s)))))",
    "(def some-in ((s (set (int 0 9))) (t (set (int 0 9)))) bool (some x s (in x t))) (input n (int 0 100)) (require (le 1 n)) (law a-law ((s (set (int 0 9))) (t (set (int 0 9))) (u (set (int 0 9)))) (given) (equal (some-in (union s u) t) (and (some-in s t) (some-in u t))) (by (have m1 ((some-in (union s u) t))) (copy 2 (at (1) unfold) (at (1) b6))))",
    "(def all-in ((s (set (int 0 9))) (t (set (int 0 9)))) bool (all x s (in x t))) (input n (int 0 100)) (require (le 1 n)) (law a-law ((s (set (int 0 9))) (t (set (int 0 9))) (u (set (int 0 9)))) (given) (equal (all-in (inter s u) t) (and (all-in s t) (all-in u t))) (by (have m1 ((all-in (inter s u) t))) (copy 2 (at (1) unfold) (at (1) b6))))",
    "(def all-in ((s (set (int 0 9))) (t (set (int 0 9)))) bool (all x s (in x t))) (input n (int 0 100)) (require (le 1 n)) (law a-law ((s (set (int 0 9))) (t (set (int 0 9))) (u (set (int 0 9)))) (given) (equal (and (all-in s t) (all-in u s)) (all-in (union s u) t)) (by (have m1 ((and (all-in s t) (all-in u s)))) (copy 2 (at (1 0) unfold) (at (1 1) unfold) (back (1) b6))))",
    "(def some-in ((s (set (int 0 9))) (t (set (int 0 9)))) bool (some x s (in x t))) (input n (int 0 100)) (require (le 1 n)) (law a-law ((s (set (int 0 9))) (t (set (int 0 9))) (u (set (int 0 9)))) (given (some-in s t) (some-in s u)) (holds (some-in s u)) (by (join 2 3) (copy 4 (at (0) unfold) (at (1) unfold) (back () b8))))",
    "(def all-in ((s (set (int 0 9))) (t (set (int 0 9)))) bool (all x s (in x t))) (input n (int 0 100)) (require (le 1 n)) (law a-law ((s (set (int 0 9))) (t (set (int 0 9)))) (given) (equal (all-in s t) (all-in t s)) (by (have m1 ((all-in s t))) (copy 2 (at (1) unfold) (at (1) (fold all-in t s)))))",
    "(def in-part ((s (set (int 0 9)))) bool (all x (setof y s (in y s)) (in x s))) (input n (int 0 100)) (require (le 1 n)) (law a-law ((s (set (int 0 9))) (k (int 0 9))) (given) (equal (in k s) true) (by (have m1 ((in k s))) (copy 2 (at (1) holds))))",
    "(def and-then ((s (set (int 0 9))) (k (int 0 9))) bool (and (all x s (in x s)) (in k s))) (input n (int 0 100)) (require (le 1 n)) (law a-law ((s (set (int 0 9))) (k (int 0 9))) (given) (equal (and-then s k) true) (by (have m1 ((and-then s k))) (copy 2 (at (1) unfold) (at (1 1) holds))))",
];

#[test]
fn refuses_laws_of_binders(rt: HostRuntime) {
    refuses_proofs(&rt, rt.alloc(), 1, 3, 5, &ONE_DEFINITION);
}

/// The same over two definitions.
const TWO_DEFINITIONS: [&str; 5] = [
    "(def other ((a (int 0 9))) bool (some x (set 0 1) (not (eq x a)))) (def each-has-other () bool (all x (set 0 1) (other x))) (input n (int 0 100)) (require (le 1 n)) (law a-law () (given) (equal (each-has-other) false) (by (have m1 ((each-has-other))) (copy 2 (at (1) unfold) (at (1 1) unfold) (at (1) compute))))",
    "(def apart ((s (set (int 0 9))) (t (set (int 0 9)))) bool (all x s (all y t (not (eq x y))))) (def never ((s (set (int 0 9))) (t (set (int 0 9)))) bool (all x s (all y t false))) (input n (int 0 100)) (require (le 1 n)) (law a-law ((s (set (int 0 9))) (t (set (int 0 9)))) (given) (equal (apart s t) (never s t)) (by (have m1 ((apart s t))) (copy 2 (at (1) unfold) (at (1) (b1 y)) (at (1 1 1 0) e12) (at (1 1 1) compute) (at (1) (b1 x)) (at (1) (fold never s t)))))",
    "(def some-in ((s (set (int 0 9))) (t (set (int 0 9)))) bool (some x s (in x t))) (def both ((s (set (int 0 9))) (t (set (int 0 9)))) bool (and (some-in s t) (some-in t s))) (input n (int 0 100)) (require (le 1 n)) (law a-law ((s (set (int 0 9))) (t (set (int 0 9)))) (given) (equal (some-in s s) true) (by (have m1 ((some-in s s))) (copy 2 (at (1) unfold) (at (1 1) holds) (at (1) b11))))",
    "(def all-in ((s (set (int 0 9))) (t (set (int 0 9)))) bool (all x s (in x t))) (def some-in ((s (set (int 0 9))) (t (set (int 0 9)))) bool (some x s (in x t))) (input n (int 0 100)) (require (le 1 n)) (law a-law ((s (set (int 0 9))) (t (set (int 0 9)))) (given) (equal (some-in s t) (not (all-in s t))) (by (have m1 ((some-in s t))) (copy 2 (at (1) unfold) (at (1) b9) (at (1 0) (fold all-in s t)))))",
    "(def all-in ((s (set (int 0 9))) (t (set (int 0 9)))) bool (all x s (in x t))) (def some-in ((s (set (int 0 9))) (t (set (int 0 9)))) bool (some x s (in x t))) (input n (int 0 100)) (require (le 1 n)) (law a-law ((s (set (int 0 9))) (t (set (int 0 9)))) (given (all-in s t)) (holds (some-in s t)) (by (copy 2 (at () unfold) (at () (fold some-in s t)))))",
];

#[test]
fn refuses_laws_of_two_binders(rt: HostRuntime) {
    refuses_proofs(&rt, rt.alloc(), 1, 3, 6, &TWO_DEFINITIONS);
}

/// Laws beside those.
const BESIDE: [&str; 5] = [
    "(def other ((a (int 0 9))) bool (some x (set 0 1) (not (eq x a)))) (def each-has-other () bool (all x (set 0 1) (other x))) (input n (int 0 100)) (require (le 1 n)) (law a-law () (given) (equal (each-has-other) true) (by (have m1 ((each-has-other))) (copy 2 (at (1) unfold) (at (1) compute))))",
    "(def all-in ((s (set (int 0 9))) (t (set (int 0 9)))) bool (all x s (in x t))) (input n (int 0 100)) (require (le 1 n)) (law a-law ((s (set (int 0 9)))) (given) (equal (all-in s s) true) (by (have m1 ((all-in s s))) (copy 2 (at (1) unfold) (at (1 1) holds) (at (1) b11))))",
    "(def all-in ((s (set (int 0 9))) (t (set (int 0 9)))) bool (all x s (in x t))) (input n (int 0 100)) (require (le 1 n)) (law a-law ((s (set (int 0 9))) (t (set (int 0 9))) (k (int 0 9))) (given (in k s) (all-in s t)) (holds (in k t)) (by (copy 3 (at () unfold) (at () (b18 k))) (left 4)))",
    "(def all-in ((s (set (int 0 9))) (t (set (int 0 9)))) bool (all x s (in x t))) (input n (int 0 100)) (require (le 1 n)) (law a-law ((s (set (int 0 9))) (t (set (int 0 9))) (u (set (int 0 9)))) (given (subset u s) (all-in s t)) (holds (all-in u t)) (by (copy 3 (at () unfold) (at () (b12 u))) (left 4) (copy 5 (at () (fold all-in u t)))))",
    "(def weight ((s (set (int 0 9)))) (int 0 90) (sumof x s x)) (input n (int 0 100)) (require (le 1 n)) (law a-law ((s (set (int 0 9))) (k (int 0 9))) (given (not (in k s))) (equal (weight (with k s)) (add (weight s) k)) (by (have m1 ((weight (with k s)))) (copy 3 (at (1) unfold) (at (1) b16) (at (1 0) (fold weight s)))))",
];

#[test]
fn takes_laws_of_binders(rt: HostRuntime) {
    takes(&rt, rt.alloc(), 1, 3, &BESIDE);
}
