//! Laws that are false in a corner, with proofs that lead to them but for a condition, and laws beside them that are true.
use crate::over::{refuses_proofs, takes};

/// Each rule that has conditions, without one of them.
const WITHOUT_A_CONDITION: [&str; 33] = [
    "(law a-law ((a (int 0 9)) (s (set (int -9 9)))) (given) (equal (sum (with a s)) (add (sum s) a)) (by (have m1 ((sum (with a s)))) (copy 2 (at (1) e40))))",
    "(law a-law ((x (int 0 9)) (s (set (int 0 9)))) (given) (equal (card (with x s)) (add (card s) 1)) (by (have m1 ((card (with x s)))) (copy 2 (at (1) e41))))",
    "(law a-law ((v (seq (int 0 9) 3)) (w (seq (int 0 9) 3)) (a (int 0 9)) (x (int 0 9))) (given (in a (range 1 (len v)))) (equal (at w a x) (at v a x)) (by (have m1 ((at w a x))) (copy 3 (at (1) (e45 v)))))",
    "(law a-law ((v (seq (int 0 9) 3)) (w (seq (int 0 9) 3)) (a (int 0 9)) (x (int 0 9))) (given (prefix v w)) (equal (at w a x) (at v a x)) (by (have m1 ((at w a x))) (copy 3 (at (1) (e45 v)))))",
    "(law a-law ((m (map (int 0 9) (int 0 9))) (k (map (int 0 9) (int 0 9))) (x (int 0 9)) (y (int 0 9))) (given (in x (dom m))) (equal (get k x y) (get m x y)) (by (have m1 ((get k x y))) (copy 3 (at (1) (e48 m)))))",
    "(law a-law ((m (map (int 0 9) (int 0 9))) (k (map (int 0 9) (int 0 9))) (x (int 0 9)) (y (int 0 9))) (given (submap m k)) (equal (get k x y) (get m x y)) (by (have m1 ((get k x y))) (copy 3 (at (1) (e48 m)))))",
    "(law a-law ((a (int 0 9)) (b (int 0 9)) (c (int 0 9))) (given (le b c)) (holds (le a c)) (by (have m2 (a b c))))",
    "(law a-law ((a (int 0 9)) (b (int 0 9)) (c (int 0 9))) (given (le a b)) (holds (le a c)) (by (have m2 (a b c))))",
    "(law a-law ((a (int 0 9)) (b (int 0 9)) (c (int 0 9)) (d (int 0 9))) (given (le c d)) (holds (le (add a c) (add b d))) (by (have m3 (a b c d))))",
    "(law a-law ((a (int 0 9)) (b (int 0 9)) (c (int 0 9)) (d (int 0 9))) (given (le a b)) (holds (le (add a c) (add b d))) (by (have m3 (a b c d))))",
    "(law a-law ((x (int 0 9)) (m (map (int 0 9) (int 0 9))) (y (int 0 9))) (given) (holds (submap m (put m x y))) (by (have m4 (x m y))))",
    "(law a-law ((a (int 0 9)) (b (int 0 9)) (c (int -9 9))) (given (le 0 c)) (holds (le (mul a c) (mul b c))) (by (have m5 (a b c))))",
    "(law a-law ((a (int 0 9)) (b (int 0 9)) (c (int -9 9))) (given (le a b)) (holds (le (mul a c) (mul b c))) (by (have m5 (a b c))))",
    "(law a-law ((s (set (int 0 9))) (t (set (int 0 9))) (u (set (int 0 9)))) (given (subset t u)) (holds (subset s u)) (by (have m6 (s t u))))",
    "(law a-law ((s (set (int 0 9))) (t (set (int 0 9))) (u (set (int 0 9)))) (given (subset s t)) (holds (subset s u)) (by (have m6 (s t u))))",
    "(law a-law ((s (set (int 0 9))) (t (set (int 0 9))) (x (int 0 9))) (given (in x s)) (holds (in x t)) (by (have m7 (s t x))))",
    "(law a-law ((s (set (int 0 9))) (t (set (int 0 9))) (x (int 0 9))) (given (subset s t)) (holds (in x t)) (by (have m7 (s t x))))",
    "(law a-law ((s (set (int 0 9))) (x (int 0 9))) (given) (holds (in (least s x) s)) (by (have m9 (s x))))",
    "(law a-law ((s (set (int 0 9))) (t (set (int 0 9)))) (given) (holds (le (card s) (card t))) (by (have m10 (s t))))",
    "(law a-law ((s (set (int -9 9))) (t (set (int -9 9)))) (given (le 0 (least t 0))) (holds (le (sum s) (sum t))) (by (have m11 (s t))))",
    "(law a-law ((s (set (int -9 9))) (t (set (int -9 9)))) (given (subset s t)) (holds (le (sum s) (sum t))) (by (have m11 (s t))))",
    "(law a-law ((s (set (int 0 9))) (t (set (int 0 9))) (x (int 0 9))) (given (in x t)) (holds (not (in x s))) (by (have m12 (s t x))))",
    "(law a-law ((s (set (int 0 9))) (t (set (int 0 9))) (x (int 0 9))) (given (eq (inter s t) (set))) (holds (not (in x s))) (by (have m12 (s t x))))",
    "(law a-law ((a (int 0 9)) (b (int 0 9)) (c (int 0 9)) (d (int 0 9))) (given (le c d)) (holds (subset (range b c) (range a d))) (by (have m13 (a b c d))))",
    "(law a-law ((a (int 0 9)) (b (int 0 9)) (c (int 0 9)) (d (int 0 9))) (given (le a b)) (holds (subset (range b c) (range a d))) (by (have m13 (a b c d))))",
    "(law a-law ((a (int 0 9)) (s (set (int 0 9)))) (given) (holds (le (least s a) a)) (by (have m14 (a s))))",
    "(law a-law ((v (seq (int 0 9) 3)) (w (seq (int 0 9) 3))) (given) (holds (le (len v) (len w))) (by (have m15 (v w))))",
    "(law a-law ((v (seq (int 0 9) 3)) (w (seq (int 0 9) 3))) (given) (holds (subset (items v) (items w))) (by (have m16 (v w))))",
    "(law a-law ((v (seq (int -9 9) 3)) (w (seq (int -9 9) 3))) (given (le 0 (least (items w) 0))) (holds (le (total v) (total w))) (by (have m18 (v w))))",
    "(law a-law ((v (seq (int -9 9) 3)) (w (seq (int -9 9) 3))) (given (prefix v w)) (holds (le (total v) (total w))) (by (have m18 (v w))))",
    "(law a-law ((m (map (int 0 9) (int 0 9))) (k (map (int 0 9) (int 0 9)))) (given) (holds (subset (dom m) (dom k))) (by (have m19 (m k))))",
    "(law a-law ((m (map (int 0 9) (int 0 9))) (k (map (int 0 9) (set (int 0 9)))) (x (int 0 9)) (y (int 0 9))) (given (in x (dom k))) (holds (in (get m x y) (get k x (set)))) (by (have m20 (m k x y))))",
    "(law a-law ((m (map (int 0 9) (int 0 9))) (k (map (int 0 9) (set (int 0 9)))) (x (int 0 9)) (y (int 0 9))) (given (fits m k)) (holds (in (get m x y) (get k x (set)))) (by (have m20 (m k x y))))",
];

#[test]
fn refuses_rules_without_a_condition(rt: HostRuntime) {
    refuses_proofs(&rt, rt.alloc(), 3, 3, 4, &WITHOUT_A_CONDITION);
}

/// The same with all of them.
const WITH_ALL_CONDITIONS: [&str; 21] = [
    "(law a-law ((a (int 0 9)) (s (set (int -9 9)))) (given (not (in a s))) (equal (sum (with a s)) (add (sum s) a)) (by (have m1 ((sum (with a s)))) (copy 3 (at (1) e40))))",
    "(law a-law ((x (int 0 9)) (s (set (int 0 9)))) (given (not (in x s))) (equal (card (with x s)) (add (card s) 1)) (by (have m1 ((card (with x s)))) (copy 3 (at (1) e41))))",
    "(law a-law ((v (seq (int 0 9) 3)) (w (seq (int 0 9) 3)) (a (int 0 9)) (x (int 0 9))) (given (prefix v w) (in a (range 1 (len v)))) (equal (at w a x) (at v a x)) (by (have m1 ((at w a x))) (copy 4 (at (1) (e45 v)))))",
    "(law a-law ((m (map (int 0 9) (int 0 9))) (k (map (int 0 9) (int 0 9))) (x (int 0 9)) (y (int 0 9))) (given (submap m k) (in x (dom m))) (equal (get k x y) (get m x y)) (by (have m1 ((get k x y))) (copy 4 (at (1) (e48 m)))))",
    "(law a-law ((a (int 0 9)) (b (int 0 9)) (c (int 0 9))) (given (le a b) (le b c)) (holds (le a c)) (by (have m2 (a b c))))",
    "(law a-law ((a (int 0 9)) (b (int 0 9)) (c (int 0 9)) (d (int 0 9))) (given (le a b) (le c d)) (holds (le (add a c) (add b d))) (by (have m3 (a b c d))))",
    "(law a-law ((x (int 0 9)) (m (map (int 0 9) (int 0 9))) (y (int 0 9))) (given (not (in x (dom m)))) (holds (submap m (put m x y))) (by (have m4 (x m y))))",
    "(law a-law ((a (int 0 9)) (b (int 0 9)) (c (int -9 9))) (given (le a b) (le 0 c)) (holds (le (mul a c) (mul b c))) (by (have m5 (a b c))))",
    "(law a-law ((s (set (int 0 9))) (t (set (int 0 9))) (u (set (int 0 9)))) (given (subset s t) (subset t u)) (holds (subset s u)) (by (have m6 (s t u))))",
    "(law a-law ((s (set (int 0 9))) (t (set (int 0 9))) (x (int 0 9))) (given (subset s t) (in x s)) (holds (in x t)) (by (have m7 (s t x))))",
    "(law a-law ((s (set (int 0 9))) (x (int 0 9))) (given (not (eq s (set)))) (holds (in (least s x) s)) (by (have m9 (s x))))",
    "(law a-law ((s (set (int 0 9))) (t (set (int 0 9)))) (given (subset s t)) (holds (le (card s) (card t))) (by (have m10 (s t))))",
    "(law a-law ((s (set (int -9 9))) (t (set (int -9 9)))) (given (subset s t) (le 0 (least t 0))) (holds (le (sum s) (sum t))) (by (have m11 (s t))))",
    "(law a-law ((s (set (int 0 9))) (t (set (int 0 9))) (x (int 0 9))) (given (eq (inter s t) (set)) (in x t)) (holds (not (in x s))) (by (have m12 (s t x))))",
    "(law a-law ((a (int 0 9)) (b (int 0 9)) (c (int 0 9)) (d (int 0 9))) (given (le a b) (le c d)) (holds (subset (range b c) (range a d))) (by (have m13 (a b c d))))",
    "(law a-law ((a (int 0 9)) (s (set (int 0 9)))) (given (in a s)) (holds (le (least s a) a)) (by (have m14 (a s))))",
    "(law a-law ((v (seq (int 0 9) 3)) (w (seq (int 0 9) 3))) (given (prefix v w)) (holds (le (len v) (len w))) (by (have m15 (v w))))",
    "(law a-law ((v (seq (int 0 9) 3)) (w (seq (int 0 9) 3))) (given (prefix v w)) (holds (subset (items v) (items w))) (by (have m16 (v w))))",
    "(law a-law ((v (seq (int -9 9) 3)) (w (seq (int -9 9) 3))) (given (prefix v w) (le 0 (least (items w) 0))) (holds (le (total v) (total w))) (by (have m18 (v w))))",
    "(law a-law ((m (map (int 0 9) (int 0 9))) (k (map (int 0 9) (int 0 9)))) (given (submap m k)) (holds (subset (dom m) (dom k))) (by (have m19 (m k))))",
    "(law a-law ((m (map (int 0 9) (int 0 9))) (k (map (int 0 9) (set (int 0 9)))) (x (int 0 9)) (y (int 0 9))) (given (fits m k) (in x (dom k))) (holds (in (get m x y) (get k x (set)))) (by (have m20 (m k x y))))",
];

#[test]
fn takes_rules_with_all_conditions(rt: HostRuntime) {
    takes(&rt, rt.alloc(), 3, 3, &WITH_ALL_CONDITIONS);
}

/// Where a condition fails, as at the empty set, a number below 0 or a sequence that is too short; and what operators give where there is nothing to give.
const CORNERS: [&str; 32] = [
    "(law a-law () (given) (equal (sum (with 1 (set 1))) (add (sum (set 1)) 1)) (by (have m1 ((sum (with 1 (set 1))))) (copy 2 (at (1) e40))))",
    "(law a-law () (given) (equal (card (with 1 (set 1))) (add (card (set 1)) 1)) (by (have m1 ((card (with 1 (set 1))))) (copy 2 (at (1) e41))))",
    "(law a-law () (given) (equal (at (seq 5) 1 0) (at (seq) 1 0)) (by (have m1 ((at (seq 5) 1 0))) (copy 2 (at (1) (e45 (seq))))))",
    "(law a-law () (given) (equal (get (put (map) 1 2) 1 0) (get (map) 1 0)) (by (have m1 ((get (put (map) 1 2) 1 0))) (copy 2 (at (1) (e48 (map))))))",
    "(law a-law () (given) (holds (le 2 1)) (by (have m2 (2 1 1))))",
    "(law a-law () (given) (holds (le (add 1 0) (add 0 0))) (by (have m3 (1 0 0 0))))",
    "(law a-law () (given) (holds (submap (put (map) 1 2) (put (put (map) 1 2) 1 3))) (by (have m4 (1 (put (map) 1 2) 3))))",
    "(law a-law () (given) (holds (le (mul 0 -1) (mul 1 -1))) (by (have m5 (0 1 -1))))",
    "(law a-law () (given) (holds (subset (set 1) (set))) (by (have m6 ((set 1) (set) (set)))))",
    "(law a-law () (given) (holds (in 1 (set))) (by (have m7 ((set 1) (set) 1))))",
    "(law a-law () (given) (holds (in (least (set) 0) (set))) (by (have m9 ((set) 0))))",
    "(law a-law () (given) (holds (le (card (set 1)) (card (set)))) (by (have m10 ((set 1) (set)))))",
    "(law a-law () (given) (holds (le (sum (set)) (sum (set -1)))) (by (have m11 ((set) (set -1)))))",
    "(law a-law () (given) (holds (not (in 1 (set 1)))) (by (have m12 ((set 1) (set 1) 1))))",
    "(law a-law () (given) (holds (subset (range 0 0) (range 1 0))) (by (have m13 (1 0 0 0))))",
    "(law a-law () (given) (holds (le (least (set 5) 1) 1)) (by (have m14 (1 (set 5)))))",
    "(law a-law () (given) (holds (le (len (seq 1)) (len (seq)))) (by (have m15 ((seq 1) (seq)))))",
    "(law a-law () (given) (holds (subset (items (seq 1)) (items (seq)))) (by (have m16 ((seq 1) (seq)))))",
    "(law a-law () (given) (holds (le (total (seq)) (total (seq -1)))) (by (have m18 ((seq) (seq -1)))))",
    "(law a-law () (given) (holds (subset (dom (put (map) 1 2)) (dom (map)))) (by (have m19 ((put (map) 1 2) (map)))))",
    "(law a-law () (given) (holds (in (get (put (map) 2 2) 1 0) (get (put (map) 1 (set 2)) 1 (set)))) (by (have m20 ((put (map) 2 2) (put (map) 1 (set 2)) 1 0))))",
    "(law a-law () (given) (equal (div 5 0) 5) (by (have m1 ((div 5 0))) (copy 2 (at (1) compute))))",
    "(law a-law () (given) (equal (mod 5 0) 5) (by (have m1 ((mod 5 0))) (copy 2 (at (1) compute))))",
    "(law a-law ((a (int 0 9))) (given) (equal (div a a) 1) (by (have m1 (1)) (copy 2 (back (0) compute))))",
    "(law a-law ((a (int 0 9))) (given) (equal (mul a (div 9 a)) 9) (by (have m1 ((mul a (div 9 a)))) (copy 2 (at (1) e21))))",
    "(law a-law () (given) (equal (get (put (map) 1 2) 3 0) 2) (by (have m1 ((get (put (map) 1 2) 3 0))) (copy 2 (at (1) e20))))",
    "(law a-law ((m (map (int 0 9) (int 0 9))) (x (int 0 9)) (y (int 0 9)) (w (int 0 9))) (given) (equal (get (put m x y) w 0) y) (by (have m1 ((get (put m x y) w 0))) (copy 2 (at (1) e20))))",
    "(law a-law () (given) (equal (at (snoc (seq 1) 2) (add (len (seq 1)) 2) 0) 2) (by (have m1 ((at (snoc (seq 1) 2) (add (len (seq 1)) 2) 0))) (copy 2 (at (1) e46))))",
    "(law a-law () (given) (equal (at (seq 4) 2 9) 4) (by (have m1 ((at (seq 4) 2 9))) (copy 2 (at (1) compute))))",
    "(law a-law () (given) (holds (in (least (set) 3) (set 4))) (by))",
    "(law a-law () (given) (holds (not (subset (set) (set)))) (by))",
    "(law a-law () (given) (holds (in 2 (range 3 1))) (by))",
];

#[test]
fn refuses_laws_in_corners(rt: HostRuntime) {
    refuses_proofs(&rt, rt.alloc(), 3, 3, 4, &CORNERS);
}

/// Values beside those.
const BESIDE_CORNERS: [&str; 25] = [
    "(law a-law () (given) (equal (sum (with 2 (set 1))) (add (sum (set 1)) 2)) (by (have m1 ((sum (with 2 (set 1))))) (copy 2 (at (1) e40))))",
    "(law a-law () (given) (equal (card (with 2 (set 1))) (add (card (set 1)) 1)) (by (have m1 ((card (with 2 (set 1))))) (copy 2 (at (1) e41))))",
    "(law a-law () (given) (equal (at (seq 5) 1 0) (at (seq 5) 1 0)) (by (have m1 ((at (seq 5) 1 0))) (copy 2 (at (1) (e45 (seq 5))))))",
    "(law a-law () (given) (equal (get (put (map) 1 2) 1 0) (get (put (map) 1 2) 1 0)) (by (have m1 ((get (put (map) 1 2) 1 0))) (copy 2 (at (1) (e48 (put (map) 1 2))))))",
    "(law a-law () (given) (holds (le 2 3)) (by (have m2 (2 2 3))))",
    "(law a-law () (given) (holds (le (add 0 0) (add 0 0))) (by (have m3 (0 0 0 0))))",
    "(law a-law () (given) (holds (submap (put (map) 1 2) (put (put (map) 1 2) 2 3))) (by (have m4 (2 (put (map) 1 2) 3))))",
    "(law a-law () (given) (holds (le (mul 0 1) (mul 1 1))) (by (have m5 (0 1 1))))",
    "(law a-law () (given) (holds (subset (set 1) (set 1 2))) (by (have m6 ((set 1) (set 1 2) (set 1 2)))))",
    "(law a-law () (given) (holds (in 1 (set 1 2))) (by (have m7 ((set 1) (set 1 2) 1))))",
    "(law a-law () (given) (holds (in (least (set 3) 0) (set 3))) (by (have m9 ((set 3) 0))))",
    "(law a-law () (given) (holds (le (card (set 1)) (card (set 1 2)))) (by (have m10 ((set 1) (set 1 2)))))",
    "(law a-law () (given) (holds (le (sum (set)) (sum (set 1)))) (by (have m11 ((set) (set 1)))))",
    "(law a-law () (given) (holds (not (in 1 (set 2)))) (by (have m12 ((set 2) (set 1) 1))))",
    "(law a-law () (given) (holds (subset (range 1 0) (range 1 0))) (by (have m13 (1 1 0 0))))",
    "(law a-law () (given) (holds (le (least (set 5) 5) 5)) (by (have m14 (5 (set 5)))))",
    "(law a-law () (given) (holds (le (len (seq 1)) (len (seq 1 2)))) (by (have m15 ((seq 1) (seq 1 2)))))",
    "(law a-law () (given) (holds (subset (items (seq 1)) (items (seq 1 2)))) (by (have m16 ((seq 1) (seq 1 2)))))",
    "(law a-law () (given) (holds (le (total (seq)) (total (seq 1)))) (by (have m18 ((seq) (seq 1)))))",
    "(law a-law () (given) (holds (subset (dom (put (map) 1 2)) (dom (put (map) 1 2)))) (by (have m19 ((put (map) 1 2) (put (map) 1 2)))))",
    "(law a-law () (given) (holds (in (get (put (map) 1 2) 1 0) (get (put (map) 1 (set 2)) 1 (set)))) (by (have m20 ((put (map) 1 2) (put (map) 1 (set 2)) 1 0))))",
    "(law a-law () (given) (equal (div 5 0) 0) (by (have m1 ((div 5 0))) (copy 2 (at (1) compute))))",
    "(law a-law () (given) (equal (mod 5 0) 0) (by (have m1 ((mod 5 0))) (copy 2 (at (1) compute))))",
    "(law a-law () (given) (equal (get (put (map) 1 2) 1 0) 2) (by (have m1 ((get (put (map) 1 2) 1 0))) (copy 2 (at (1) e20))))",
    "(law a-law () (given) (equal (at (snoc (seq 1) 2) (add (len (seq 1)) 1) 0) 2) (by (have m1 ((at (snoc (seq 1) 2) (add (len (seq 1)) 1) 0))) (copy 2 (at (1) e46))))",
];

#[test]
fn takes_laws_beside_corners(rt: HostRuntime) {
    takes(&rt, rt.alloc(), 3, 3, &BESIDE_CORNERS);
}
