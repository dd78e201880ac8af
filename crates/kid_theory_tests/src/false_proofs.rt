//! Proofs of false laws: by rules that do not fit, facts that say less, what is assumed elsewhere, and laws that may not be used.
use crate::over::{refuses_proofs, takes};

/// Rules that do not fit the term, from the other side or of another kind, and such as there are none.
const RULES: [&str; 26] = [
    "(law a-law ((p bool) (q bool)) (given) (equal (and p q) p) (by (have m1 ((and p q))) (copy 2 (at (1) e3))))",
    "(law a-law ((a (int 0 9)) (b (int 0 9))) (given) (equal (eq a b) true) (by (have m1 ((eq a b))) (copy 2 (at (1) e12))))",
    "(law a-law ((a (int 0 9)) (b (int 0 9))) (given) (equal (add a (neg b)) 0) (by (have m1 ((add a (neg b)))) (copy 2 (at (1) e18))))",
    "(law a-law ((a (int 0 9)) (b (int 0 9)) (c (int 0 9)) (d (int 0 9))) (given) (equal (le (add a c) (add b d)) (le a b)) (by (have m1 ((le (add a c) (add b d)))) (copy 2 (at (1) e24))))",
    "(law a-law ((a (int 0 9)) (b (int 0 9)) (c (int 0 9)) (d (int 0 9))) (given) (equal (add (mul a b) (mul d c)) (mul a (add b c))) (by (have m1 ((add (mul a b) (mul d c)))) (copy 2 (back (1) e22))))",
    "(law a-law ((p bool) (q bool)) (given) (equal q (and p false)) (by (have m1 (q)) (copy 2 (back (1) (e5 p)))))",
    "(law a-law ((p bool) (q bool)) (given) (equal (and p false) q) (by (have m1 ((and p false))) (copy 2 (at (1) (e5 q)))))",
    "(law a-law ((a (int 0 9)) (b (int 0 9))) (given) (equal (sub a b) (sub b a)) (by (have m1 ((sub a b))) (copy 2 (at (1) e14))))",
    "(law a-law ((a (int 0 9)) (b (int 0 9))) (given) (equal (lt a b) (not (le a b))) (by (have m1 ((lt a b))) (copy 2 (at (1) e23))))",
    "(law a-law ((a (int 0 9)) (b (int 0 9))) (given) (equal (max a b) (if (le a b) a b)) (by (have m1 ((max a b))) (copy 2 (at (1) e26))))",
    "(law a-law ((s (set (int 0 9)))) (given) (equal (diff s (set)) (diff (set) s)) (by (have m1 ((diff s (set)))) (copy 2 (at (1) e31))))",
    "(law a-law ((p bool)) (given) (holds p) (by (have m1 (p)) (copy 2 (at (1) e0))))",
    "(law a-law ((p bool)) (given) (holds p) (by (have m1 (p)) (copy 2 (at (1) e49))))",
    "(law a-law ((p bool)) (given) (holds p) (by (have m1 (p)) (copy 2 (at (1) m8))))",
    "(law a-law ((p bool)) (given) (holds p) (by (have m1 (p)) (copy 2 (at (1) b0))))",
    "(law a-law ((p bool)) (given) (holds p) (by (have m1 (p)) (copy 2 (at (1) b19))))",
    "(law a-law ((p bool)) (given) (holds p) (by (have m0 (p))))",
    "(law a-law ((p bool)) (given) (holds p) (by (have m21 (p))))",
    "(law a-law ((p bool)) (given) (holds p) (by (have e12 (p))))",
    "(law a-law ((p bool)) (given) (holds p) (by (have b2 (p))))",
    "(law a-law ((p bool)) (given) (holds p) (by (have compute (p))))",
    "(law a-law ((p bool)) (given) (holds p) (by (have holds (p))))",
    "(law a-law ((p bool)) (given) (holds p) (by (have unfold (p))))",
    "(law a-law ((p bool)) (given) (holds p) (by (have uncast (p))))",
    "(law a-law ((p bool)) (given) (holds p) (by (have m1 (p p))))",
    "(law a-law ((p bool)) (given) (holds p) (by (have m1 ())))",
];

#[test]
fn refuses_rules_that_do_not_fit(rt: HostRuntime) {
    refuses_proofs(&rt, rt.alloc(), 3, 3, 4, &RULES);
}

/// Facts that are no `and`, are not there, or say less.
const FACTS: [&str; 22] = [
    "(law a-law ((p bool) (q bool)) (given (or p q)) (holds p) (by (left 2)))",
    "(law a-law ((p bool) (q bool)) (given (implies p q)) (holds q) (by (right 2)))",
    "(law a-law ((p bool) (q bool)) (given (if p q p)) (holds q) (by (left 2)))",
    "(law a-law ((p bool) (q bool)) (given p) (holds (and p q)) (by (join 2 3)))",
    "(law a-law ((p bool) (q bool)) (given p) (holds q) (by (again 0)))",
    "(law a-law ((p bool) (q bool)) (given p) (holds q) (by (again 3)))",
    "(law a-law ((p bool) (q bool)) (given p) (holds (and p q)) (by))",
    "(law a-law ((p bool) (q bool)) (given (or p q)) (holds (and p q)) (by))",
    "(law a-law ((p bool) (q bool)) (given (not p)) (holds p) (by))",
    "(law a-law ((p bool) (q bool)) (given (not (and p q))) (holds (not p)) (by))",
    "(law a-law ((a (int 0 9)) (b (int 0 9))) (given (eq a b)) (holds (eq a 1)) (by (copy 2 (at (1) (use 3)))))",
    "(law a-law ((p bool) (q bool)) (given (eq p q)) (holds p) (by (copy 2 (at () (use 2)))))",
    "(law a-law ((p bool) (q bool)) (given (eq p q)) (holds q) (by (copy 2 (at (0) (use 2)))))",
    "(law a-law ((p bool) (q bool)) (given p) (holds q) (by (copy 2 (back () (use 2)))))",
    "(law a-law ((p bool) (q bool)) (given p) (holds q) (by (have m1 (true)) (copy 3 (back (1) (use 2)))))",
    "(law a-law ((a (int 0 9)) (b (int 0 9))) (given (le a b)) (holds (le b a)) (by (copy 2 (at () e13))))",
    "(law a-law () (given) (holds false) (by))",
    "(law a-law () (given) (holds (eq (set 1) (set 2))) (by))",
    "(law a-law () (given) (holds (le 1 0)) (by))",
    "(law a-law () (given) (holds (not true)) (by))",
    "(law a-law () (given) (holds (le 2 n)) (by))",
    "(law a-law () (given) (holds (le n 99)) (by))",
];

#[test]
fn refuses_facts_that_say_less(rt: HostRuntime) {
    refuses_proofs(&rt, rt.alloc(), 3, 3, 4, &FACTS);
}

/// What may be assumed at another place alone.
const PLACES: [&str; 11] = [
    "(law a-law ((p bool) (q bool)) (given) (equal (and p p) (and true p)) (by (have m1 ((and p p))) (copy 2 (at (1 0) holds))))",
    "(law a-law ((p bool) (q bool)) (given) (equal (or p p) (or p true)) (by (have m1 ((or p p))) (copy 2 (at (1 1) holds))))",
    "(law a-law ((p bool) (q bool)) (given) (equal (or p p) (or p false)) (by (have m1 ((or p p))) (copy 2 (at (1 1) fails))))",
    "(law a-law ((p bool) (q bool)) (given) (equal (implies p p) (implies true p)) (by (have m1 ((implies p p))) (copy 2 (at (1 0) holds))))",
    "(law a-law ((p bool) (q bool)) (given) (equal (implies p q) (implies p true)) (by (have m1 ((implies p q))) (copy 2 (at (1 1) holds))))",
    "(law a-law ((p bool) (q bool)) (given) (equal (if p q p) (if p q true)) (by (have m1 ((if p q p))) (copy 2 (at (1 2) holds))))",
    "(law a-law ((p bool) (q bool)) (given) (equal (if p p q) (if p false q)) (by (have m1 ((if p p q))) (copy 2 (at (1 1) fails))))",
    "(law a-law ((p bool) (q bool)) (given) (equal (if p q q) (if true q q)) (by (have m1 ((if p q q))) (copy 2 (at (1 0) holds))))",
    "(law a-law ((p bool) (q bool)) (given) (equal (eq p p) (eq p true)) (by (have m1 ((eq p p))) (copy 2 (at (1 1) holds))))",
    "(law a-law ((p bool) (q bool)) (given) (holds p) (by (have m1 (p)) (copy 2 (at (0) holds))))",
    "(law a-law ((p bool) (q bool)) (given) (equal (and p q) p) (by (have m1 ((and p q))) (copy 2 (at (1 2) holds))))",
];

#[test]
fn refuses_what_is_assumed_elsewhere(rt: HostRuntime) {
    refuses_proofs(&rt, rt.alloc(), 3, 3, 4, &PLACES);
}

/// Bounds that overlap by one, and casts that change a value.
const BOUNDS: [&str; 14] = [
    "(law a-law ((a (int 0 9)) (b (int 9 20))) (given) (holds (lt a b)) (by))",
    "(law a-law ((a (int 0 9)) (b (int 8 20))) (given) (holds (le a b)) (by))",
    "(law a-law ((a (int 0 9)) (b (int 9 20))) (given) (holds (not (le b a))) (by))",
    "(law a-law ((a (int 0 9)) (b (int 9 20))) (given) (holds (not (le a b))) (by))",
    "(law a-law ((a (int 0 9)) (b (int 10 20))) (given) (holds (not (lt a b))) (by))",
    "(law a-law ((a (int 0 9)) (b (int 9 20))) (given) (equal (le b a) false) (by (have m1 ((le b a))) (copy 2 (at (1) fails))))",
    "(law a-law ((a (int 0 20))) (given) (equal (cast (int 0 9) a) a) (by (have m1 ((cast (int 0 9) a))) (copy 2 (at (1) uncast))))",
    "(law a-law ((a (int 0 20))) (given (le a 10)) (equal (cast (int 0 9) a) a) (by (have m1 ((cast (int 0 9) a))) (copy 3 (at (1) uncast))))",
    "(law a-law ((a (int -1 9))) (given (le a 9)) (equal (cast (int 0 9) a) a) (by (have m1 ((cast (int 0 9) a))) (copy 3 (at (1) uncast))))",
    "(law a-law ((v (seq (int 0 9) 3))) (given) (equal (cast (seq (int 0 9) 2) v) v) (by (have m1 ((cast (seq (int 0 9) 2) v))) (copy 2 (at (1) uncast))))",
    "(law a-law ((v (seq (int 0 9) 3))) (given (le (len v) 2)) (equal (cast (seq (int 0 8) 2) v) v) (by (have m1 ((cast (seq (int 0 8) 2) v))) (copy 3 (at (1) uncast))))",
    "(law a-law ((s (set (int 0 9)))) (given) (equal (cast (set (int 0 8)) s) s) (by (have m1 ((cast (set (int 0 8)) s))) (copy 2 (at (1) uncast))))",
    "(law a-law ((m (map (int 0 9) bool))) (given) (equal (cast (map (int 0 8) bool) m) m) (by (have m1 ((cast (map (int 0 8) bool) m))) (copy 2 (at (1) uncast))))",
    "(law a-law ((p bool)) (given) (equal (cast bool 7) p) (by (have m1 ((cast bool 7))) (copy 2 (at (1) uncast))))",
];

#[test]
fn refuses_bounds_that_overlap(rt: HostRuntime) {
    refuses_proofs(&rt, rt.alloc(), 3, 3, 4, &BOUNDS);
}

/// Laws by themselves, by later ones and by each other.
const LATER: [&str; 7] = [
    "(law a-law () (given) (holds false) (by (have a-law ())))",
    "(law a-law () (given) (equal true false) (by (have m1 (true)) (copy 2 (at (1) a-law))))",
    "(law a-law () (given) (equal true false) (by (have m1 (false)) (copy 2 (back (0) a-law))))",
    "(law a-law () (given) (holds false) (by (have b-law ()))) (law b-law () (given) (holds false) (by (have a-law ())))",
    "(law a-law () (given) (holds false) (by (have b-law ()))) (axiom b-law () (given) (holds false))",
    "(law a-law () (given) (equal 1 2) (by (have m1 (1)) (copy 2 (at (1) b-law)))) (axiom b-law () (given) (equal 1 2))",
    "(law a-law () (given) (holds false) (by)) (law b-law () (given) (holds false) (by (have a-law ())))",
];

#[test]
fn refuses_laws_by_later_ones(rt: HostRuntime) {
    refuses_proofs(&rt, rt.alloc(), 3, 3, 4, &LATER);
}

/// Laws by one before them, beyond the sorts of its variables, without its condition, or as one of another kind.
const EARLIER: [&str; 9] = [
    "(axiom b-law () (given) (equal true true)) (law a-law () (given) (holds false) (by (have b-law ())))",
    "(axiom b-law () (given) (holds true)) (law a-law () (given) (equal true false) (by (have m1 (true)) (copy 2 (at (1) b-law))))",
    "(law b-law ((a (int 0 5))) (given) (holds (le a 5)) (by)) (law a-law ((c (int 0 6))) (given) (holds (le c 5)) (by (have b-law (c))))",
    "(law b-law ((a (int 0 5))) (given) (holds (le a 5)) (by)) (law a-law () (given) (holds (le 6 5)) (by (have b-law (6))))",
    "(law b-law ((a (int 0 20)) (c (int 0 20))) (given (le a 9)) (equal (cast (int 0 9) a) a) (by (have m1 ((cast (int 0 9) a))) (copy 3 (at (1) uncast)))) (law a-law ((d (int 0 20))) (given) (equal (cast (int 0 9) d) d) (by (have m1 ((cast (int 0 9) d))) (copy 2 (at (1) (b-law 0)))))",
    "(law b-law ((a (int 0 20)) (c (int 0 20))) (given (le a 9)) (equal (cast (int 0 9) a) a) (by (have m1 ((cast (int 0 9) a))) (copy 3 (at (1) uncast)))) (law a-law ((d (int 0 20))) (given (le d 9)) (equal (cast (int 0 9) d) d) (by (have m1 ((cast (int 0 9) d))) (copy 3 (at (1) (b-law d d)))))",
    "(law b-law ((a (int 0 20)) (c (int 0 20))) (given (le a 9)) (equal (cast (int 0 9) a) a) (by (have m1 ((cast (int 0 9) a))) (copy 3 (at (1) uncast)))) (law a-law ((d (int 0 21))) (given (le d 9)) (equal (cast (int 0 9) d) d) (by (have m1 ((cast (int 0 9) d))) (copy 3 (at (1) (b-law 0)))))",
    "(axiom b-law ((p bool)) (given p) (holds p)) (law a-law ((q bool)) (given) (holds q) (by (have b-law (q))))",
    "(axiom b-law ((p bool)) (given (not p)) (holds (le n 5))) (law a-law () (given) (holds (le n 5)) (by (have b-law (true))))",
];

#[test]
fn refuses_laws_by_earlier_ones(rt: HostRuntime) {
    refuses_proofs(&rt, rt.alloc(), 3, 3, 5, &EARLIER);
}

/// True laws beside those.
const BESIDE: [&str; 14] = [
    "(law a-law ((a (int 0 9))) (given) (equal (add a (neg a)) 0) (by (have m1 ((add a (neg a)))) (copy 2 (at (1) e18))))",
    "(law a-law ((p bool) (q bool)) (given (and p q)) (holds q) (by (right 2)))",
    "(law a-law () (given) (holds (le n 100)) (by))",
    "(law a-law () (given) (holds (le 1 n)) (by))",
    "(law a-law ((p bool) (q bool)) (given) (equal (and p p) (and p true)) (by (have m1 ((and p p))) (copy 2 (at (1 1) holds))))",
    "(law a-law ((p bool) (q bool)) (given) (equal (if p q p) (if p q false)) (by (have m1 ((if p q p))) (copy 2 (at (1 2) fails))))",
    "(law a-law ((a (int 0 9)) (b (int 9 20))) (given) (holds (le a b)) (by))",
    "(law a-law ((a (int 0 8)) (b (int 9 20))) (given) (holds (lt a b)) (by))",
    "(law a-law ((a (int 0 8)) (b (int 9 20))) (given) (holds (not (le b a))) (by))",
    "(law a-law ((a (int 0 20))) (given (le a 9)) (equal (cast (int 0 9) a) a) (by (have m1 ((cast (int 0 9) a))) (copy 3 (at (1) uncast))))",
    "(law a-law ((v (seq (int 0 9) 3))) (given (le (len v) 2)) (equal (cast (seq (int 0 9) 2) v) v) (by (have m1 ((cast (seq (int 0 9) 2) v))) (copy 3 (at (1) uncast))))",
    "(law b-law ((a (int 0 5))) (given) (holds (le a 5)) (by)) (law a-law ((c (int 1 5))) (given) (holds (le c 5)) (by (have b-law (c))))",
    "(law b-law ((a (int 0 20)) (c (int 0 20))) (given (le a 9)) (equal (cast (int 0 9) a) a) (by (have m1 ((cast (int 0 9) a))) (copy 3 (at (1) uncast)))) (law a-law ((d (int 0 20))) (given (le d 9)) (equal (cast (int 0 9) d) d) (by (have m1 ((cast (int 0 9) d))) (copy 3 (at (1) (b-law 0)))))",
    "(axiom b-law ((p bool)) (given (not p)) (holds (le n 5))) (law a-law () (given) (holds (le n 5)) (by (have b-law (false))))",
];

#[test]
fn takes_laws_beside_those(rt: HostRuntime) {
    takes(&rt, rt.alloc(), 3, 3, &BESIDE);
}
