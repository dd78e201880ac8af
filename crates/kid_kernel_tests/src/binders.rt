//! Rules of binders.
use crate::rows::{Kind, hold};

/// Each rule, and terms for which there is no instance or a name would be bound.
const RULES: [&str; 94] = [
    "(s a) () (all x s (lt x a)) (at () (b1 y)) (all y s (lt y a))",
    // setof
    "(s a) () (setof x s (lt x a)) (at () (b1 y)) (setof y s (lt y a))",
    // image
    "(s a) () (image x s (add x a)) (at () (b1 y)) (image y s (add y a))",
    // sumof
    "(s) () (sumof x s (mul x x)) (at () (b1 y)) (sumof y s (mul y y))",
    // some
    "(s a) () (not (some x s (lt x a))) (at (0) (b1 y)) (not (some y s (lt y a)))",
    "(s a) () (all x s (lt x a)) (at () (b1 a)) capture",
    // bound in the body
    "(s t) () (all x s (some y t (lt x y))) (at () (b1 y)) capture",
    // own name
    "(s a) () (all x s (lt x a)) (at () (b1 x)) capture",
    // own name unused
    "(s p) () (all x s p) (at () (b1 x)) (all x s p)",
    // no name
    "(s a) () (all x s (lt x a)) (at () (b1 3)) no-match",
    // no argument
    "(s a) () (all x s (lt x a)) (at () b1) no-match",
    // no binder
    "(s a) () (in a s) (at () (b1 y)) no-match",
    // name in scope
    "(s a b) () (all x s (lt x a)) (at () (b1 b)) ill-sorted",
    // name in the set
    "(s a) () (all x (range 1 a) (le x 2)) (at () (b1 a)) ill-sorted",
    "(s a) () (all x s (lt x a)) (back () (b1 y)) no-match",
    "(a) () (all x (set) (eq x a)) (at () b2) true",
    "(a s) () (all x s (eq x a)) (at () b2) no-match",
    // of some
    "(a) () (some x (set) (eq x a)) (at () b2) no-match",
    "(p) () (and p true) (back (1) b2) no-match",
    "(a) () (some x (set) (eq x a)) (at () b3) false",
    "(a b) () (some x (set b) (eq x a)) (at () b3) no-match",
    "(p) () (and p false) (back (1) b3) no-match",
    "(a b) () (all x (set a) (lt x b)) (at () b4) (lt a b)",
    "(a b c) () (all x (set a c) (lt x b)) (at () b4) no-match",
    // no member
    "(a) () (all x (set) (eq x a)) (at () b4) no-match",
    // twice in the body
    "(a b) () (all x (set (add a 1)) (le (mul x x) b)) (at () b4) (le (mul (add a 1) (add a 1)) b)",
    // below another binder
    "(a s) () (all x (set a) (some y s (lt x y))) (at () b4) (some y s (lt a y))",
    "(a b) () (lt a b) (back () b4) no-match",
    "(a b) () (some x (set a) (lt x b)) (at () b5) (lt a b)",
    "(a b) () (all x (set a) (lt x b)) (at () b5) no-match",
    // no member
    "(a) () (some x (set) (eq x a)) (at () b5) no-match",
    "(a b) () (lt a b) (back () b5) no-match",
    "(s t a) () (all x (union s t) (lt x a)) (at () b6) (and (all x s (lt x a)) (all x t (lt x a)))",
    "(s t a) () (and (all x s (lt x a)) (all x t (lt x a))) (back () b6) (all x (union s t) (lt x a))",
    "(s t a) () (all x (inter s t) (lt x a)) (at () b6) no-match",
    "(s t a b) () (and (all x s (lt x a)) (all x t (lt x b))) (back () b6) no-match",
    // back other names
    "(s t a) () (and (all x s (lt x a)) (all y t (lt y a))) (back () b6) no-match",
    "(s t a) () (some x (union s t) (lt x a)) (at () b7) (or (some x s (lt x a)) (some x t (lt x a)))",
    "(s t a) () (or (some x s (lt x a)) (some x t (lt x a))) (back () b7) (some x (union s t) (lt x a))",
    "(s t a) () (all x (union s t) (lt x a)) (at () b7) no-match",
    "(s t a) () (and (some x s (lt x a)) (some x t (lt x a))) (back () b7) no-match",
    "(s a b) () (all x s (and (lt x a) (lt b x))) (at () b8) (and (all x s (lt x a)) (all x s (lt b x)))",
    "(s a b) () (and (all x s (lt x a)) (all x s (lt b x))) (back () b8) (all x s (and (lt x a) (lt b x)))",
    "(s a b) () (all x s (or (lt x a) (lt b x))) (at () b8) no-match",
    "(s t a b) () (and (all x s (lt x a)) (all x t (lt b x))) (back () b8) no-match",
    // back other names
    "(s a b) () (and (all x s (lt x a)) (all y s (lt b y))) (back () b8) no-match",
    "(s a) () (some x s (lt x a)) (at () b9) (not (all x s (not (lt x a))))",
    "(s a) () (not (all x s (not (lt x a)))) (back () b9) (some x s (lt x a))",
    "(s a) () (all x s (lt x a)) (at () b9) no-match",
    "(s a) () (not (all x s (lt x a))) (back () b9) no-match",
    "(s t) () (all x s (all y t (lt x y))) (at () b10) (all y t (all x s (lt x y)))",
    "(s t) () (all y t (all x s (lt x y))) (back () b10) (all x s (all y t (lt x y)))",
    "(s) () (all x s (all y (range 1 x) (le y x))) (at () b10) capture",
    // other binder
    "(s t) () (all x s (some y t (lt x y))) (at () b10) no-match",
    "(s) () (all x s (all y (range 1 x) (le y x))) (back () b10) ill-sorted",
    // back other binder
    "(s t) () (some y t (all x s (lt x y))) (back () b10) no-match",
    "(s p) () (and p (all x s true)) (at (1) b11) (and p true)",
    "(s p) () (all x s p) (at () b11) no-match",
    // false
    "(s) () (all x s false) (at () b11) no-match",
    "(p) () (and p true) (back (1) b11) no-match",
    "(s t a) ((subset t s)) (all x s (lt x a)) (at () (b12 t)) (and (all x t (lt x a)) (all x s (lt x a)))",
    "(s t a) ((subset t s)) (and (all x t (lt x a)) (all x s (lt x a))) (back () b12) (all x s (lt x a))",
    "(s t a) ((subset s t)) (all x s (lt x a)) (at () (b12 t)) condition-1",
    // no argument
    "(s t a) ((subset t s)) (all x s (lt x a)) (at () b12) no-match",
    // of some
    "(s t a) ((subset t s)) (some x s (lt x a)) (at () (b12 t)) no-match",
    "(s t a) ((subset t s)) (and (all x s (lt x a)) (all x t (lt x a))) (back () b12) condition-1",
    // back argument
    "(s t a) ((subset t s)) (and (all x t (lt x a)) (all x s (lt x a))) (back () (b12 t)) no-match",
    // back other names
    "(s t a) ((subset t s)) (and (all y t (lt y a)) (all x s (lt x a))) (back () b12) no-match",
    "(s a b) () (in a (setof x s (lt x b))) (at () b13) (and (in a s) (lt a b))",
    "(s a) () (in a s) (at () b13) no-match",
    "(s a b) () (and (in a s) (lt a b)) (back () b13) no-match",
    "(s a b) () (all x (setof y s (lt y a)) (lt x b)) (at () b14) (all x s (implies (lt x a) (lt x b)))",
    // one name
    "(s a b) () (all x (setof x s (lt x a)) (lt x b)) (at () b14) (all x s (implies (lt x a) (lt x b)))",
    "(s a) () (all x s (lt x a)) (at () b14) no-match",
    // captured
    "(s t b) () (all x (setof y s (some x t (lt y x))) (lt x b)) (at () b14) capture",
    "(s a b) () (all x s (implies (lt x a) (lt x b))) (back () b14) no-match",
    "() () (add 1 (sumof x (set) 4)) (at (1) b15) (add 1 0)",
    "(s) () (sumof x s 4) (at () b15) no-match",
    "(a) () (le 0 a) (back (0) b15) no-match",
    "(s a) ((not (in a s))) (sumof x (with a s) (mul x 2)) (at () b16) (add (sumof x s (mul x 2)) (mul a 2))",
    "(s a) ((in a s)) (sumof x (with a s) (mul x 2)) (at () b16) condition-1",
    // other shape
    "(s a) ((not (in a s))) (sumof x (union (set a) s) (mul x 2)) (at () b16) no-match",
    "(s a) ((not (in a s))) (add (sumof x s (mul x 2)) (mul a 2)) (back () b16) no-match",
    "(s a) () (in a (image x s (add x 1))) (at () b17) (some x s (eq a (add x 1)))",
    "(s a) () (some x s (eq a (add x 1))) (back () b17) (in a (image x s (add x 1)))",
    "(s a) () (in a s) (at () b17) no-match",
    "(s a) () (some x s (eq (add x 1) a)) (back () b17) capture",
    // back other shape
    "(s a) () (some x s (lt a (add x 1))) (back () b17) no-match",
    "(s a b) ((in b s)) (all x s (lt x a)) (at () (b18 b)) (and (lt b a) (all x s (lt x a)))",
    "(s a b) () (all x s (lt x a)) (at () (b18 b)) condition-1",
    // captured
    "(s t) () (all x s (some y t (lt x y))) (at () (b18 y)) capture",
    // no argument
    "(s a) () (all x s (lt x a)) (at () b18) no-match",
    "(s a b) ((in b s)) (and (lt b a) (all x s (lt x a))) (back () (b18 b)) no-match",
    // assumed below a binder
    "(s) () (all x s (all y s (le y 3))) (at (1) (b18 x)) (all x s (and (le x 3) (all y s (le y 3))))",
];

#[test]
fn rewrites_binders(rt: HostRuntime) {
    hold(&rt, rt.alloc(), Kind::Line, &RULES);
}
