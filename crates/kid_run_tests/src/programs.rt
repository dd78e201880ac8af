//! Programs, and what they put.
use crate::ran::{Ran, run_within};
use std::alloc::Global;
use std::process::Abort;

fn has_put(ran: Option<Ran>, want: &str) -> bool {
    match ran {
        Some(ran) => ran.out.written() == want.as_bytes(),
        None => false,
    }
}

// each program puts this on its inputs
fn put(rt: &impl Abort, alloc: Global, rows: &[(&str, &str, &str)]) {
    for row in rows {
        let (program, inputs, want) = *row;
        assert!(rt;
            has_put(run_within(alloc, program, inputs, 1000), want),
            "at {program}"
        );
    }
}

const CALLS: [(&str, &str, &str); 3] = [
    // for each member
    (
        "(program 1) (input s (set (int 0 9))) (require true) (output z (int 0 9)) \
         (main (for x s (emit x) (call x))) (search ((k (int 0 9))) (emit k))",
        "((set 3 1)) ((set))",
        "1\n1\n3\n3\n(answers 4 splits 2)\n(answers 0 splits 0)\n",
    ),
    // within two loops
    (
        "(program 1) (input s (set (int 0 9))) (require true) (output z (pair (int 0 9) (int 0 9))) \
         (main (for x s (for y s (if (lt x y) (call x y))))) \
         (search ((a (int 0 9)) (c (int 0 9))) (emit (pair a c)))",
        "((set 2 3 1))",
        "(pair 1 2)\n(pair 1 3)\n(pair 2 3)\n(answers 3 splits 3)\n",
    ),
    // and the loop goes on after them
    (
        "(program 1) (input s (set (int 0 9))) (require true) (output z (int 0 9)) \
         (main (for x s (call x s))) (search ((top (int 0 9)) (t (set (int 0 9)))) \
         (emit top) (for x t (if (lt x top) (call x t))))",
        "((set 1 2 3))",
        "1\n2\n1\n3\n1\n2\n1\n(answers 7 splits 7)\n",
    ),
];

#[test]
fn calls_in_loops(rt: HostRuntime) {
    put(&rt, rt.alloc(), &CALLS);
}

const DEFINITIONS: [(&str, &str, &str); 2] = [
    (
        "(program 1) (def odd ((x (int 0 9))) bool (eq (mod x 2) 1)) \
         (def odds ((t (set (int 0 9)))) (set (int 0 9)) (setof x t (odd x))) \
         (input s (set (int 0 9))) (require (le (card (odds s)) 2)) (output z (int 0 10)) \
         (main (for x (odds s) (emit x)) (call (odds s))) \
         (search ((t (set (int 0 9)))) (if (some y t (odd y)) (emit (card t))))",
        "((set 1 2 5 8)) ((set 0 2)) ((set 1 3 5))",
        "1\n5\n2\n(answers 3 splits 1)\n(answers 0 splits 1)\n(outside)\n",
    ),
    // the names of a definition are its own
    (
        "(program 1) (def below ((x (int 0 9)) (y (int 0 9))) bool (lt x y)) \
         (input s (set (int 0 9))) (require true) (output z (pair (int 0 9) (int 0 9))) \
         (main (for x s (for y s (if (below y x) (emit (pair x y)))))) (search ())",
        "((set 1 2 4))",
        "(pair 2 1)\n(pair 4 1)\n(pair 4 2)\n(answers 3 splits 0)\n",
    ),
];

#[test]
fn calls_definitions(rt: HostRuntime) {
    put(&rt, rt.alloc(), &DEFINITIONS);
}

const ORDERS: [(&str, &str, &str); 2] = [
    (
        "(program 1) (input s (set (pair (int 0 9) bool))) (require true) \
         (output z (pair (int 0 9) bool)) (main (for x s (emit x))) (search ())",
        "((set (pair 2 false) (pair 1 true) (pair 1 false)))",
        "(pair 1 false)\n(pair 1 true)\n(pair 2 false)\n(answers 3 splits 0)\n",
    ),
    // of two sets the one without the least number in which they differ is smaller
    (
        "(program 1) (input s (set (set (int 0 3)))) (require true) (output z (set (int 0 3))) \
         (main (for x s (emit x))) (search ())",
        "((set (set 1) (set 2 1) (set 3) (set)))",
        "(set)\n(set 3)\n(set 1)\n(set 1 2)\n(answers 4 splits 0)\n",
    ),
];

#[test]
fn goes_over_members_in_order(rt: HostRuntime) {
    put(&rt, rt.alloc(), &ORDERS);
}

const STATEMENTS: [(&str, &str, &str); 3] = [
    // one that comes last, after an if that holds, one that does not, and a loop that is never done
    (
        "(program 1) (input n (int 0 9)) (require true) (output z (int 0 9)) \
         (main (if (lt n 5) (emit 1)) (if (lt 5 n) (emit 2)) (for x (set) (emit 3)) (emit n)) (search ())",
        "(4) (5) (6)",
        "1\n4\n(answers 2 splits 0)\n5\n(answers 1 splits 0)\n2\n6\n(answers 2 splits 0)\n",
    ),
    // a name that was given within an if is unknown after it, and its own value is there for the next input
    (
        "(program 1) (input n (int 0 9)) (require true) (output z (int 0 9)) \
         (main (if (lt n 5) (let y 7) (emit y)) (let y n) (emit y)) (search ())",
        "(1) (9)",
        "7\n1\n(answers 2 splits 0)\n9\n(answers 1 splits 0)\n",
    ),
    // what stands after a call is done after all that the call does
    (
        "(program 1) (input n (int 0 3)) (require true) (output z (int 0 9)) \
         (main (call n) (emit 9)) (search ((k (int 0 3))) (if (lt 0 k) (call 0) (emit 8)) (emit k))",
        "(2) (0)",
        "0\n8\n2\n9\n(answers 4 splits 2)\n0\n9\n(answers 2 splits 1)\n",
    ),
];

#[test]
fn does_its_statements_in_order(rt: HostRuntime) {
    put(&rt, rt.alloc(), &STATEMENTS);
}

const SIXTEEN: &str =
    "(program 1) (input a bool) (input c (int 0 9)) (input d (pair bool (int 0 9))) \
     (input f (set (int 0 9))) (input g (seq (int 0 9) 3)) (input h (map (int 0 9) bool)) \
     (input i bool) (input j (int -9 9)) (input k (pair (int 0 9) (pair bool bool))) \
     (input l (set (pair (int 0 9) bool))) (input o (seq (set bool) 2)) \
     (input p (map bool (set (int 0 9)))) (input q (set (set (int 0 2)))) \
     (input r (seq bool 2)) (input t (map (pair bool bool) (int 0 9))) (input u (int 5 5)) \
     (require (and i (and (eq j -7) (and (eq k (pair 3 (pair true false))) \
     (and (in (pair 1 true) l) (and (eq (len o) 2) (and (eq (card (dom p)) 2) \
     (and (in (set) q) (and (eq r (seq true false)) (and (eq (card (dom t)) 1) (eq u 5))))))))))) \
     (output z (pair bool (pair (int 0 9) (pair (pair bool (int 0 9)) \
     (pair (set (int 0 9)) (pair (seq (int 0 9) 3) (map (int 0 9) bool))))))) \
     (main (emit (pair a (pair c (pair d (pair f (pair g h))))))) (search ())";

const OF_EVERY_SORT: [(&str, &str, &str); 1] = [(
    SIXTEEN,
    "(true 7 (pair false 4) (set 5 2 5) (seq 9 0) (map (3 true) (1 false)) \
     true -7 (pair 3 (pair true false)) (set (pair 2 false) (pair 1 true)) \
     (seq (set) (set true false)) (map (false (set)) (true (set 4 2))) (set (set) (set 1 0)) \
     (seq true false) (map ((pair true false) 6)) 5) \
     (true 7 (pair false 4) (set 5 2) (seq 9 0) (map (3 true) (1 false)) \
     true -7 (pair 3 (pair true false)) (set (pair 2 false) (pair 1 false)) \
     (seq (set) (set true false)) (map (false (set)) (true (set 4 2))) (set (set) (set 1 0)) \
     (seq true false) (map ((pair true false) 6)) 5)",
    "(pair true (pair 7 (pair (pair false 4) (pair (set 2 5) (pair (seq 9 0) \
     (map (1 false) (3 true)))))))\n(answers 1 splits 0)\n(outside)\n",
)];

#[test]
fn takes_sixteen_inputs_of_every_sort(rt: HostRuntime) {
    put(&rt, rt.alloc(), &OF_EVERY_SORT);
}
