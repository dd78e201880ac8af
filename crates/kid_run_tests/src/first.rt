//! Runs that end with the last value that is wanted.
use crate::ran::{Ran, run_within};
use kid_run::{Outcome, RunEntry};
use std::alloc::Global;
use std::process::Abort;

// a call with d finds it where it is 1 or 3, and calls with the next one up to 4: five calls, of which the second and the fourth find
const ALL: &str =
    "(program 1) (require true) (output z (int 0 9)) (main (call 0)) (search ((d (int 0 9))) \
     (if (eq d 1) (emit d)) (if (eq d 3) (emit d)) (if (lt d 4) (call (cast (int 0 9) (add d 1)))))";

const ONE: &str =
    "(program 1) (require true) (output z (int 0 9)) (first 1) (main (call 0)) (search ((d (int 0 9))) \
     (if (eq d 1) (emit d)) (if (eq d 3) (emit d)) (if (lt d 4) (call (cast (int 0 9) (add d 1)))))";

const TWO: &str =
    "(program 1) (require true) (output z (int 0 9)) (first 2) (main (call 0)) (search ((d (int 0 9))) \
     (if (eq d 1) (emit d)) (if (eq d 3) (emit d)) (if (lt d 4) (call (cast (int 0 9) (add d 1)))))";

const THREE: &str =
    "(program 1) (require true) (output z (int 0 9)) (first 3) (main (call 0)) (search ((d (int 0 9))) \
     (if (eq d 1) (emit d)) (if (eq d 3) (emit d)) (if (lt d 4) (call (cast (int 0 9) (add d 1)))))";

// what main finds needs no call, and the members after the second are not come to
const LOOP: &str =
    "(program 1) (require true) (output z (int 0 9)) (first 2) (main (for x (set 5 6 7) (emit x)) (call 0)) \
     (search ((d (int 0 9))) (emit d))";

fn is_run(ran: Option<Ran>, entry: RunEntry, want: &str) -> bool {
    match ran {
        Some(ran) => {
            let entries = ran.report.entries.as_slice();
            entries == [entry].as_slice() && ran.out.written() == want.as_bytes()
        }
        None => false,
    }
}

// each program puts this with so much fuel
fn runs(rt: &impl Abort, alloc: Global, rows: &[(&str, u32, &str, u64, u64, Outcome)]) {
    for row in rows {
        let (program, fuel, want, answers, splits, outcome) = *row;
        let entry = RunEntry {
            answers,
            splits,
            outcome,
        };
        assert!(rt;
            is_run(run_within(alloc, program, "()", fuel), entry, want),
            "at {program} {fuel}"
        );
    }
}

const ENOUGH: [(&str, u32, &str, u64, u64, Outcome); 6] = [
    (ALL, 5, "1\n3\n(answers 2 splits 5)\n", 2, 5, Outcome::Done),
    (ONE, 1000, "1\n(answers 1 splits 2)\n", 1, 2, Outcome::Done),
    (ONE, 2, "1\n(answers 1 splits 2)\n", 1, 2, Outcome::Done),
    (TWO, 4, "1\n3\n(answers 2 splits 4)\n", 2, 4, Outcome::Done),
    (
        THREE,
        5,
        "1\n3\n(answers 2 splits 5)\n",
        2,
        5,
        Outcome::Done,
    ),
    (LOOP, 0, "5\n6\n(answers 2 splits 0)\n", 2, 0, Outcome::Done),
];

#[test]
fn ends_with_the_last_that_is_wanted(rt: HostRuntime) {
    runs(&rt, rt.alloc(), &ENOUGH);
}

const SHORT: [(&str, u32, &str, u64, u64, Outcome); 4] = [
    (ALL, 4, "1\n3\n(fuel 4)\n", 2, 4, Outcome::Fuel),
    (ONE, 1, "(fuel 1)\n", 0, 1, Outcome::Fuel),
    (TWO, 3, "1\n(fuel 3)\n", 1, 3, Outcome::Fuel),
    (THREE, 4, "1\n3\n(fuel 4)\n", 2, 4, Outcome::Fuel),
];

#[test]
fn stops_one_call_before_it(rt: HostRuntime) {
    runs(&rt, rt.alloc(), &SHORT);
}
