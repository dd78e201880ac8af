//! What a run reports, with more fuel and less, and where a put fails.
use crate::ran::{Ran, Stopped, run_failing, run_within};
use kid_run::{Outcome, RunEntry, RunFault};
use std::alloc::Global;
use std::process::Abort;

// it finds each member of a set and calls with it, and a call finds its argument, and calls with 0 where that is greater
const PROGRAM: &str =
    "(program 1) (input s (set (int 0 2))) (require (some x s true)) (output z (int 0 2)) \
     (main (for x s (let y x) (emit y) (call y))) \
     (search ((k (int 0 2))) (emit k) (if (lt 0 k) (call 0)))";

const INPUTS: &str = "((set)) ((set 1 2))";

const WHOLE: &str = "(outside)\n1\n1\n0\n2\n2\n0\n(answers 6 splits 4)\n";

const OUTSIDE: RunEntry = RunEntry {
    answers: 0,
    splits: 0,
    outcome: Outcome::Outside,
};

// whether these are the entries of the two inputs, and this was put
fn is_run(ran: Option<Ran>, last: RunEntry, want: &str) -> bool {
    match ran {
        Some(ran) => {
            let entries = ran.report.entries.as_slice();
            entries == [OUTSIDE, last].as_slice() && ran.out.written() == want.as_bytes()
        }
        None => false,
    }
}

fn runs(rt: &impl Abort, alloc: Global, rows: &[(u32, &str, u64, u64, Outcome)]) {
    for row in rows {
        let (fuel, want, answers, splits, outcome) = *row;
        let last = RunEntry {
            answers,
            splits,
            outcome,
        };
        assert!(rt;
            is_run(run_within(alloc, PROGRAM, INPUTS, fuel), last, want),
            "at {fuel}"
        );
    }
}

const RUNS: [(u32, &str, u64, u64, Outcome); 6] = [
    (0, "(outside)\n1\n(fuel 0)\n", 1, 0, Outcome::Fuel),
    (1, "(outside)\n1\n1\n(fuel 1)\n", 2, 1, Outcome::Fuel),
    (
        3,
        "(outside)\n1\n1\n0\n2\n2\n(fuel 3)\n",
        5,
        3,
        Outcome::Fuel,
    ),
    (4, WHOLE, 6, 4, Outcome::Done),
    (5, WHOLE, 6, 4, Outcome::Done),
    (4294967295, WHOLE, 6, 4, Outcome::Done),
];

#[test]
fn runs_within_the_fuel(rt: HostRuntime) {
    runs(&rt, rt.alloc(), &RUNS);
}

fn is_stopped(stopped: Option<Stopped>, fault: Option<RunFault>, want: &str) -> bool {
    match stopped {
        Some(stopped) => stopped.fault == fault && stopped.out.written() == want.as_bytes(),
        None => false,
    }
}

fn stops(rt: &impl Abort, alloc: Global, rows: &[(u64, u64, Option<RunFault>, &str)]) {
    for row in rows {
        let (put, kept, fault, want) = *row;
        let found = run_failing(alloc, PROGRAM, INPUTS, put, kept);
        assert!(rt; is_stopped(found, fault, want), "at {put}");
    }
}

// the run puts eight lines
const STOPS: [(u64, u64, Option<RunFault>, &str); 6] = [
    (1, 0, Some(RunFault::PutFailed), ""),
    (1, 4, Some(RunFault::PutFailed), "(out"),
    (2, 0, Some(RunFault::PutFailed), "(outside)\n"),
    (
        7,
        1,
        Some(RunFault::PutFailed),
        "(outside)\n1\n1\n0\n2\n2\n0",
    ),
    (
        8,
        8,
        Some(RunFault::PutFailed),
        "(outside)\n1\n1\n0\n2\n2\n0\n(answers",
    ),
    (9, 0, None, WHOLE),
];

#[test]
fn stops_where_a_put_fails(rt: HostRuntime) {
    stops(&rt, rt.alloc(), &STOPS);
}
