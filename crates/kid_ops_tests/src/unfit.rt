//! Arguments at which no term has a sort: of another kind than the operator takes, and numbers beyond the limits. The values at
//! terms that have a sort stand in docs/CASES.md.
use crate::built::smalls;
use crate::calls::{Op, gives};
use kid_value::LIMIT;
use std::alloc::Global;
use std::process::Abort;

const MOST: i64 = 9223372036854775807;

/// An operator, the letters of the values that it takes, and then that of the one that it gives.
type Case = (Op, &'static str);

fn each(rt: &impl Abort, alloc: Global, cases: &[Case]) {
    for case in cases {
        let (op, letters) = *case;
        assert!(rt; gives(alloc, op, &smalls(alloc, letters)), "at {letters}");
    }
}

const TRUTHS: [Case; 4] = [
    (Op::Choose(false), "1jj"),
    (Op::Eq, "2FF"),
    (Op::Eq, "0FF"),
    (Op::Eq, "eqF"),
];

#[test]
fn takes_other_kinds_for_truths_and_equality(rt: HostRuntime) {
    each(&rt, rt.alloc(), &TRUTHS);
}

const NUMBERS: [Case; 5] = [
    (Op::Le, "mMT"),
    (Op::Lt, "mMT"),
    (Op::Min, "mMm"),
    (Op::Max, "mMM"),
    (Op::Mod, "m-0"),
];

#[test]
fn takes_numbers_beyond_the_limits(rt: HostRuntime) {
    each(&rt, rt.alloc(), &NUMBERS);
}

const PAIRS: [Case; 4] = [
    (Op::Fst, "1F"),
    (Op::Snd, "TF"),
    (Op::Fst, "wF"),
    (Op::Snd, "rF"),
];

#[test]
fn takes_no_pairs_apart(rt: HostRuntime) {
    each(&rt, rt.alloc(), &PAIRS);
}

const SETS: [Case; 14] = [
    (Op::Range, "nMf"),
    (Op::Range, "Mme"),
    (Op::Union, "7sF"),
    (Op::Union, "s7F"),
    (Op::Inter, "suF"),
    (Op::Diff, "usF"),
    (Op::Subset, "7sF"),
    (Op::Subset, "s7F"),
    (Op::With, "22F"),
    (Op::Without, "33F"),
    (Op::Least, "99F"),
    (Op::Member, "77F"),
    (Op::Member, "FsF"),
    (Op::Without, "Ftt"),
];

#[test]
fn takes_other_kinds_for_sets(rt: HostRuntime) {
    each(&rt, rt.alloc(), &SETS);
}

const SEQUENCES: [Case; 10] = [
    (Op::Rest(MOST), "pq"),
    (Op::Rest(-MOST - 1), "pp"),
    (Op::Rest(0), "4F"),
    (Op::Items, "kF"),
    (Op::At(MOST), "p99"),
    (Op::At(-MOST - 1), "p99"),
    (Op::At(1), "49F"),
    (Op::Snoc, "99F"),
    (Op::Prefix, "4pF"),
    (Op::Prefix, "o4F"),
];

#[test]
fn takes_other_kinds_for_sequences(rt: HostRuntime) {
    each(&rt, rt.alloc(), &SEQUENCES);
}

const MAPS: [Case; 18] = [
    (Op::Dom, "tF"),
    (Op::Ran, "1F"),
    (Op::Get, "339F"),
    (Op::Put, "339F"),
    (Op::Drop, "33F"),
    (Op::Fill, "y9F"),
    (Op::Submap, "1cF"),
    (Op::Submap, "ctF"),
    (Op::Fits, "CdT"),
    (Op::Fits, "ddT"),
    (Op::Fits, "CCF"),
    (Op::Fits, "1GF"),
    (Op::Fits, "C1F"),
    (Op::Narrow, "GdG"),
    (Op::Narrow, "dGd"),
    (Op::Narrow, "ddd"),
    (Op::Narrow, "1GF"),
    (Op::Narrow, "G1F"),
];

#[test]
fn takes_other_kinds_for_maps(rt: HostRuntime) {
    each(&rt, rt.alloc(), &MAPS);
}

const WORDS: [Case; 33] = [
    (Op::Wor, "l01"),
    (Op::Wand, "l00"),
    (Op::Wnot, "l01"),
    (Op::Wor, "0l1"),
    (Op::Wand, "0l0"),
    (Op::Wnot, "0l0"),
    (Op::Wor, "ll1"),
    (Op::Wand, "ll1"),
    (Op::Wnot, "ll0"),
    (Op::Wor, "-55"),
    (Op::Wand, "-50"),
    (Op::Wnot, "-50"),
    (Op::Wor, "5-5"),
    (Op::Wand, "5-0"),
    (Op::Wnot, "5-5"),
    (Op::Wcard, "L0"),
    (Op::Wcard, "l1"),
    (Op::Wcard, "Mx"),
    (Op::Wcard, "-0"),
    (Op::Win(0, 0), "-F"),
    (Op::Win(-MOST - 1, MOST), "AF"),
    (Op::Wleast(1, -9), "LN"),
    (Op::Wleast(1, -9), "-N"),
    (Op::Wleast(0, MOST), "0M"),
    (Op::Wleast(LIMIT, 0), "Bb"),
    (Op::Wenc(1, 0), "i0"),
    (Op::Wenc(1, -1), "i0"),
    (Op::Wenc(LIMIT, 2), "h2"),
    (Op::Wdec(1, 0), "5e"),
    (Op::Wdec(1, -1), "5e"),
    (Op::Wdec(1, 4), "-e"),
    (Op::Wdec(1, 62), "Le"),
    (Op::Wdec(LIMIT, 2), "3g"),
];

#[test]
fn takes_numbers_that_are_no_words(rt: HostRuntime) {
    each(&rt, rt.alloc(), &WORDS);
}

const ROWS: [Case; 21] = [
    (Op::Renc(1, 0), "Cq"),
    (Op::Renc(1, -1), "Cq"),
    (Op::Renc(1, 3), "tF"),
    (Op::Rdec(1), "qd"),
    (Op::Rdec(LIMIT), "QE"),
    (Op::Rdec(1), "UD"),
    (Op::Rdec(1), "vd"),
    (Op::Rdec(1), "7F"),
    (Op::Rget(-MOST - 1, MOST), "P99"),
    (Op::Rget(MOST, -MOST - 1), "P99"),
    (Op::Rget(1, 1), "q99"),
    (Op::Rget(1, 1), "u99"),
    (Op::Rget(1, 1), "79F"),
    (Op::Rput(1, MOST), "P9P"),
    (Op::Rput(1, -MOST - 1), "P9P"),
    (Op::Rput(1, 1), "W9V"),
    (Op::Rput(1, 1), "q9q"),
    (Op::Rput(1, 1), "79F"),
    (Op::Rdrop(1, -MOST - 1), "PP"),
    (Op::Rdrop(1, 1), "qq"),
    (Op::Rdrop(1, 1), "7F"),
];

#[test]
fn takes_other_kinds_for_rows(rt: HostRuntime) {
    each(&rt, rt.alloc(), &ROWS);
}
