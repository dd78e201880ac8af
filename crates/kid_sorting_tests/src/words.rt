//! Operators on words and rows.
use crate::built::names;
use crate::over::{refuses_all, sorts_all};
use kid_sorting::SortFault;
use kid_term::{Op, WordOp};
use kid_value::Names;
use std::alloc::Global;

// a name of one letter for each sort: small ones for numbers and rows, great ones for sets and maps
const LETTERS: [(&str, &str); 28] = [
    ("t", "bool"),
    ("n", "never"),
    ("a", "int -5 5"),
    ("b", "int -5 62"),
    ("c", "int 1 62"),
    ("d", "int 0 62"),
    ("p", "int 0 15"),
    ("q", "int 0 8"),
    ("r", "int 0 5"),
    ("s", "int 0 4611686018427387903"),
    ("u", "int 0 4611686018427387904"),
    ("v", "int -1 5"),
    ("w", "int 0 1099511627775"),
    ("z", "int 0 0"),
    ("g", "seq seq bool 1 40"),
    ("h", "seq seq bool 2 40"),
    ("m", "seq seq bool 1 4096"),
    ("y", "seq seq bool 1 0"),
    ("l", "seq seq never 1 4096"),
    ("o", "seq bool 40"),
    ("A", "set int 1 40"),
    ("D", "set int 1 3"),
    ("E", "set int -5 -5"),
    ("N", "set never"),
    ("T", "set bool"),
    ("M", "map int 1 40 bool"),
    ("O", "map never never"),
    ("K", "map bool int 1 40"),
];

fn letters(alloc: Global) -> Option<Names> {
    names(alloc, &LETTERS)
}

const AT_NAMES: [(Op, &str, &str); 11] = [
    (Op::Word(WordOp::Wor), "r q", "p"),
    (Op::Word(WordOp::Wor), "z z", "z"),
    (Op::Word(WordOp::Wor), "s r", "s"),
    (Op::Word(WordOp::Wand), "r q", "r"),
    (Op::Word(WordOp::Wand), "q r", "r"),
    (Op::Word(WordOp::Wand), "s s", "s"),
    (Op::Word(WordOp::Wnot), "r q", "r"),
    (Op::Word(WordOp::Wnot), "q r", "q"),
    (Op::Word(WordOp::Wnot), "z s", "z"),
    (Op::Word(WordOp::Wcard), "r", "d"),
    (Op::Word(WordOp::Wcard), "s", "d"),
];

#[test]
fn sorts_at_names(rt: HostRuntime) {
    sorts_all(&rt, rt.alloc(), &letters(rt.alloc()), &AT_NAMES);
}

const FAULTS_AT_NAMES: [(Op, &str, SortFault); 12] = [
    (Op::Word(WordOp::Wor), "r", SortFault::Kind),
    (Op::Word(WordOp::Wor), "r u", SortFault::Kind),
    (Op::Word(WordOp::Wor), "r r r", SortFault::Kind),
    (Op::Word(WordOp::Wand), "v r", SortFault::Kind),
    (Op::Word(WordOp::Wand), "r n", SortFault::Kind),
    (Op::Word(WordOp::Wnot), "r t", SortFault::Kind),
    (Op::Word(WordOp::Wcard), "u", SortFault::Kind),
    (Op::Word(WordOp::Wcard), "r r", SortFault::Kind),
    (Op::Word(WordOp::Wenc), "z z A", SortFault::Kind),
    (Op::Word(WordOp::Win), "z a r", SortFault::Kind),
    (Op::Word(WordOp::Rdec), "z g", SortFault::Kind),
    (Op::Word(WordOp::Rget), "z g a t", SortFault::Kind),
];

#[test]
fn tells_the_faults_at_names(rt: HostRuntime) {
    refuses_all(&rt, rt.alloc(), &letters(rt.alloc()), &FAULTS_AT_NAMES);
}

const FROM_A_LOWEST_KEY: [(Op, &str, &str); 12] = [
    (Op::Word(WordOp::Win), "1 a r", "t"),
    (Op::Word(WordOp::Wleast), "1 a r", "b"),
    (Op::Word(WordOp::Wleast), "1 c s", "c"),
    (Op::Word(WordOp::Wleast), "1 n r", "c"),
    (Op::Word(WordOp::Rdec), "1 g", "M"),
    (Op::Word(WordOp::Rget), "1 g a t", "t"),
    (Op::Word(WordOp::Rget), "1 l a t", "t"),
    (Op::Word(WordOp::Rget), "1 g a n", "t"),
    (Op::Word(WordOp::Rput), "1 g a t", "g"),
    (Op::Word(WordOp::Rput), "1 l a t", "m"),
    (Op::Word(WordOp::Rdrop), "1 g a", "g"),
    (Op::Word(WordOp::Rdrop), "-9 l z", "l"),
];

#[test]
fn sorts_from_a_lowest_key(rt: HostRuntime) {
    sorts_all(&rt, rt.alloc(), &letters(rt.alloc()), &FROM_A_LOWEST_KEY);
}

const FAULTS_FROM_A_LOWEST_KEY: [(Op, &str, SortFault); 16] = [
    (Op::Word(WordOp::Win), "1 t r", SortFault::Kind),
    (Op::Word(WordOp::Win), "1 n r", SortFault::Kind),
    (Op::Word(WordOp::Win), "1 a u", SortFault::Kind),
    (Op::Word(WordOp::Wleast), "1 t r", SortFault::Kind),
    (
        Op::Word(WordOp::Wleast),
        "4611686018427387844 t r",
        SortFault::Kind,
    ),
    (
        Op::Word(WordOp::Wleast),
        "4611686018427387844 a r",
        SortFault::Bounds,
    ),
    (Op::Word(WordOp::Rdec), "1 h", SortFault::Kind),
    (Op::Word(WordOp::Rdec), "1 y", SortFault::Kind),
    (Op::Word(WordOp::Rdec), "1 o", SortFault::Kind),
    (
        Op::Word(WordOp::Rdec),
        "4611686018427387904 g",
        SortFault::Bounds,
    ),
    (Op::Word(WordOp::Rget), "1 g t t", SortFault::Kind),
    (Op::Word(WordOp::Rget), "1 g a A", SortFault::Kind),
    (Op::Word(WordOp::Rput), "1 g a A", SortFault::Kind),
    (Op::Word(WordOp::Rput), "1 y a t", SortFault::Kind),
    (Op::Word(WordOp::Rdrop), "1 g t", SortFault::Kind),
    (
        Op::Word(WordOp::Rdrop),
        "4611686018427387905 t t",
        SortFault::Bounds,
    ),
];

#[test]
fn tells_the_faults_from_a_lowest_key(rt: HostRuntime) {
    refuses_all(
        &rt,
        rt.alloc(),
        &letters(rt.alloc()),
        &FAULTS_FROM_A_LOWEST_KEY,
    );
}

const FROM_A_LOWEST_KEY_AND_A_COUNT: [(Op, &str, &str); 9] = [
    (Op::Word(WordOp::Wenc), "1 40 A", "w"),
    (Op::Word(WordOp::Wenc), "7 62 N", "s"),
    (Op::Word(WordOp::Wenc), "-3 4 A", "p"),
    (Op::Word(WordOp::Wdec), "1 3 r", "D"),
    (Op::Word(WordOp::Wdec), "-5 1 s", "E"),
    (Op::Word(WordOp::Wdec), "1 40 z", "A"),
    (Op::Word(WordOp::Renc), "1 40 M", "g"),
    (Op::Word(WordOp::Renc), "1 4096 M", "m"),
    (Op::Word(WordOp::Renc), "1 4096 O", "l"),
];

#[test]
fn sorts_from_a_lowest_key_and_a_count(rt: HostRuntime) {
    sorts_all(
        &rt,
        rt.alloc(),
        &letters(rt.alloc()),
        &FROM_A_LOWEST_KEY_AND_A_COUNT,
    );
}

const FAULTS_FROM_A_LOWEST_KEY_AND_A_COUNT: [(Op, &str, SortFault); 14] = [
    (Op::Word(WordOp::Wenc), "1 0 A", SortFault::Bounds),
    (Op::Word(WordOp::Wenc), "1 63 A", SortFault::Bounds),
    (Op::Word(WordOp::Wenc), "1 63 r", SortFault::Kind),
    (Op::Word(WordOp::Wenc), "1 40 T", SortFault::Kind),
    (Op::Word(WordOp::Wdec), "1 0 r", SortFault::Bounds),
    (Op::Word(WordOp::Wdec), "1 63 r", SortFault::Bounds),
    (Op::Word(WordOp::Wdec), "1 63 u", SortFault::Kind),
    (Op::Word(WordOp::Wdec), "1 40 v", SortFault::Kind),
    (
        Op::Word(WordOp::Wdec),
        "4611686018427387904 2 r",
        SortFault::Bounds,
    ),
    (Op::Word(WordOp::Renc), "1 0 M", SortFault::Bounds),
    (Op::Word(WordOp::Renc), "1 4097 M", SortFault::Bounds),
    (Op::Word(WordOp::Renc), "1 4097 A", SortFault::Kind),
    (Op::Word(WordOp::Renc), "1 40 K", SortFault::Kind),
    (
        Op::Word(WordOp::Renc),
        "4611686018427387905 40 t",
        SortFault::Bounds,
    ),
];

#[test]
fn tells_the_faults_from_a_lowest_key_and_a_count(rt: HostRuntime) {
    refuses_all(
        &rt,
        rt.alloc(),
        &letters(rt.alloc()),
        &FAULTS_FROM_A_LOWEST_KEY_AND_A_COUNT,
    );
}
