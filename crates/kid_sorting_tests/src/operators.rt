//! Operators on pairs, sets, sequences and maps.
use crate::built::names;
use crate::over::{refuses_all, sorts_all};
use kid_sorting::SortFault;
use kid_term::{MapOp, Op, PairOp, SeqOp, SetOp};
use kid_value::Names;
use std::alloc::Global;

// a name of one letter for each sort: small ones for numbers and sequences, great ones for sets and maps
const LETTERS: [(&str, &str); 43] = [
    ("t", "bool"),
    ("o", "seq seq seq seq seq seq seq bool 1 1 1 1 1 1 1"),
    ("p", "pair int -2 3 bool"),
    ("a", "int -2 3"),
    ("b", "int 5 9"),
    ("c", "int -2 9"),
    ("d", "int 1 3"),
    ("e", "int 0 65536"),
    ("f", "int 0 9"),
    ("g", "int 0 0"),
    ("h", "int 0 4"),
    ("i", "int -8 12"),
    ("l", "int 4611686018427387903 4611686018427387904"),
    ("m", "int 0 3"),
    ("A", "set int -2 3"),
    ("B", "set int 5 9"),
    ("C", "set int -2 9"),
    ("D", "set int 1 3"),
    ("E", "set int 3 5"),
    ("F", "set int 1 5"),
    ("J", "set int 0 40000"),
    ("K", "set int 40001 80000"),
    ("L", "set int 4611686018427387903 4611686018427387904"),
    ("W", "set int 1 17"),
    ("N", "set never"),
    ("q", "seq int -2 3 4"),
    ("r", "seq int 5 9 2"),
    ("s", "seq int -2 9 2"),
    ("u", "seq int -2 9 5"),
    ("x", "seq int 4611686018427387903 4611686018427387904 2"),
    ("v", "seq never 0"),
    ("w", "seq bool 65536"),
    ("y", "seq set int 0 40000 1"),
    ("z", "seq set int 1 17 1"),
    ("M", "map int 1 3 int -2 3"),
    ("U", "map int -2 3 int -2 9"),
    ("X", "map int 1 3 set int 5 9"),
    ("Z", "map int -2 3 set int -2 3"),
    ("O", "map never never"),
    ("V", "map int 1 3 bool"),
    ("Q", "map bool set int 1 17"),
    ("R", "map bool set int 0 40000"),
    ("Y", "map int 1 3 set bool"),
];

fn letters(alloc: Global) -> Option<Names> {
    names(alloc, &LETTERS)
}

const PAIRS: [(Op, &str, &str); 3] = [
    (Op::Pair(PairOp::Pair), "a t", "p"),
    (Op::Pair(PairOp::Fst), "p", "a"),
    (Op::Pair(PairOp::Snd), "p", "t"),
];

#[test]
fn sorts_pairs(rt: HostRuntime) {
    sorts_all(&rt, rt.alloc(), &letters(rt.alloc()), &PAIRS);
}

const FAULTS_OF_PAIRS: [(Op, &str, SortFault); 5] = [
    (Op::Pair(PairOp::Pair), "a", SortFault::Kind),
    (Op::Pair(PairOp::Pair), "o t", SortFault::Bounds),
    (Op::Pair(PairOp::Fst), "a", SortFault::Kind),
    (Op::Pair(PairOp::Fst), "p p", SortFault::Kind),
    (Op::Pair(PairOp::Snd), "t", SortFault::Kind),
];

#[test]
fn tells_the_faults_of_pairs(rt: HostRuntime) {
    refuses_all(&rt, rt.alloc(), &letters(rt.alloc()), &FAULTS_OF_PAIRS);
}

const SETS: [(Op, &str, &str); 15] = [
    (Op::Set(SetOp::Set), "a b", "C"),
    (Op::Set(SetOp::Set), "", "N"),
    (Op::Set(SetOp::Range), "a b", "C"),
    (Op::Set(SetOp::Range), "b a", "N"),
    (Op::Set(SetOp::In), "a D", "t"),
    (Op::Set(SetOp::Subset), "D E", "t"),
    (Op::Set(SetOp::Union), "D E", "F"),
    (Op::Set(SetOp::With), "a D", "A"),
    (Op::Set(SetOp::Inter), "D E", "D"),
    (Op::Set(SetOp::Diff), "D E", "D"),
    (Op::Set(SetOp::Without), "a D", "D"),
    (Op::Set(SetOp::Card), "D", "m"),
    (Op::Set(SetOp::Sum), "D", "f"),
    (Op::Set(SetOp::Sum), "N", "g"),
    (Op::Set(SetOp::Least), "D a", "a"),
];

#[test]
fn sorts_sets(rt: HostRuntime) {
    sorts_all(&rt, rt.alloc(), &letters(rt.alloc()), &SETS);
}

const FAULTS_OF_SETS: [(Op, &str, SortFault); 19] = [
    (Op::Set(SetOp::Set), "a t", SortFault::Kind),
    (Op::Set(SetOp::Set), "W", SortFault::Bounds),
    (Op::Set(SetOp::Range), "a t", SortFault::Kind),
    (Op::Set(SetOp::Range), "a e", SortFault::Bounds),
    (Op::Set(SetOp::In), "t D", SortFault::Kind),
    (Op::Set(SetOp::Subset), "D a", SortFault::Kind),
    (Op::Set(SetOp::Union), "D a", SortFault::Kind),
    (Op::Set(SetOp::Union), "J K", SortFault::Bounds),
    (Op::Set(SetOp::With), "t D", SortFault::Kind),
    (Op::Set(SetOp::With), "e D", SortFault::Bounds),
    (Op::Set(SetOp::Inter), "D t", SortFault::Kind),
    (Op::Set(SetOp::Diff), "t D", SortFault::Kind),
    (Op::Set(SetOp::Without), "D a", SortFault::Kind),
    (Op::Set(SetOp::Card), "D D", SortFault::Kind),
    (Op::Set(SetOp::Card), "a", SortFault::Kind),
    (Op::Set(SetOp::Sum), "a", SortFault::Kind),
    (Op::Set(SetOp::Sum), "L", SortFault::Bounds),
    (Op::Set(SetOp::Least), "a D", SortFault::Kind),
    (Op::Set(SetOp::Least), "D t", SortFault::Kind),
];

#[test]
fn tells_the_faults_of_sets(rt: HostRuntime) {
    refuses_all(&rt, rt.alloc(), &letters(rt.alloc()), &FAULTS_OF_SETS);
}

const SEQUENCES: [(Op, &str, &str); 9] = [
    (Op::Seq(SeqOp::Seq), "a b", "s"),
    (Op::Seq(SeqOp::Seq), "", "v"),
    (Op::Seq(SeqOp::Len), "q", "h"),
    (Op::Seq(SeqOp::At), "q a b", "c"),
    (Op::Seq(SeqOp::Snoc), "q b", "u"),
    (Op::Seq(SeqOp::Rest), "q a", "q"),
    (Op::Seq(SeqOp::Items), "q", "A"),
    (Op::Seq(SeqOp::Total), "q", "i"),
    (Op::Seq(SeqOp::Prefix), "q r", "t"),
];

#[test]
fn sorts_sequences(rt: HostRuntime) {
    sorts_all(&rt, rt.alloc(), &letters(rt.alloc()), &SEQUENCES);
}

const FAULTS_OF_SEQUENCES: [(Op, &str, SortFault); 14] = [
    (Op::Seq(SeqOp::Seq), "a t", SortFault::Kind),
    (Op::Seq(SeqOp::Seq), "o", SortFault::Bounds),
    (Op::Seq(SeqOp::Len), "a", SortFault::Kind),
    (Op::Seq(SeqOp::At), "q t b", SortFault::Kind),
    (Op::Seq(SeqOp::At), "q a t", SortFault::Kind),
    (Op::Seq(SeqOp::At), "y a K", SortFault::Bounds),
    (Op::Seq(SeqOp::Snoc), "q t", SortFault::Kind),
    (Op::Seq(SeqOp::Snoc), "w t", SortFault::Bounds),
    (Op::Seq(SeqOp::Rest), "q t", SortFault::Kind),
    (Op::Seq(SeqOp::Items), "A", SortFault::Kind),
    (Op::Seq(SeqOp::Items), "z", SortFault::Bounds),
    (Op::Seq(SeqOp::Total), "a", SortFault::Kind),
    (Op::Seq(SeqOp::Total), "x", SortFault::Bounds),
    (Op::Seq(SeqOp::Prefix), "q w", SortFault::Kind),
];

#[test]
fn tells_the_faults_of_sequences(rt: HostRuntime) {
    refuses_all(&rt, rt.alloc(), &letters(rt.alloc()), &FAULTS_OF_SEQUENCES);
}

const MAPS: [(Op, &str, &str); 10] = [
    (Op::Map(MapOp::Map), "", "O"),
    (Op::Map(MapOp::Dom), "M", "D"),
    (Op::Map(MapOp::Ran), "M", "A"),
    (Op::Map(MapOp::Get), "M a b", "c"),
    (Op::Map(MapOp::Put), "M a b", "U"),
    (Op::Map(MapOp::Drop), "M a", "M"),
    (Op::Map(MapOp::Fill), "D a", "M"),
    (Op::Map(MapOp::Submap), "M U", "t"),
    (Op::Map(MapOp::Fits), "M X", "t"),
    (Op::Map(MapOp::Narrow), "X Z", "X"),
];

#[test]
fn sorts_maps(rt: HostRuntime) {
    sorts_all(&rt, rt.alloc(), &letters(rt.alloc()), &MAPS);
}

const FAULTS_OF_MAPS: [(Op, &str, SortFault); 17] = [
    (Op::Map(MapOp::Map), "a", SortFault::Kind),
    (Op::Map(MapOp::Dom), "a", SortFault::Kind),
    (Op::Map(MapOp::Ran), "A", SortFault::Kind),
    (Op::Map(MapOp::Ran), "Q", SortFault::Bounds),
    (Op::Map(MapOp::Get), "M t a", SortFault::Kind),
    (Op::Map(MapOp::Get), "M a t", SortFault::Kind),
    (Op::Map(MapOp::Get), "R t K", SortFault::Bounds),
    (Op::Map(MapOp::Put), "M t b", SortFault::Kind),
    (Op::Map(MapOp::Put), "M e a", SortFault::Bounds),
    (Op::Map(MapOp::Drop), "M t", SortFault::Kind),
    (Op::Map(MapOp::Fill), "a a", SortFault::Kind),
    (Op::Map(MapOp::Fill), "D o", SortFault::Bounds),
    (Op::Map(MapOp::Submap), "M V", SortFault::Kind),
    (Op::Map(MapOp::Fits), "M U", SortFault::Kind),
    (Op::Map(MapOp::Fits), "M Y", SortFault::Kind),
    (Op::Map(MapOp::Narrow), "X M", SortFault::Kind),
    (Op::Map(MapOp::Narrow), "X Y", SortFault::Kind),
];

#[test]
fn tells_the_faults_of_maps(rt: HostRuntime) {
    refuses_all(&rt, rt.alloc(), &letters(rt.alloc()), &FAULTS_OF_MAPS);
}
