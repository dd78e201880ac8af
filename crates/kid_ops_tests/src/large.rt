//! Values of more parts than anyone would count on. No clause says when memory is wanting, so an operator might tell that it
//! is from some size on.
use crate::built::{Large, larges};
use crate::calls::{Op, gives};
use std::alloc::Global;
use std::process::Abort;

/// An operator, the values that it takes, and the one that it gives.
type Case = (
    Op,
    Option<Large>,
    Option<Large>,
    Option<Large>,
    Option<Large>,
);

fn each(rt: &impl Abort, alloc: Global, cases: &[Case]) {
    for (i, case) in cases.iter().enumerate() {
        let (op, x, y, z, want) = *case;
        assert!(rt;
            gives(alloc, op, &larges(alloc, &[x, y, z, want])),
            "at row {i}"
        );
    }
}

const OF_ONE: [Case; 12] = [
    (
        Op::Card,
        Some(Large::Set(1, 70000)),
        None,
        None,
        Some(Large::Int(70000)),
    ),
    (
        Op::Set,
        Some(Large::Seq(1, 5000)),
        None,
        None,
        Some(Large::Set(1, 5000)),
    ),
    (
        Op::Seq,
        Some(Large::Seq(1, 70000)),
        None,
        None,
        Some(Large::Seq(1, 70000)),
    ),
    (
        Op::Len,
        Some(Large::Seq(1, 70000)),
        None,
        None,
        Some(Large::Int(70000)),
    ),
    (
        Op::Items,
        Some(Large::Seq(1, 5000)),
        None,
        None,
        Some(Large::Set(1, 5000)),
    ),
    (
        Op::Rest(1),
        Some(Large::Seq(1, 70000)),
        None,
        None,
        Some(Large::Seq(2, 70000)),
    ),
    (
        Op::Rest(69999),
        Some(Large::Seq(1, 70000)),
        None,
        None,
        Some(Large::Seq(70000, 70000)),
    ),
    (
        Op::Dom,
        Some(Large::Map(1, 70000, 5)),
        None,
        None,
        Some(Large::Set(1, 70000)),
    ),
    (
        Op::Ran,
        Some(Large::Map(1, 70000, 5)),
        None,
        None,
        Some(Large::Set(5, 5)),
    ),
    (
        Op::Renc(1, 4096),
        Some(Large::Map(1, 4096, 5)),
        None,
        None,
        Some(Large::Row(4096, 5)),
    ),
    (
        Op::Rdec(1),
        Some(Large::Row(4096, 5)),
        None,
        None,
        Some(Large::Map(1, 4096, 5)),
    ),
    (
        Op::Rdrop(1, 4097),
        Some(Large::Row(4096, 5)),
        None,
        None,
        Some(Large::Row(4096, 5)),
    ),
];

#[test]
fn takes_a_large_value(rt: HostRuntime) {
    each(&rt, rt.alloc(), &OF_ONE);
}

const SETS: [Case; 11] = [
    (
        Op::Choose(false),
        Some(Large::Int(1)),
        Some(Large::Set(1, 70000)),
        None,
        Some(Large::Set(1, 70000)),
    ),
    (
        Op::Eq,
        Some(Large::Set(1, 70000)),
        Some(Large::Set(1, 70000)),
        None,
        Some(Large::Bool(true)),
    ),
    (
        Op::Member,
        Some(Large::Int(70000)),
        Some(Large::Set(1, 70000)),
        None,
        Some(Large::Bool(true)),
    ),
    (
        Op::Subset,
        Some(Large::Set(1, 70000)),
        Some(Large::Set(0, 70000)),
        None,
        Some(Large::Bool(true)),
    ),
    (
        Op::Union,
        Some(Large::Set(1, 70000)),
        Some(Large::Set(2, 70001)),
        None,
        Some(Large::Set(1, 70001)),
    ),
    (
        Op::With,
        Some(Large::Int(70001)),
        Some(Large::Set(1, 70000)),
        None,
        Some(Large::Set(1, 70001)),
    ),
    (
        Op::Inter,
        Some(Large::Set(1, 70000)),
        Some(Large::Set(2, 70001)),
        None,
        Some(Large::Set(2, 70000)),
    ),
    (
        Op::Diff,
        Some(Large::Set(1, 70001)),
        Some(Large::Set(70001, 70001)),
        None,
        Some(Large::Set(1, 70000)),
    ),
    (
        Op::Without,
        Some(Large::Int(70001)),
        Some(Large::Set(1, 70001)),
        None,
        Some(Large::Set(1, 70000)),
    ),
    (
        Op::Range,
        Some(Large::Int(-1)),
        Some(Large::Int(70000)),
        None,
        Some(Large::Set(-1, 70000)),
    ),
    (
        Op::Range,
        Some(Large::Int(-70000)),
        Some(Large::Int(70000)),
        None,
        Some(Large::Set(-70000, 70000)),
    ),
];

#[test]
fn takes_large_sets(rt: HostRuntime) {
    each(&rt, rt.alloc(), &SETS);
}

const OTHERS: [Case; 12] = [
    (
        Op::At(70000),
        Some(Large::Seq(1, 70000)),
        Some(Large::Int(0)),
        None,
        Some(Large::Int(70000)),
    ),
    (
        Op::Snoc,
        Some(Large::Seq(1, 70000)),
        Some(Large::Int(70001)),
        None,
        Some(Large::Seq(1, 70001)),
    ),
    (
        Op::Prefix,
        Some(Large::Seq(1, 70000)),
        Some(Large::Seq(1, 70001)),
        None,
        Some(Large::Bool(true)),
    ),
    (
        Op::Drop,
        Some(Large::Map(1, 70001, 5)),
        Some(Large::Int(70001)),
        None,
        Some(Large::Map(1, 70000, 5)),
    ),
    (
        Op::Fill,
        Some(Large::Set(1, 70000)),
        Some(Large::Int(5)),
        None,
        Some(Large::Map(1, 70000, 5)),
    ),
    (
        Op::Submap,
        Some(Large::Map(1, 70000, 5)),
        Some(Large::Map(0, 70000, 5)),
        None,
        Some(Large::Bool(true)),
    ),
    (
        Op::Fits,
        Some(Large::Map(1, 70000, 5)),
        Some(Large::Allowed(70000, 5)),
        None,
        Some(Large::Bool(true)),
    ),
    (
        Op::Narrow,
        Some(Large::Map(1, 70000, 5)),
        Some(Large::Map(1, 0, 0)),
        None,
        Some(Large::Map(1, 70000, 5)),
    ),
    (
        Op::Rget(1, 4096),
        Some(Large::Row(4096, 5)),
        Some(Large::Int(9)),
        None,
        Some(Large::Int(5)),
    ),
    (
        Op::Rput(1, 4096),
        Some(Large::Row(4096, 5)),
        Some(Large::Int(5)),
        None,
        Some(Large::Row(4096, 5)),
    ),
    (
        Op::Get,
        Some(Large::Map(1, 70000, 5)),
        Some(Large::Int(70000)),
        Some(Large::Int(0)),
        Some(Large::Int(5)),
    ),
    (
        Op::Put,
        Some(Large::Map(1, 70000, 5)),
        Some(Large::Int(70001)),
        Some(Large::Int(5)),
        Some(Large::Map(1, 70001, 5)),
    ),
];

#[test]
fn takes_large_sequences_maps_and_rows(rt: HostRuntime) {
    each(&rt, rt.alloc(), &OTHERS);
}
