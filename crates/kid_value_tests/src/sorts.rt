//! Counts, limits, joins and copies of sorts.
ghost use Rattle.std.specs.Prelude.{◌≡◌, ◌&&◌, true};
ghost use Rattle.kid_value.specs.SortOrder.{is_subsort};
ghost use Rattle.kid_value.specs.SortView.{plain_sort};

use crate::sort_words::sorts;
use kid_value::{Sort, count_of, join, sort_ok, subsort};
use std::alloc::Global;
use std::process::Abort;

/// Whether each is below the other.
fn is(found: &Sort, want: &Sort) -> bool
    ensures { result ≡ true → (is_subsort (plain_sort found.now) (plain_sort want.now) && is_subsort (plain_sort want.now) (plain_sort found.now)) ≡ true }
{
    subsort(found, want) && subsort(want, found)
}

fn counted(built: &Option<Vec<Sort>>) -> Option<u32> {
    match built {
        Some(built) => match built.as_slice() {
            [sort] => Some(count_of(sort)),
            _ => None,
        },
        None => None,
    }
}

fn counts(rt: &impl Abort, alloc: Global, rows: &[(&str, u32)]) {
    for row in rows {
        let (text, want) = *row;
        assert!(rt; counted(&sorts(alloc, text)) == Some(want), "at {text}");
    }
}

const COUNTS: [(&str, u32); 14] = [
    ("int 1 65536", 65536),
    ("int 0 65536", 65537),
    ("set int 1 16", 65536),
    ("set int 1 17", 65537),
    ("pair int 1 256 int 1 256", 65536),
    ("map int 1 4 int 1 15", 65536),
    ("map int 1 4 int 1 16", 65537),
    ("seq int 7 7 65535", 65536),
    ("seq int 7 7 65536", 65537),
    ("seq bool 15", 65535),
    ("seq bool 16", 65537),
    ("set never", 1),
    ("bytes 1 65", 64),
    ("set bytes 1 17", 65536),
];

#[test]
fn counts_up_to_the_cap(rt: HostRuntime) {
    counts(&rt, rt.alloc(), &COUNTS);
}

fn allowed(built: &Option<Vec<Sort>>) -> Option<bool> {
    match built {
        Some(built) => match built.as_slice() {
            [sort] => Some(sort_ok(sort)),
            _ => None,
        },
        None => None,
    }
}

fn allows(rt: &impl Abort, alloc: Global, rows: &[(&str, bool)]) {
    for row in rows {
        let (text, want) = *row;
        assert!(rt; allowed(&sorts(alloc, text)) == Some(want), "at {text}");
    }
}

const ALLOWED: [(&str, bool); 19] = [
    ("seq seq seq seq seq seq seq bool 1 1 1 1 1 1 1", true),
    (
        "seq seq seq seq seq seq seq seq bool 1 1 1 1 1 1 1 1",
        false,
    ),
    ("int -4611686018427387904 4611686018427387904", true),
    ("int 0 4611686018427387905", false),
    ("int -4611686018427387905 0", false),
    ("int 1 0", false),
    ("set int 1 65536", true),
    ("set int 0 65536", false),
    ("seq never 65536", true),
    ("seq never 65537", false),
    ("bytes 1 1", false),
    ("bytes 1 65", true),
    ("bytes 1 66", false),
    ("a", true),
    ("blue|red", true),
    ("red|blue", false),
    ("red|red", false),
    ("a|ab|b", true),
    ("a|ba|b", false),
];

#[test]
fn allows_sorts(rt: HostRuntime) {
    allows(&rt, rt.alloc(), &ALLOWED);
}

fn is_below(built: &Option<Vec<Sort>>) -> Option<bool> {
    match built {
        Some(built) => match built.as_slice() {
            [first, second] => Some(subsort(first, second)),
            _ => None,
        },
        None => None,
    }
}

fn compares(rt: &impl Abort, alloc: Global, rows: &[(&str, bool)]) {
    for row in rows {
        let (text, want) = *row;
        assert!(rt; is_below(&sorts(alloc, text)) == Some(want), "at {text}");
    }
}

const BELOW: [(&str, bool); 3] = [
    ("a|c|d b|d|e", false),
    ("a|c|d a|b|c|d|e", true),
    ("a|b|c|d|e a|c|d", false),
];

#[test]
fn compares_sorts(rt: HostRuntime) {
    compares(&rt, rt.alloc(), &BELOW);
}

fn joined(alloc: Global, built: &Option<Vec<Sort>>) -> Option<Option<Sort>> {
    match built {
        Some(built) => match built.as_slice() {
            [first, second, ..] => join(alloc, first, second).ok(),
            _ => None,
        },
        None => None,
    }
}

fn are_joined(alloc: Global, built: &Option<Vec<Sort>>, count: u32, allowed: bool) -> bool {
    match (joined(alloc, built), built) {
        (Some(Some(found)), Some(built)) => match built.as_slice() {
            [_, _, want] => is(&found, want)
                && count_of(&found) == count
                && sort_ok(&found) == allowed,
            _ => false,
        },
        _ => false,
    }
}

fn joins(rt: &impl Abort, alloc: Global, rows: &[(&str, u32, bool)]) {
    for row in rows {
        let (text, count, allowed) = *row;
        assert!(rt;
            are_joined(alloc, &sorts(alloc, text), count, allowed),
            "at {text}"
        );
    }
}

// the two, the join, how many values it has, and whether it is allowed
const JOINED: [(&str, u32, bool); 3] = [
    ("a|c|d b|d|e a|b|c|d|e", 5, true),
    ("bytes 1 50 bytes 40 66 bytes 1 66", 65, false),
    ("seq int 1 3 4 seq int 2 5 2 seq int 1 5 4", 781, true),
];

#[test]
fn joins_sorts(rt: HostRuntime) {
    joins(&rt, rt.alloc(), &JOINED);
}

fn joins_none(rt: &impl Abort, alloc: Global, rows: &[&str]) {
    for row in rows {
        assert!(rt;
            matches!(joined(alloc, &sorts(alloc, row)), Some(None)),
            "at {row}"
        );
    }
}

const UNLIKE: [&str; 3] = ["a|c|d bool", "seq int 1 3 4 bool", "bool int 1 2"];

#[test]
fn joins_no_unlike_sorts(rt: HostRuntime) {
    joins_none(&rt, rt.alloc(), &UNLIKE);
}

fn copied(alloc: Global, sort: &Sort) -> Option<Sort> {
    sort.copy(alloc).ok()
}

fn is_copied(alloc: Global, built: &Option<Vec<Sort>>) -> bool {
    match built {
        Some(built) => match built.as_slice() {
            [sort] => matches!(copied(alloc, sort), Some(copy) if is(&copy, sort)),
            _ => false,
        },
        None => false,
    }
}

fn copies(rt: &impl Abort, alloc: Global, rows: &[&str]) {
    for row in rows {
        assert!(rt; is_copied(alloc, &sorts(alloc, row)), "at {row}");
    }
}

const COPIED: [&str; 8] = [
    "never",
    "bool",
    "int -2 3",
    "pair bool int 1 2",
    "set bool",
    "seq int 1 5 4",
    "map bool never",
    "blue|green|red",
];

#[test]
fn copies_sorts(rt: HostRuntime) {
    copies(&rt, rt.alloc(), &COPIED);
}
