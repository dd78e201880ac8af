//! The order of values, their sorts, least values and copies.
ghost use Rattle.std.specs.Prelude.{◌≡◌, true};
ghost use Rattle.kid_value.specs.ValueOrder.{value_cmp};
ghost use Rattle.kid_value.specs.ValueView.{plain};

use crate::sort_words::sorts;
use crate::value_words::values;
use kid_value::{Sort, Value, cmp, has_sort, least_of};
use std::alloc::Global;
use std::cmp::Ordering;
use std::process::Abort;

/// Whether the first stands so to the second, from both sides.
fn stands(first: &Value, second: &Value, so: Ordering) -> bool
    ensures { result ≡ true → value_cmp (plain first.now) (plain second.now) ≡ so }
{
    cmp(first, second) == so && cmp(second, first) == so.reverse()
}

fn is_ordered(built: &Option<Vec<Value>>) -> bool {
    match built {
        Some(built) => match built.as_slice() {
            [first, second] => stands(first, second, Ordering::Less),
            _ => false,
        },
        None => false,
    }
}

fn orders(rt: &impl Abort, alloc: Global, rows: &[&str]) {
    for row in rows {
        assert!(rt; is_ordered(&values(alloc, row)), "at {row}");
    }
}

const ORDERED: [&str; 27] = [
    // sets
    "{3 {12",
    "{ {3",
    "{2 {1",
    "{1 {12",
    "{13 {12",
    "{545 {456",
    // maps
    "=15 =16",
    "=20 =10",
    "= =10",
    "=15 =2915",
    "=1914 =15",
    // sequences
    "[ [0",
    "[1 [10",
    "[12 [2",
    // kinds
    "9 false",
    "false true",
    "false pair 1 2",
    "pair 1 2 {",
    "{ [",
    "[ =",
    "= 'a",
    // tags, by their bytes
    "'a 'b",
    "'a 'ab",
    "'ab 'b",
    "'a-b 'a0",
    "'a9 'aa",
    "'blue 'red",
];

#[test]
fn orders_values(rt: HostRuntime) {
    orders(&rt, rt.alloc(), &ORDERED);
}

fn copied(alloc: Global, value: &Value) -> Option<Value> {
    value.copy(alloc).ok()
}

fn is(found: Option<Value>, want: &Value) -> bool {
    match found {
        Some(found) => stands(&found, want, Ordering::Equal),
        None => false,
    }
}

fn is_copied(alloc: Global, built: &Option<Vec<Value>>) -> bool {
    match built {
        Some(built) => match built.as_slice() {
            [value] => is(copied(alloc, value), value),
            _ => false,
        },
        None => false,
    }
}

fn copies(rt: &impl Abort, alloc: Global, rows: &[&str]) {
    for row in rows {
        assert!(rt; is_copied(alloc, &values(alloc, row)), "at {row}");
    }
}

const COPIED: [&str; 9] = [
    "-2",
    "true",
    "false",
    "pair -2 {",
    "{12",
    "[212",
    "=2715",
    "'red",
    "'",
];

#[test]
fn copies_values(rt: HostRuntime) {
    copies(&rt, rt.alloc(), &COPIED);
}

fn least(alloc: Global, sort: &Sort) -> Option<Value> {
    least_of(alloc, sort).ok()
}

fn is_least(alloc: Global, sorts: &Option<Vec<Sort>>, values: &Option<Vec<Value>>) -> bool {
    match (sorts, values) {
        (Some(sorts), Some(values)) => match (sorts.as_slice(), values.as_slice()) {
            ([sort], [want]) => is(least(alloc, sort), want) && has_sort(want, sort),
            _ => false,
        },
        _ => false,
    }
}

fn gives_least(rt: &impl Abort, alloc: Global, rows: &[(&str, &str)]) {
    for row in rows {
        let (sort, want) = *row;
        assert!(rt;
            is_least(alloc, &sorts(alloc, sort), &values(alloc, want)),
            "at {sort}"
        );
    }
}

const LEAST: [(&str, &str); 2] = [
    ("pair int -2 3 set bool", "pair -2 {"),
    ("blue|green|red", "'blue"),
];

#[test]
fn gives_least_values(rt: HostRuntime) {
    gives_least(&rt, rt.alloc(), &LEAST);
}

fn belongs(sorts: &Option<Vec<Sort>>, values: &Option<Vec<Value>>) -> Option<bool> {
    match (sorts, values) {
        (Some(sorts), Some(values)) => match (sorts.as_slice(), values.as_slice()) {
            ([sort], [value]) => Some(has_sort(value, sort)),
            _ => None,
        },
        _ => None,
    }
}

fn belong(rt: &impl Abort, alloc: Global, rows: &[(&str, &str, bool)]) {
    for row in rows {
        let (sort, value, want) = *row;
        let found = belongs(&sorts(alloc, sort), &values(alloc, value));
        assert!(rt; found == Some(want), "at {value}");
    }
}

const TAGS: [(&str, &str, bool); 8] = [
    ("blue|green|red", "'blue", true),
    ("blue|green|red", "'green", true),
    ("blue|green|red", "'red", true),
    ("blue|green|red", "'", false),
    ("blue|green|red", "'gree", false),
    ("blue|green|red", "'greens", false),
    ("blue|green|red", "'white", false),
    ("blue|green|red", "1", false),
];

#[test]
fn tells_the_tags_of_an_enum(rt: HostRuntime) {
    belong(&rt, rt.alloc(), &TAGS);
}
