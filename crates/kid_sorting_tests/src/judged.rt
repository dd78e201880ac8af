//! What terms and definitions must be where they stand, also where they are too deep or too large.
use crate::built::{definition, names, negations, term};
use crate::sort_words::sorts;
use kid_sorting::judge::{is_sorted_definition, is_truth, is_within};
use kid_term::{Def, Term};
use kid_value::{Names, Sort};
use std::alloc::Global;
use std::process::Abort;

const LETTERS: [(&str, &str); 2] = [("t", "bool"), ("n", "int 1 3")];

// without clauses, so that no proof below opens the definition of least sorts
fn truth(alloc: Global, names: &Names, term: &Term) -> Option<bool> {
    is_truth(alloc, &[], names.items(), term).ok()
}

fn within(alloc: Global, sort: &Sort, term: &Term) -> Option<bool> {
    is_within(alloc, sort, &[], &[], term).ok()
}

fn sorted_definition(alloc: Global, definition: &Def) -> Option<bool> {
    is_sorted_definition(alloc, &[], definition).ok()
}

fn is_condition(alloc: Global, names: &Option<Names>, word: &str, count: u32) -> Option<bool> {
    let terms = term(alloc, word, count)?;
    match (names, terms.as_slice()) {
        (Some(names), [term]) => truth(alloc, names, term),
        _ => None,
    }
}

fn judges_conditions(
    rt: &impl Abort,
    alloc: Global,
    names: &Option<Names>,
    rows: &[(&str, u32, bool)],
) {
    for row in rows {
        let (word, count, want) = *row;
        let found = is_condition(alloc, names, word, count);
        assert!(rt; found == Some(want), "at {word} {count}");
    }
}

const CONDITIONS: [(&str, u32, bool); 5] = [
    ("t", 0, true),
    ("n", 0, false),
    ("u", 0, false),
    ("", 128, false),
    ("", 4096, false),
];

#[test]
fn takes_truth_values_for_conditions(rt: HostRuntime) {
    let names = names(rt.alloc(), &LETTERS);
    judges_conditions(&rt, rt.alloc(), &names, &CONDITIONS);
}

fn lies_within(alloc: Global, count: u32, sort: &str) -> Option<bool> {
    let terms = negations(alloc, count)?;
    let sorts = sorts(alloc, sort)?;
    match (terms.as_slice(), sorts.as_slice()) {
        ([term], [sort]) => within(alloc, sort, term),
        _ => None,
    }
}

fn judges_within(rt: &impl Abort, alloc: Global, rows: &[(u32, &str, bool)]) {
    for row in rows {
        let (count, sort, want) = *row;
        let found = lies_within(alloc, count, sort);
        assert!(rt; found == Some(want), "at {count} {sort}");
    }
}

// 1 below so many negations
const WITHIN: [(u32, &str, bool); 7] = [
    (0, "int 1 1", true),
    (0, "int 0 9", true),
    (0, "int 2 9", false),
    (127, "int -1 -1", true),
    (127, "int 1 1", false),
    (128, "int -9 9", false),
    (4096, "int -9 9", false),
];

#[test]
fn takes_terms_within_a_sort(rt: HostRuntime) {
    judges_within(&rt, rt.alloc(), &WITHIN);
}

/// A definition: the sort of its parameter x, its own sort, and its body, a name or 1 below so many negations.
type Row = (&'static str, &'static str, &'static str, u32, bool);

fn is_sorted(alloc: Global, row: &Row) -> Option<bool> {
    let (of_x, of_f, word, count, _) = *row;
    let definition = definition(alloc, of_x, of_f, word, count)?;
    sorted_definition(alloc, &definition)
}

fn judges_definitions(rt: &impl Abort, alloc: Global, rows: &[Row]) {
    for row in rows {
        let found = is_sorted(alloc, row);
        assert!(rt; found == Some(row.4), "at {} {}", row.2, row.3);
    }
}

const DEFINITIONS: [Row; 8] = [
    ("int 0 9", "int 0 9", "x", 0, true),
    ("int 0 9", "int 0 8", "x", 0, false),
    ("int 0 9", "int 0 9", "y", 0, false),
    ("int 0 9", "int -9 9", "", 127, true),
    ("int 0 9", "int -9 9", "", 128, false),
    ("int 0 9", "int -9 9", "", 4096, false),
    // no numbers lie between these bounds
    ("int 1 0", "int 0 9", "", 0, false),
    ("int 0 9", "int 1 0", "", 0, false),
];

#[test]
fn takes_sorted_definitions(rt: HostRuntime) {
    judges_definitions(&rt, rt.alloc(), &DEFINITIONS);
}
