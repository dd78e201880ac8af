//! Definitions, and copies of them, also of many.
use crate::notation::{is, terms};
use kid_term::{Def, Defs};
use kid_value::{Names, Sort, Text, subsort};
use std::alloc::Global;

/// A definition: its name, its parameters, how great its value may be, and its body.
type Row = (&'static str, &'static str, i64, &'static str);

fn up_to(hi: i64) -> Sort {
    Sort::Int { lo: 0, hi }
}

fn text(alloc: Global, word: &str) -> Option<Text> {
    Text::from_slice(alloc, word.as_bytes()).ok()
}

// one more name, which is as great at most as there are names before it
fn add(alloc: Global, names: &mut Names, name: &str) -> Option<()> {
    if name.is_empty() {
        return Some(());
    }
    let hi = i64::try_from(names.items().len()).ok()?;
    names.push(text(alloc, name)?, up_to(hi)).ok()
}

fn parameters(alloc: Global, words: &str) -> Option<Names> {
    let mut names = Names::new(alloc);
    for name in words.split(' ') {
        add(alloc, &mut names, name)?;
    }
    Some(names)
}

fn definition(alloc: Global, row: &Row) -> Option<Def> {
    let (name, words, hi, body) = *row;
    let name = text(alloc, name)?;
    let parameters = parameters(alloc, words)?;
    let mut bodies = terms(alloc, body)?;
    match bodies.pop() {
        Some(body) => Some(Def {
            name,
            parameters,
            sort: up_to(hi),
            body,
        }),
        None => None,
    }
}

fn push(definitions: &mut Vec<Def>, definition: Option<Def>) -> Option<()> {
    definitions.push(definition?).ok()
}

fn definitions(alloc: Global, rows: &[Row]) -> Option<Vec<Def>> {
    let mut definitions = Vec::new(alloc);
    for row in rows {
        push(&mut definitions, definition(alloc, row))?;
    }
    Some(definitions)
}

fn define(alloc: Global, defs: &mut Defs, row: &Row) -> Option<()> {
    defs.push(definition(alloc, row)?).ok()
}

fn filled(alloc: Global, rows: &[Row]) -> Option<Defs> {
    let mut defs = Defs::new(alloc);
    for row in rows {
        define(alloc, &mut defs, row)?;
    }
    Some(defs)
}

fn is_sort(found: &Sort, want: &Sort) -> bool {
    subsort(found, want) && subsort(want, found)
}

fn are_names(found: &[(Text, Sort)], want: &[(Text, Sort)]) -> bool {
    if found.len() != want.len() {
        return false;
    }
    for (found, want) in found.iter().zip(want) {
        if !found.0.same(&want.0) || !is_sort(&found.1, &want.1) {
            return false;
        }
    }
    true
}

fn is_definition(found: &Def, want: &Def) -> bool {
    found.name.same(&want.name)
        && are_names(found.parameters.items(), want.parameters.items())
        && is_sort(&found.sort, &want.sort)
        && is(&found.body, &want.body)
}

fn are_definitions(found: &[Def], want: &[Def]) -> bool {
    if found.len() != want.len() {
        return false;
    }
    for (found, want) in found.iter().zip(want) {
        if !is_definition(found, want) {
            return false;
        }
    }
    true
}

const ROWS: [Row; 5] = [
    ("f", "x", 1, "x"),
    ("none", "", 3, "3"),
    ("g", "x y", 9, "+x@fy"),
    ("sum", "s t low", 4, "Uxs+x3"),
    ("twice", "x y x", 4, "x"),
];

fn keeps(alloc: Global, rows: &[Row]) -> Option<bool> {
    let want = definitions(alloc, rows)?;
    let found = filled(alloc, rows)?;
    Some(found.len() == rows.len() && are_definitions(found.items(), &want))
}

#[test]
fn keeps_definitions(rt: HostRuntime) {
    assert!(rt; keeps(rt.alloc(), &ROWS) == Some(true));
}

// how many there are, where the copies are equal
fn counted(alloc: Global, defs: &Option<Defs>) -> Option<usize> {
    match defs {
        Some(defs) => {
            let copies = defs.copy(alloc).ok()?;
            if are_definitions(copies.items(), defs.items()) {
                Some(copies.len())
            } else {
                None
            }
        }
        None => None,
    }
}

#[test]
fn copies_definitions(rt: HostRuntime) {
    assert!(rt; counted(rt.alloc(), &filled(rt.alloc(), &ROWS)) == Some(5));
}

// the first so many times, and then the other once
fn many(alloc: Global, first: &Row, times: u32, last: &Row) -> Option<Defs> {
    let mut defs = Defs::new(alloc);
    for _ in 0..times {
        define(alloc, &mut defs, first)?;
    }
    define(alloc, &mut defs, last)?;
    Some(defs)
}

// A limit that nobody wrote down would show here alone.
#[test]
fn copies_many_definitions(rt: HostRuntime) {
    let many = many(rt.alloc(), &ROWS[0], 1000, &ROWS[2]);
    assert!(rt; counted(rt.alloc(), &many) == Some(1001));
}
