//! Names, of which some are equal.
use crate::built::{add_name, add_number, var};
use crate::over::{is_number, over};
use crate::sorted::value_inside;
use kid_sorting::SortFault;
use kid_term::Term;
use kid_value::{Names, Value, Values};
use std::alloc::Global;
use std::process::Abort;

fn names(alloc: Global, rows: &[(&str, i64)]) -> Result<Names, SortFault> {
    let mut names = Names::new(alloc);
    for row in rows {
        add_name(alloc, &mut names, row.0)?;
    }
    Ok(names)
}

fn values(alloc: Global, rows: &[(&str, i64)]) -> Result<Values, SortFault> {
    let mut values = Values::new(alloc);
    for row in rows {
        add_number(&mut values, row.1)?;
    }
    Ok(values)
}

fn inside(
    alloc: Global,
    names: &Result<Names, SortFault>,
    values: &Result<Values, SortFault>,
    term: &Result<Term, SortFault>,
) -> Result<Value, SortFault> {
    match (names, values, term) {
        (Ok(names), Ok(values), Ok(term)) => {
            value_inside(alloc, names.items(), values.items(), term)
        }
        _ => Err(SortFault::Memory),
    }
}

/// Of two equal names the first is the inner one.
const KNOWN: [(&str, i64); 6] = [("x", 4), ("s", 2), ("x", 5), ("q", -9), ("e", 0), ("p", 1)];

fn name_is(alloc: Global, name: &str, want: i64) -> bool {
    let (names, values) = (names(alloc, &KNOWN), values(alloc, &KNOWN));
    let term = var(alloc, name);
    is_number(&over(alloc, &names, &values, &term), want)
        && is_number(&inside(alloc, &names, &values, &term), want)
}

fn names_are(rt: &impl Abort, alloc: Global, rows: &[(&str, i64)]) {
    for row in rows {
        let (name, want) = *row;
        assert!(rt; name_is(alloc, name, want), "at {name}");
    }
}

const VALUES: [(&str, i64); 5] = [("x", 4), ("s", 2), ("q", -9), ("e", 0), ("p", 1)];

#[test]
fn looks_names_up(rt: HostRuntime) {
    names_are(&rt, rt.alloc(), &VALUES);
}
