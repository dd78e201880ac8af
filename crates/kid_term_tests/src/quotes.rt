//! The terms of values.
use crate::notation::{are_alike, push, terms};
use crate::values::values;
use kid_term::{Term, quote};
use kid_value::Value;
use std::alloc::Global;
use std::process::Abort;

fn put_quoted(alloc: Global, terms: &mut Vec<Term>, values: &[Value]) -> Option<()> {
    match values {
        [value] => push(terms, quote(alloc, value).ok()),
        _ => None,
    }
}

fn told(alloc: Global, it: &str, want: &str) -> Option<bool> {
    let values = values(alloc, it)?;
    let mut terms = terms(alloc, want)?;
    put_quoted(alloc, &mut terms, &values)?;
    Some(are_alike(&terms))
}

fn is_quoted(alloc: Global, it: &str, want: &str) -> bool {
    matches!(told(alloc, it, want), Some(true))
}

fn quotes(rt: &impl Abort, alloc: Global, rows: &[(&str, &str)]) {
    for row in rows {
        let (it, want) = *row;
        assert!(rt; is_quoted(alloc, it, want), "at {it}");
    }
}

const QUOTED: [(&str, &str); 14] = [
    ("7", "7"),
    ("T", "T"),
    (",1F", ",1F"),
    ("&12", "&12"),
    // in the order of the set
    ("&21", "&12"),
    (";21", ";21"),
    (";22", ";22"),
    ("M", "M"),
    ("=M1T", "=M1T"),
    // the last key is the outermost
    ("==M3T1F", "==M1F3T"),
    ("=M;,12=M45&98", "=M;,12=M45&89"),
    ("r", "'r"),
    // names ascend by their bytes
    ("&rb", "&'b'r"),
    ("==M2r1b", "==M1'b2'r"),
];

#[test]
fn quotes_values(rt: HostRuntime) {
    quotes(&rt, rt.alloc(), &QUOTED);
}
