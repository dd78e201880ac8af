//! Calls of definitions of which two have one name, as no file has them.
use crate::built::{number, text};
use crate::over::is_number;
use crate::sorted::value_over;
use kid_sorting::SortFault;
use kid_term::{Def, Defs, Head, Term, Terms};
use kid_value::{Names, Sort, Text, Value};
use std::alloc::Global;
use std::process::Abort;

/// The body of a definition: a number, or a call.
#[derive(Clone, Copy)]
enum Rule {
    Number(i64),
    Call(&'static str),
}

fn call(alloc: Global, name: &str) -> Result<Term, SortFault> {
    Ok(Term::App(Head::Call(text(alloc, name)?), Terms::new(alloc)))
}

fn body(alloc: Global, rule: Rule) -> Result<Term, SortFault> {
    match rule {
        Rule::Number(n) => Ok(number(n)),
        Rule::Call(name) => call(alloc, name),
    }
}

fn define(
    alloc: Global,
    defs: &mut Defs,
    name: Result<Text, SortFault>,
    body: Result<Term, SortFault>,
) -> Result<(), SortFault> {
    match (name, body) {
        (Ok(name), Ok(body)) => Ok(defs.push(Def {
            name,
            parameters: Names::new(alloc),
            sort: Sort::Int { lo: -9, hi: 9 },
            body,
        })?),
        _ => Err(SortFault::Memory),
    }
}

fn definitions(alloc: Global, rows: &[(&str, Rule)]) -> Result<Defs, SortFault> {
    let mut defs = Defs::new(alloc);
    for row in rows {
        let (name, rule) = *row;
        define(alloc, &mut defs, text(alloc, name), body(alloc, rule))?;
    }
    Ok(defs)
}

/// A call is of the last definition of its name, and those in a body are of definitions before it.
const DEFINITIONS: [(&str, Rule); 3] = [
    ("first", Rule::Number(1)),
    ("again", Rule::Call("first")),
    ("first", Rule::Number(2)),
];

fn called(
    alloc: Global,
    defs: &Result<Defs, SortFault>,
    term: &Result<Term, SortFault>,
) -> Result<Value, SortFault> {
    match (defs, term) {
        (Ok(defs), Ok(term)) => value_over(alloc, defs, &[], &[], term),
        _ => Err(SortFault::Memory),
    }
}

fn call_is(alloc: Global, name: &str, want: i64) -> bool {
    let defs = definitions(alloc, &DEFINITIONS);
    is_number(&called(alloc, &defs, &call(alloc, name)), want)
}

fn calls_give(rt: &impl Abort, alloc: Global, rows: &[(&str, i64)]) {
    for row in rows {
        let (name, want) = *row;
        assert!(rt; call_is(alloc, name, want), "at {name}");
    }
}

const CALLS: [(&str, i64); 2] = [("first", 2), ("again", 1)];

#[test]
fn calls_the_last_definition(rt: HostRuntime) {
    calls_give(&rt, rt.alloc(), &CALLS);
}
