//! What the tests build: names and values of numbers, and terms.
use kid_sorting::SortFault;
use kid_term::{Literal, Term};
use kid_value::{Names, Sort, Text, Value, Values};
use std::alloc::Global;

pub fn text(alloc: Global, word: &str) -> Result<Text, SortFault> {
    Ok(Text::from_slice(alloc, word.as_bytes())?)
}

pub fn number(n: i64) -> Term {
    Term::Lit(Literal::Int(n))
}

pub fn var(alloc: Global, word: &str) -> Result<Term, SortFault> {
    Ok(Term::Var(text(alloc, word)?))
}

/// One more name, of the numbers from -9 to 9.
pub fn add_name(alloc: Global, names: &mut Names, word: &str) -> Result<(), SortFault> {
    let name = text(alloc, word)?;
    Ok(names.push(name, Sort::Int { lo: -9, hi: 9 })?)
}

pub fn add_number(values: &mut Values, n: i64) -> Result<(), SortFault> {
    Ok(values.push(Value::Int(n))?)
}
