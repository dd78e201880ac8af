//! What the tests build. An argument is a word: a number, `'red`, which is a tag, or a name. A term stands in a list of its own, which
//! is dropped by one call, where a term opens all its forms. `None` is want of memory.
use crate::sort_words::sorts;
use kid_term::{Binder, BoxedTerm, Def, Head, Literal, NumberOp, Op, Term, Terms};
use kid_value::{Names, Sort, Text};
use std::alloc::Global;

pub fn text(alloc: Global, word: &[u8]) -> Option<Text> {
    Text::from_slice(alloc, word).ok()
}

fn add(alloc: Global, names: &mut Names, word: &str, sort: &str) -> Option<()> {
    let mut sorts = sorts(alloc, sort)?;
    let name = text(alloc, word.as_bytes())?;
    match sorts.pop() {
        Some(sort) => names.push(name, sort).ok(),
        None => None,
    }
}

/// Names with their sorts.
pub fn names(alloc: Global, rows: &[(&str, &str)]) -> Option<Names> {
    let mut names = Names::new(alloc);
    for row in rows {
        add(alloc, &mut names, row.0, row.1)?;
    }
    Some(names)
}

fn put(terms: &mut Vec<Term>, term: Term) -> Option<()> {
    terms.push(term).ok()
}

pub fn push(terms: &mut Vec<Term>, term: Option<Term>) -> Option<()> {
    match term {
        Some(term) => put(terms, term),
        None => None,
    }
}

fn var(name: Option<Text>) -> Option<Term> {
    Some(Term::Var(name?))
}

pub fn tag(name: Option<Text>) -> Option<Term> {
    Some(Term::Lit(Literal::Tag(name?)))
}

fn worded(alloc: Global, word: &[u8]) -> Option<Term> {
    match word.split_first() {
        Some((b'\'', name)) => tag(text(alloc, name)),
        _ => var(text(alloc, word)),
    }
}

fn argument(alloc: Global, word: &str) -> Option<Term> {
    match word.parse::<i64>() {
        Ok(n) => Some(Term::Lit(Literal::Int(n))),
        Err(_) => worded(alloc, word.as_bytes()),
    }
}

/// The arguments, one a word.
pub fn arguments(alloc: Global, words: &str) -> Option<Vec<Term>> {
    let mut terms = Vec::new(alloc);
    for word in words.split_ascii_whitespace() {
        push(&mut terms, argument(alloc, word))?;
    }
    Some(terms)
}

/// The head at the arguments.
pub fn headed(alloc: Global, head: Head, args: Vec<Term>) -> Option<Vec<Term>> {
    let mut terms = Vec::new(alloc);
    put(&mut terms, Term::App(head, Terms::from_vec(args)))?;
    Some(terms)
}

/// The operator at the arguments.
pub fn applied(alloc: Global, op: Op, words: &str) -> Option<Vec<Term>> {
    headed(alloc, Head::Op(op), arguments(alloc, words)?)
}

/// The call of a definition at the arguments.
pub fn call(alloc: Global, name: &str, words: &str) -> Option<Vec<Term>> {
    let args = arguments(alloc, words)?;
    let name = text(alloc, name.as_bytes())?;
    headed(alloc, Head::Call(name), args)
}

/// The cast of the argument.
pub fn cast(alloc: Global, to: &str, words: &str) -> Option<Vec<Term>> {
    let args = arguments(alloc, words)?;
    let mut sorts = sorts(alloc, to)?;
    match sorts.pop() {
        Some(sort) => headed(alloc, Head::Cast(sort), args),
        None => None,
    }
}

fn boxed(alloc: Global, term: Option<Term>) -> Option<BoxedTerm> {
    BoxedTerm::new(alloc, term?).ok()
}

/// The binder of a name over a set, with a body: the last two of the terms.
pub fn bind(alloc: Global, binder: Binder, word: &str, mut parts: Vec<Term>) -> Option<Vec<Term>> {
    let body = boxed(alloc, parts.pop())?;
    let set = boxed(alloc, parts.pop())?;
    let name = text(alloc, word.as_bytes())?;
    put(&mut parts, Term::Bind(binder, name, set, body))?;
    Some(parts)
}

/// 1 below so many negations.
pub fn negations(alloc: Global, count: u32) -> Option<Vec<Term>> {
    let mut terms = arguments(alloc, "1")?;
    for _ in 0..count {
        terms = headed(alloc, Head::Op(Op::Number(NumberOp::Neg)), terms)?;
    }
    Some(terms)
}

fn defined(name: Text, parameters: Names, sort: Sort, body: Option<Term>) -> Option<Def> {
    match body {
        Some(body) => Some(Def {
            name,
            parameters,
            sort,
            body,
        }),
        None => None,
    }
}

/// The word, or 1 below so many negations where there is none.
pub fn term(alloc: Global, word: &str, count: u32) -> Option<Vec<Term>> {
    if word.is_empty() {
        negations(alloc, count)
    } else {
        arguments(alloc, word)
    }
}

/// The definition of f over x, with the sorts of x and of f and a body that `term` makes.
pub fn definition(alloc: Global, of_x: &str, of_f: &str, word: &str, count: u32) -> Option<Def> {
    let name = text(alloc, b"f")?;
    let parameters = names(alloc, &[("x", of_x)])?;
    let mut sorts = sorts(alloc, of_f)?;
    let mut bodies = term(alloc, word, count)?;
    match sorts.pop() {
        Some(sort) => defined(name, parameters, sort, bodies.pop()),
        None => None,
    }
}
