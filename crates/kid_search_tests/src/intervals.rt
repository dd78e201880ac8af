//! What the search of an interval answers, its refusals in their order.
use kid_search::building::on_term_number;
use kid_search::{Range, SearchTheory};
use kid_term::{Literal, NumberOp, Op, Term, Terms, Why};
use kid_value::{Memory, Names, Sort, Text, sort_ok};
use std::alloc::Global;

const TOP: i64 = 4611686018427387904;

const HALF: i64 = 2305843009213693952;

/// The output's bounds, how many names and terms there are, how deep the terms are, and the answer. The terms have sorts from 0 to 9.
const ROWS: [(i64, i64, u32, u32, u32, &str); 10] = [
    (0, 9, 2, 2, 1, "ok"),
    (0, 9, 1, 2, 1, "outside"),
    (0, 9, 2, 3, 1, "outside"),
    (1, 9, 2, 1, 127, "outside"),
    (1, 9, 2, 2, 127, "ill-sorted"),
    (0, TOP, 2, 2, 127, "ill-sorted"),
    (0, HALF, 2, 2, 127, "limit"),
    (0, HALF, 2, 2, 126, "ill-sorted"),
    (0, 2305843009213693951, 2, 2, 126, "ok"),
    (0, 2305843009213693951, 2, 2, 127, "limit"),
];

fn names(alloc: Global, count: u32) -> Result<Names, Memory> {
    let mut names = Names::new(alloc);
    for _ in 0..count {
        names.push(Text::from_slice(alloc, b"l")?, Sort::Int { lo: 0, hi: 9 })?;
    }
    Ok(names)
}

/// A term of this depth, from 1 on.
fn term(alloc: Global, depth: u32) -> Result<Term, Memory> {
    let mut term = Term::Lit(Literal::Int(0));
    for _ in 1..depth {
        term = on_term_number(alloc, Op::Number(NumberOp::Add), term, &0)?;
    }
    Ok(term)
}

fn terms(alloc: Global, count: u32, depth: u32) -> Result<Terms, Memory> {
    let mut terms = Terms::new(alloc);
    for _ in 0..count {
        terms.push(term(alloc, depth)?)?;
    }
    Ok(terms)
}

fn word(why: Why) -> &'static str {
    match why {
        Why::Outside => "outside",
        Why::IllSorted => "ill-sorted",
        Why::Limit => "limit",
        _ => "another",
    }
}

fn answer(
    alloc: Global,
    output: &Sort,
    names: &Names,
    terms: &Terms,
) -> Result<&'static str, Memory> {
    let z = Text::from_slice(alloc, b"z")?;
    if !sort_ok(output) {
        return Ok("no sort");
    }
    match Range.pieces(alloc, output, &z, names, terms) {
        Ok(_) => Ok("ok"),
        Err(why) => Ok(word(why)),
    }
}

/// Whether the answer to a row is the one that it tells.
fn is_answered(alloc: Global, row: &(i64, i64, u32, u32, u32, &str)) -> Result<bool, Memory> {
    let names = names(alloc, row.2)?;
    let terms = terms(alloc, row.3, row.4)?;
    let output = Sort::Int {
        lo: row.0,
        hi: row.1,
    };
    let found = answer(alloc, &output, &names, &terms)?;
    Ok(found == row.5)
}

fn all_answered(alloc: Global, rows: &[(i64, i64, u32, u32, u32, &str)]) -> bool {
    for row in rows {
        if !matches!(is_answered(alloc, row), Ok(true)) {
            return false;
        }
    }
    true
}

#[test]
fn refusals_come_in_their_order(rt: HostRuntime) {
    assert!(rt; all_answered(rt.alloc(), &ROWS));
}
