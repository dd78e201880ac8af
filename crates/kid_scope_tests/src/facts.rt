//! Facts by their numbers, and what they make of terms.
use crate::notation::{Given, is_made, is_refused, term_of, terms_of};
use kid_scope::{lies_at_most, lies_below, stands_in, use_fact};
use kid_term::{Term, Terms, Why};
use kid_value::Sort;
use std::alloc::Global;
use std::process::Abort;

fn used_in(
    alloc: Global,
    facts: Option<Terms>,
    number: u32,
    back: bool,
    term: Option<Term>,
) -> Given {
    match (facts, term) {
        (Some(facts), Some(term)) => Some(use_fact(alloc, facts.items(), number, back, &term)),
        _ => None,
    }
}

// the facts are q, (eq a b) and (lt a b)
fn used(alloc: Global, number: u32, back: bool, it: &str) -> Given {
    let facts = terms_of(alloc, "q=ab<ab");
    used_in(alloc, facts, number, back, term_of(alloc, it))
}

// the number of a fact, whether it is used backwards, a term, and the new one
const USED: [(u32, bool, &str, &str); 4] = [
    (1, false, "q", "T"),
    (2, false, "a", "b"),
    (2, true, "b", "a"),
    (3, false, "<ab", "T"),
];

#[test]
fn uses(rt: HostRuntime) {
    for row in USED.iter() {
        let (number, back, it, want) = *row;
        let given = used(rt.alloc(), number, back, it);
        assert!(&rt; is_made(rt.alloc(), given, want), "{number} at {it}");
    }
}

const NO_MATCH: [(u32, bool, &str); 7] = [
    (0, false, "q"),
    (4, false, "q"),
    (1, true, "q"),
    (1, false, "a"),
    (2, false, "b"),
    (2, true, "a"),
    (2, false, "=ab"),
];

#[test]
fn uses_nothing(rt: HostRuntime) {
    for row in NO_MATCH.iter() {
        let (number, back, it) = *row;
        let given = used(rt.alloc(), number, back, it);
        assert!(&rt; is_refused(given, Why::NoMatch), "{number} at {it}");
    }
}

fn is_there(term: Option<Term>, facts: Option<Terms>) -> bool {
    match (term, facts) {
        (Some(term), Some(facts)) => stands_in(&term, facts.items()),
        _ => false,
    }
}

#[test]
fn stands(rt: HostRuntime) {
    let facts = terms_of(rt.alloc(), "q=ab");
    assert!(&rt;
        is_there(term_of(rt.alloc(), "=ab"), facts),
        "it is the second"
    );
    let facts = terms_of(rt.alloc(), "q=ab");
    assert!(&rt;
        !is_there(term_of(rt.alloc(), "=ba"), facts),
        "it is turned"
    );
}

#[test]
fn lies(rt: HostRuntime) {
    let low = Sort::Int { lo: 0, hi: 3 };
    let high = Sort::Int { lo: 3, hi: 5 };
    assert!(&rt; lies_at_most(&low, &high), "3 is at most 3");
    assert!(&rt; !lies_below(&low, &high), "3 is not less than 3");
    assert!(&rt; !lies_at_most(&high, &low), "5 is more than 0");
    assert!(&rt;
        !lies_below(&low, &Sort::Bool),
        "a truth value has no bounds"
    );
}
