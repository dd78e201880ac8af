//! What operators let be assumed of their arguments.
use crate::notation::{is_spelled, term_of};
use kid_scope::assumptions;
use kid_term::{Term, Terms};
use kid_value::Memory;
use std::alloc::Global;
use std::process::Abort;

fn assumed(alloc: Global, term: &Term, place: u32) -> Option<Result<Terms, Memory>> {
    match term {
        Term::App(head, args) => Some(assumptions(alloc, head, place, args)),
        _ => None,
    }
}

fn assumed_in(alloc: Global, term: Option<Term>, place: u32) -> Option<Result<Terms, Memory>> {
    assumed(alloc, &term?, place)
}

fn are_told(alloc: Global, terms: &Terms, want: &str) -> bool {
    match terms.items() {
        [] => want.is_empty(),
        [one] => is_spelled(alloc, one, want),
        _ => false,
    }
}

fn is_told(alloc: Global, found: Option<Result<Terms, Memory>>, want: &str) -> bool {
    match found {
        Some(Ok(terms)) => are_told(alloc, &terms, want),
        _ => false,
    }
}

// a term, a place among its arguments, and what is assumed there
const ASSUMED: [(&str, u32, &str); 10] = [
    ("&pq", 0, ""),
    ("&pq", 1, "p"),
    (">pq", 0, ""),
    (">pq", 1, "p"),
    ("?pab", 0, ""),
    ("?pab", 1, "p"),
    ("?pab", 2, "!p"),
    ("?!pab", 2, "!!p"),
    ("=ab", 1, ""),
    ("@fa", 0, ""),
];

#[test]
fn assumes(rt: HostRuntime) {
    for row in ASSUMED.iter() {
        let (it, place, want) = *row;
        let found = assumed_in(rt.alloc(), term_of(rt.alloc(), it), place);
        assert!(&rt; is_told(rt.alloc(), found, want), "{it} at {place}");
    }
}
