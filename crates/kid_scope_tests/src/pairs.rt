//! Parameters with their arguments, put into terms.
use crate::notation::{is_spelled, term_of, terms_of};
use kid_scope::paired;
use kid_term::{Subst, Term, Terms};
use kid_value::{Names, Sort, Text};
use std::alloc::Global;
use std::process::Abort;

fn add(alloc: Global, names: &mut Names, letter: u8) -> Option<()> {
    let name = Text::from_slice(alloc, &[letter]).ok()?;
    names.push(name, Sort::Bool).ok()
}

fn named(alloc: Global, letters: &str) -> Option<Names> {
    let mut names = Names::new(alloc);
    for letter in letters.as_bytes().iter() {
        add(alloc, &mut names, *letter)?;
    }
    Some(names)
}

fn as_many(alloc: Global, parameters: &[(Text, Sort)], args: &[Term]) -> Option<Subst> {
    if args.len() != parameters.len() {
        return None;
    }
    paired(alloc, parameters, args).ok()
}

fn pairs_of(alloc: Global, names: Option<Names>, args: Option<Terms>) -> Option<Subst> {
    match (names, args) {
        (Some(names), Some(args)) => as_many(alloc, names.items(), args.items()),
        _ => None,
    }
}

fn put(alloc: Global, pairs: Option<Subst>, it: Option<Term>) -> Option<Term> {
    match (pairs, it) {
        (Some(pairs), Some(it)) => it.substitute_all(alloc, &pairs).ok(),
        _ => None,
    }
}

fn puts(alloc: Global, letters: &str, args: &str, it: &str, want: &str) -> bool {
    let pairs = pairs_of(alloc, named(alloc, letters), terms_of(alloc, args));
    match put(alloc, pairs, term_of(alloc, it)) {
        Some(found) => is_spelled(alloc, &found, want),
        None => false,
    }
}

// parameters, arguments, a term, and what it is with these in those places
const PAIRS: [(&str, &str, &str, &str); 5] = [
    ("", "", "+xy", "+xy"),
    ("x", "a", "+xy", "+ay"),
    ("xy", "ab", "+xy", "+ab"),
    ("xy", "yx", "+xy", "+yx"),
    ("xy", "+abb", "<xy", "<+abb"),
];

#[test]
fn pairs(rt: HostRuntime) {
    for row in PAIRS.iter() {
        let (letters, args, it, want) = *row;
        assert!(&rt;
            puts(rt.alloc(), letters, args, it, want),
            "{it} with {args} for {letters}"
        );
    }
}
