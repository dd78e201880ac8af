//! Calls of a definition f of x, opened and closed again.
use crate::notation::{Given, is_made, is_refused, term_of, terms_of};
use kid_scope::{fold_call, unfold_call};
use kid_term::{Def, Defs, Term, Terms, Why};
use kid_value::{Names, Sort, Text};
use std::alloc::Global;
use std::process::Abort;

fn named(alloc: Global, letter: u8) -> Option<Text> {
    Text::from_slice(alloc, &[letter]).ok()
}

fn one_name(alloc: Global, name: Option<Text>) -> Option<Names> {
    let mut names = Names::new(alloc);
    names.push(name?, Sort::Bool).ok()?;
    Some(names)
}

fn definition(name: Option<Text>, parameters: Option<Names>, body: Option<Term>) -> Option<Def> {
    match (name, parameters, body) {
        (Some(name), Some(parameters), Some(body)) => Some(Def {
            name,
            parameters,
            sort: Sort::Bool,
            body,
        }),
        _ => None,
    }
}

fn alone(alloc: Global, def: Option<Def>) -> Option<Defs> {
    let mut defs = Defs::new(alloc);
    defs.push(def?).ok()?;
    Some(defs)
}

fn defined(alloc: Global, body: &str) -> Option<Defs> {
    let parameters = one_name(alloc, named(alloc, b'x'));
    let def = definition(named(alloc, b'f'), parameters, term_of(alloc, body));
    alone(alloc, def)
}

fn unfolded_in(alloc: Global, defs: Option<Defs>, term: Option<Term>) -> Given {
    match (defs, term) {
        (Some(defs), Some(term)) => Some(unfold_call(alloc, &defs, &term)),
        _ => None,
    }
}

fn unfolded(alloc: Global, body: &str, it: &str) -> Given {
    unfolded_in(alloc, defined(alloc, body), term_of(alloc, it))
}

fn folded_in(
    alloc: Global,
    defs: Option<Defs>,
    name: Option<Text>,
    back: bool,
    args: Option<Terms>,
    term: Option<Term>,
) -> Given {
    match (defs, name, args, term) {
        (Some(defs), Some(name), Some(args), Some(term)) => {
            Some(fold_call(alloc, &defs, &name, back, &args, &term))
        }
        _ => None,
    }
}

fn turned(alloc: Global, body: &str, letter: u8, back: bool, args: &str, it: &str) -> Given {
    let defs = defined(alloc, body);
    let name = named(alloc, letter);
    let args = terms_of(alloc, args);
    folded_in(alloc, defs, name, back, args, term_of(alloc, it))
}

fn folded(alloc: Global, body: &str, letter: u8, args: &str, it: &str) -> Given {
    turned(alloc, body, letter, false, args, it)
}

// the body of f of x, a term, and what it is opened to
const OPENED: [(&str, &str, &str); 4] = [
    ("+xx", "@fa", "+aa"),
    ("3", "@fa", "3"),
    ("Azs<zx", "@fa", "Azs<za"),
    ("Axs<xy", "@fa", "Axs<xy"),
];

#[test]
fn opens(rt: HostRuntime) {
    for row in OPENED.iter() {
        let (body, it, want) = *row;
        let given = unfolded(rt.alloc(), body, it);
        assert!(&rt; is_made(rt.alloc(), given, want), "{it} over {body}");
    }
}

#[test]
fn opens_nothing(rt: HostRuntime) {
    let bound = unfolded(rt.alloc(), "Azs<zx", "@fz");
    assert!(&rt; is_refused(bound, Why::Capture), "z would be bound");
    let other = unfolded(rt.alloc(), "+xx", "@ga");
    assert!(&rt; is_refused(other, Why::NoMatch), "no definition");
    let name = unfolded(rt.alloc(), "+xx", "a");
    assert!(&rt; is_refused(name, Why::NoMatch), "no call");
}

// the body of f of x, an argument, and the body at it
const CLOSED: [(&str, &str, &str, &str); 3] = [
    ("+xx", "a", "+aa", "@fa"),
    ("+xx", "+ab", "++ab+ab", "@f+ab"),
    ("Azs<zx", "a", "Azs<za", "@fa"),
];

#[test]
fn closes(rt: HostRuntime) {
    for row in CLOSED.iter() {
        let (body, args, it, want) = *row;
        let given = folded(rt.alloc(), body, b'f', args, it);
        assert!(&rt; is_made(rt.alloc(), given, want), "{it} over {body}");
    }
}

#[test]
fn closes_nothing(rt: HostRuntime) {
    let unknown = folded(rt.alloc(), "+xx", b'g', "a", "+aa");
    assert!(&rt; is_refused(unknown, Why::UnknownLaw), "no definition");
    let other = folded(rt.alloc(), "+xx", b'f', "a", "+ab");
    assert!(&rt; is_refused(other, Why::NoMatch), "another term");
    let bound = folded(rt.alloc(), "Azs<zx", b'f', "z", "Azs<zz");
    assert!(&rt; is_refused(bound, Why::NoMatch), "z would be bound");
    let two = folded(rt.alloc(), "+xx", b'f', "ab", "+aa");
    assert!(&rt; is_refused(two, Why::NoMatch), "two arguments");
}

#[test]
fn closes_nothing_back(rt: HostRuntime) {
    let body = turned(rt.alloc(), "+xx", b'f', true, "a", "+aa");
    assert!(&rt; is_refused(body, Why::NoMatch), "the body");
    let call = turned(rt.alloc(), "+xx", b'f', true, "a", "@fa");
    assert!(&rt; is_refused(call, Why::NoMatch), "the call");
    let unknown = turned(rt.alloc(), "+xx", b'g', true, "a", "+aa");
    assert!(&rt; is_refused(unknown, Why::UnknownLaw), "no definition");
}
