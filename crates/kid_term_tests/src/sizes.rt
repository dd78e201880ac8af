//! How large and how deep terms are, what they hold, and terms without free names.
use crate::notation::{is, terms};
use kid_term::{Literal, Term};
use std::alloc::Global;
use std::process::Abort;

fn are_measured(terms: &[Term], nodes: u64, depth: u64) -> bool {
    match terms {
        [term] => term.nodes() == nodes && term.depth() == depth,
        _ => false,
    }
}

fn is_measured(alloc: Global, text: &str, nodes: u64, depth: u64) -> bool {
    match terms(alloc, text) {
        Some(terms) => are_measured(&terms, nodes, depth),
        None => false,
    }
}

fn measures(rt: &impl Abort, alloc: Global, rows: &[(&str, u64, u64)]) {
    for row in rows {
        let (it, nodes, depth) = *row;
        assert!(rt; is_measured(alloc, it, nodes, depth), "at {it}");
    }
}

const MEASURED: [(&str, u64, u64); 16] = [
    ("x", 1, 1),
    ("3", 1, 1),
    ("T", 1, 1),
    ("E", 1, 1),
    ("!x", 2, 2),
    ("<xy", 3, 2),
    ("?!xpq", 5, 3),
    ("?pq!x", 5, 3),
    ("?p!qx", 5, 3),
    ("$fxy", 3, 2),
    (":9x", 2, 2),
    ("Ays<xy", 5, 3),
    ("AyOxsTy", 5, 3),
    ("AyOxsT!!y", 7, 4),
    ("'x", 1, 1),
    ("!'x", 2, 2),
];

#[test]
fn measures_terms(rt: HostRuntime) {
    measures(&rt, rt.alloc(), &MEASURED);
}

/// What is asked of a term.
#[derive(Clone, Copy)]
enum Question {
    HoldsWordOperator,
    IsClosed,
}

// whether the answer is what the last term says
fn is_answer(question: Question, terms: &[Term]) -> bool {
    match terms {
        [Term::Lit(Literal::Bool(want)), term] => match question {
            Question::HoldsWordOperator => term.holds_word_operator() == *want,
            Question::IsClosed => term.is_closed() == *want,
        },
        _ => false,
    }
}

fn is_told(alloc: Global, question: Question, text: &str) -> bool {
    match terms(alloc, text) {
        Some(terms) => is_answer(question, &terms),
        None => false,
    }
}

fn answers(rt: &impl Abort, alloc: Global, question: Question, rows: &[&str]) {
    for row in rows {
        assert!(rt; is_told(alloc, question, row), "at {row}");
    }
}

const OF_WORDS: [&str; 15] = [
    "Ixs#r T",
    "Ays<xy F",
    "#r T",
    "!#r T",
    "<#rx T",
    "?pq#r T",
    "@f#r T",
    ":9#r T",
    "Ay#rT T",
    "Ays<x#r T",
    "x F",
    "3 F",
    "E F",
    "@wx F",
    ":9x F",
];

#[test]
fn holds_word_operators(rt: HostRuntime) {
    answers(&rt, rt.alloc(), Question::HoldsWordOperator, &OF_WORDS);
}

const CLOSED: [&str; 11] = [
    "3 T",
    "'x T",
    "x F",
    "+1x F",
    "@f1 T",
    "AxE<x1 T",
    "Axs<x1 F",
    "AxxT F",
    "AxE<xy F",
    "AxEAyE<xy T",
    "!AyOxETx F",
];

#[test]
fn tells_what_is_closed(rt: HostRuntime) {
    answers(&rt, rt.alloc(), Question::IsClosed, &CLOSED);
}

// the parts are read from the last to the first
fn are_items(found: &[Term], wants: &[Term]) -> bool {
    if found.len() != wants.len() {
        return false;
    }
    for (found, want) in found.iter().zip(wants.iter().rev()) {
        if !is(found, want) {
            return false;
        }
    }
    true
}

// whether the arguments of an application, or the set and the body of a binder, are these
fn are_parts(term: &Term, wants: &[Term]) -> bool {
    match term {
        Term::App(_, args) => are_items(args.items(), wants) && args.len() == wants.len(),
        Term::Bind(_, _, set, body) => match wants {
            [second, first] => is(set.get(), first) && is(body.get(), second),
            _ => false,
        },
        _ => wants.is_empty(),
    }
}

fn are_children(terms: &[Term]) -> bool {
    match terms {
        [wants @ .., term] => are_parts(term, wants),
        _ => false,
    }
}

fn is_taken_apart(alloc: Global, text: &str) -> bool {
    match terms(alloc, text) {
        Some(terms) => are_children(&terms),
        None => false,
    }
}

fn takes_apart(rt: &impl Abort, alloc: Global, rows: &[&str]) {
    for row in rows {
        assert!(rt; is_taken_apart(alloc, row), "at {row}");
    }
}

// a term, and its parts
const CHILDREN: [&str; 6] = [
    "x",
    "E",
    "!x x",
    "?p!qx p !q x",
    "Ays<xy s <xy",
    "UyOxsT3 OxsT 3",
];

#[test]
fn takes_terms_apart(rt: HostRuntime) {
    takes_apart(&rt, rt.alloc(), &CHILDREN);
}
