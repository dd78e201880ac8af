//! Free names and bound ones, and a term in their place.
use crate::notation::{are_alike, push, terms};
use kid_term::{Literal, SubstFault, Term};
use std::alloc::Global;
use std::process::Abort;

/// What is asked of a term and a name.
#[derive(Clone, Copy)]
enum Question {
    Mentions,
    Binds,
}

// whether the answer is what the last term says
fn is_answer(question: Question, terms: &[Term]) -> bool {
    match terms {
        [Term::Lit(Literal::Bool(want)), Term::Var(name), term] => match question {
            Question::Mentions => term.mentions(name) == *want,
            Question::Binds => term.binds(name) == *want,
        },
        _ => false,
    }
}

fn is_told(alloc: Global, question: Question, text: &str) -> bool {
    match terms(alloc, text) {
        Some(terms) => is_answer(question, &terms),
        None => false,
    }
}

fn answers(rt: &impl Abort, alloc: Global, question: Question, rows: &[&str]) {
    for row in rows {
        assert!(rt; is_told(alloc, question, row), "at {row}");
    }
}

// a term, a name, and the answer
const MENTIONED: [&str; 22] = [
    "x x T",
    "y x F",
    "x .xx F",
    "3 x F",
    "E x F",
    "<xy x T",
    "<yx x T",
    "?pqx x T",
    "@fx x T",
    // the name of a definition
    "@xy x F",
    ":9x x T",
    "Ays<xy x T",
    "Ays<xy s T",
    "Axs<xy x F",
    "AxsT x F",
    // a binder's name is free in its set
    "Axx<xy x T",
    "AysAxs<xy x F",
    "AxsAys<xy x F",
    "AysAxx<xy x T",
    "<Axs<xyx x T",
    // a tag is no name
    "'x x F",
    "<'xx x T",
];

#[test]
fn mentions_free_names(rt: HostRuntime) {
    answers(&rt, rt.alloc(), Question::Mentions, &MENTIONED);
}

const BOUND: [&str; 14] = [
    "x x F",
    "3 x F",
    "E x F",
    "<xy x F",
    "Axs<xy x T",
    "Ixs3 x T",
    "Ays<xy x F",
    // free in the set
    "Ayx<wy x F",
    "AyOxsTy x T",
    "AysAxsy x T",
    "<Axsya x T",
    "<aAxsy x T",
    "?pqSxsy x T",
    "'x x F",
];

#[test]
fn binds_names(rt: HostRuntime) {
    answers(&rt, rt.alloc(), Question::Binds, &BOUND);
}

fn put_substituted(alloc: Global, terms: &mut Vec<Term>) -> Option<()> {
    match terms.as_slice() {
        [_, new, Term::Var(name), term] => {
            let made = term.substitute(alloc, name, new).ok();
            push(terms, made)
        }
        _ => None,
    }
}

fn substituted(alloc: Global, text: &str) -> Option<bool> {
    let mut terms = terms(alloc, text)?;
    put_substituted(alloc, &mut terms)?;
    Some(are_alike(&terms))
}

fn is_substituted(alloc: Global, text: &str) -> bool {
    matches!(substituted(alloc, text), Some(true))
}

fn substitutes(rt: &impl Abort, alloc: Global, rows: &[&str]) {
    for row in rows {
        assert!(rt; is_substituted(alloc, row), "at {row}");
    }
}

// a term, a name, what is put in its place, and what is made
const SUBSTITUTED: [&str; 14] = [
    "x x z z",
    "y x z y",
    "3 x z 3",
    "E x z E",
    "<xy x z <zy",
    "<yx x z <yz",
    "?pqx x +ab ?pq+ab",
    "<xx x +ab <+ab+ab",
    // the new term is not gone through
    "<xy x +xy <+xyy",
    "@fx x z @fz",
    "@xx x z @xz",
    ":9x x 3 :93",
    "'x x z 'x",
    "<'xx x 'y <'x'y",
];

#[test]
fn substitutes_in_applications(rt: HostRuntime) {
    substitutes(&rt, rt.alloc(), &SUBSTITUTED);
}

const SUBSTITUTED_BELOW_BINDERS: [&str; 12] = [
    "Ays<xy x z Ays<zy",
    "Uys+yx x 3 Uys+y3",
    "Ays<xy s t Ayt<xy",
    "Axs<xy x z Axs<xy",
    // a binder's name is free in its set
    "Axx<xy x z Axz<xy",
    "AysAxs<xy x z AysAxs<xy",
    "AysAxx<xy x z AysAxz<xy",
    "AysAwx<xy x z AysAwz<zy",
    "<Axs<xyx x z <Axs<xyz",
    // the bound name comes into the set alone, or the name is not in the body
    "Ayx<wy x y Ayy<wy",
    "Ays<wy x y Ays<wy",
    // the new term binds the name itself
    "Ays<xy x Ayr<yq Ays<Ayr<yqy",
];

#[test]
fn substitutes_below_binders(rt: HostRuntime) {
    substitutes(&rt, rt.alloc(), &SUBSTITUTED_BELOW_BINDERS);
}

// No clause says how much memory suffices, so a limit that nobody wrote down would show here alone.
const LARGE: [&str; 3] = ["Dx x z Dz", "x x Dz Dz", "Lyx x z Lyz"];

#[test]
fn substitutes_in_large_terms(rt: HostRuntime) {
    substitutes(&rt, rt.alloc(), &LARGE);
}

fn is_capture(fault: Option<SubstFault>) -> bool {
    matches!(fault, Some(SubstFault::Capture))
}

// whether the new term is captured or not as the last one says, and refused just then
fn are_captured(alloc: Global, terms: &[Term]) -> bool {
    match terms {
        [Term::Lit(Literal::Bool(want)), new, Term::Var(name), term] => {
            term.captures(name, new) == *want
                && is_capture(term.substitute(alloc, name, new).err()) == *want
        }
        _ => false,
    }
}

fn is_captured(alloc: Global, text: &str) -> bool {
    match terms(alloc, text) {
        Some(terms) => are_captured(alloc, &terms),
        None => false,
    }
}

fn captures(rt: &impl Abort, alloc: Global, rows: &[&str]) {
    for row in rows {
        assert!(rt; is_captured(alloc, row), "at {row}");
    }
}

// a term, a name, what is put in its place, and whether a name of that is captured
const CAPTURED: [&str; 19] = [
    "Ays<xy x y T",
    "Ays<xy x z F",
    "Ays<xy x <zy T",
    "Ays<xy x Ayr<yq F",
    "Ays<xy x Ayy<yq T",
    "Ays<wy x y F",
    "Ays<yx x y T",
    "Axs<xy x y F",
    "x x y F",
    "E x y F",
    "<aAys<xy x y T",
    "?pqAys<xy x y T",
    // a binder's name is free in its set, and a set may hold a binder
    "Ayx<wy x y F",
    "AaOys<xy<ab x y T",
    "AxOys<xy<ax x y T",
    "AasAys<xy x y T",
    "AysAas<xa x y T",
    "AxsAys<xy x y F",
    "AysAxs<xy x y F",
];

#[test]
fn finds_and_refuses_captures(rt: HostRuntime) {
    captures(&rt, rt.alloc(), &CAPTURED);
}

fn prints(alloc: Global, fault: SubstFault, want: &str) -> bool {
    matches!(format!(in alloc; "{fault}"), Ok(told) if told.as_str() == want)
}

fn tells(rt: &impl Abort, alloc: Global, rows: &[(SubstFault, &str)]) {
    for row in rows {
        let (fault, want) = *row;
        assert!(rt; prints(alloc, fault, want), "at {want}");
    }
}

const TOLD: [(SubstFault, &str); 2] = [
    (SubstFault::Capture, "a name would be captured"),
    (SubstFault::Memory, "out of memory"),
];

#[test]
fn tells_its_faults(rt: HostRuntime) {
    tells(&rt, rt.alloc(), &TOLD);
}
