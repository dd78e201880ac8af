//! Other names for binders.
use crate::notation::{are_alike, put_term, terms};
use kid_term::{RenameFault, Term};
use std::alloc::Global;
use std::process::Abort;

fn told(put: Option<()>, fault: Option<RenameFault>) -> Option<Option<RenameFault>> {
    put?;
    Some(fault)
}

// puts what was made or given back, and tells the fault
fn put_result(
    terms: &mut Vec<Term>,
    made: Result<Term, (Term, RenameFault)>,
) -> Option<Option<RenameFault>> {
    match made {
        Ok(term) => told(put_term(terms, term), None),
        Err((term, fault)) => told(put_term(terms, term), Some(fault)),
    }
}

// renames a term to the name that is on top
fn put_named(alloc: Global, terms: &mut Vec<Term>, term: Term) -> Option<Option<RenameFault>> {
    match terms.pop() {
        Some(Term::Var(to)) => put_result(terms, term.rename(alloc, to)),
        _ => None,
    }
}

fn put_renamed(alloc: Global, terms: &mut Vec<Term>) -> Option<Option<RenameFault>> {
    match terms.pop() {
        Some(term) => put_named(alloc, terms, term),
        None => None,
    }
}

// the fault, where what was made or given back is as it should be
fn renamed(alloc: Global, text: &str) -> Option<Option<RenameFault>> {
    let mut terms = terms(alloc, text)?;
    let fault = put_renamed(alloc, &mut terms)?;
    if are_alike(&terms) { Some(fault) } else { None }
}

fn is_renamed(alloc: Global, text: &str) -> bool {
    matches!(renamed(alloc, text), Some(None))
}

fn renames(rt: &impl Abort, alloc: Global, rows: &[&str]) {
    for row in rows {
        assert!(rt; is_renamed(alloc, row), "at {row}");
    }
}

// a term, its new name, and what is made
const RENAMED: [&str; 13] = [
    "Ays<xy z Azs<xz",
    "Ays<yx z Azs<zx",
    "Ays<xw z Azs<xw",
    "Sys!y z Szs!z",
    "Oys<y3 z Ozs<z3",
    "Iys@fy z Izs@fz",
    "Uys?pqy z Uzs?pqz",
    // the new name may stand in the set, and the old one keeps its place there
    "Ays<xy s Ass<xs",
    "Ayy<xy z Azy<xz",
    "AyOzsTy z AzOzsTz",
    // an inner binder of the name keeps its places, but for those in its set
    "AysAyy<xy z AzsAyz<xy",
    "AysAwy<yw z AzsAwz<zw",
    // a deep one, which wants no memory for that
    "AysDy z AzsDz",
];

#[test]
fn renames_binders(rt: HostRuntime) {
    renames(&rt, rt.alloc(), &RENAMED);
}

fn is_kept(alloc: Global, text: &str, want: RenameFault) -> bool {
    matches!(renamed(alloc, text), Some(Some(fault)) if fault == want)
}

fn refuses(rt: &impl Abort, alloc: Global, rows: &[&str], want: RenameFault) {
    for row in rows {
        assert!(rt; is_kept(alloc, row, want), "at {row}");
    }
}

// a term, a new name, and the term as it was
const CAPTURED: [&str; 7] = [
    "Ays<xy x Ays<xy",
    "Ays<yx x Ays<yx",
    "Ays<xy y Ays<xy",
    "AysAzr<yz z AysAzr<yz",
    "AysAar<yOzrT z AysAar<yOzrT",
    "AysAaz<ya z AysAaz<ya",
    "Ays<yAzrT z Ays<yAzrT",
];

#[test]
fn captures_no_name(rt: HostRuntime) {
    refuses(&rt, rt.alloc(), &CAPTURED, RenameFault::Capture);
}

const NO_BINDERS: [&str; 5] = [
    "x z x",
    "3 z 3",
    "E z E",
    "!Ays<xy z !Ays<xy",
    ":9Uysy z :9Uysy",
];

#[test]
fn renames_binders_alone(rt: HostRuntime) {
    refuses(&rt, rt.alloc(), &NO_BINDERS, RenameFault::NoBinder);
}

fn is_told(alloc: Global, fault: RenameFault, want: &str) -> bool {
    matches!(format!(in alloc; "{fault}"), Ok(told) if told.as_str() == want)
}

fn tells(rt: &impl Abort, alloc: Global, rows: &[(RenameFault, &str)]) {
    for row in rows {
        let (fault, want) = *row;
        assert!(rt; is_told(alloc, fault, want), "at {want}");
    }
}

const TOLD: [(RenameFault, &str); 3] = [
    (RenameFault::NoBinder, "the term is no binder"),
    (RenameFault::Capture, "a name would be captured"),
    (RenameFault::Memory, "out of memory"),
];

#[test]
fn tells_its_faults(rt: HostRuntime) {
    tells(&rt, rt.alloc(), &TOLD);
}
