//! Patterns that are a term, and patterns that are not.
use crate::notation::{has_terms, matched};
use kid_laws::Subst;
use std::alloc::Global;
use std::process::Abort;

fn is_found(alloc: Global, found: &Option<Option<Subst>>, names: &str, terms: &str) -> bool {
    match found {
        Some(Some(subst)) => has_terms(alloc, subst, names, terms),
        _ => false,
    }
}

// the pattern, its variables and the term; which names have which terms before; and which have which after
type Found = (
    &'static str,
    &'static str,
    &'static str,
    &'static str,
    &'static str,
    &'static str,
    &'static str,
);

const FOUND: [Found; 22] = [
    ("a", "a", "+xy", "", "", "a", "+xy"),
    ("x", "", "x", "", "", "", ""),
    ("3", "a", "3", "", "", "", ""),
    ("T", "", "T", "", "", "", ""),
    ("'a", "a", "'a", "", "", "", ""),
    ("+ab", "ab", "+x3", "", "", "ab", "x3"),
    // a variable that stands twice
    ("+aa", "a", "+*xy*xy", "", "", "a", "*xy"),
    // a variable may stand for itself, or for another one
    ("+ab", "ab", "+ba", "", "", "ab", "ba"),
    // other names stand for themselves
    ("+ax", "a", "+3x", "", "", "a", "3"),
    // terms that stand before are kept, also for names that are no variables
    ("+ab", "ab", "+34", "a", "3", "ab", "34"),
    ("+ax", "a", "+34", "x", "4", "xa", "43"),
    ("a", "a", "3", "b", "4", "ba", "43"),
    // more variables than the pattern has get no terms
    ("a", "abc", "3", "", "", "a", "3"),
    ("{a", "a", "{3", "", "", "a", "3"),
    ("E", "a", "E", "", "", "", ""),
    ("?pab", "pab", "?T12", "", "", "pab", "T12"),
    // a binder has its name
    ("Ayst", "st", "Ay{3T", "", "", "st", "{3T"),
    ("Ays<ya", "sa", "Ayt<y3", "", "", "sa", "t3"),
    // a variable that is bound stands for itself, and is one outside
    ("Axx<xa", "xa", "Axs<x3", "", "", "xa", "s3"),
    ("Axs<xa", "xsa", "Axt<x3", "", "", "sa", "t3"),
    // a name that is bound elsewhere is not captured
    ("&aAysb", "asb", "&yAyt3", "", "", "asb", "yt3"),
    ("AxsAyta", "sta", "AxsAyt+z3", "", "", "sta", "st+z3"),
];

#[test]
fn terms_are_found(rt: HostRuntime) {
    for row in &FOUND {
        let (pattern, variables, term, names, terms, after, found) = *row;
        let it = matched(rt.alloc(), pattern, variables, term, names, terms);
        assert!(rt;
            is_found(rt.alloc(), &it, after, found),
            "{pattern} for {term}"
        );
    }
}

fn is_none(found: &Option<Option<Subst>>) -> bool {
    match found {
        Some(None) => true,
        _ => false,
    }
}

type Refused = (
    &'static str,
    &'static str,
    &'static str,
    &'static str,
    &'static str,
);

const REFUSED: [Refused; 23] = [
    ("x", "", "y", "", ""),
    ("x", "", "3", "", ""),
    ("3", "a", "4", "", ""),
    ("T", "", "F", "", ""),
    ("3", "", "T", "", ""),
    ("'a", "a", "'b", "", ""),
    // one variable for two terms
    ("+aa", "a", "+34", "", ""),
    ("+aa", "a", "+3x", "", ""),
    ("?paa", "pa", "?T12", "", ""),
    // a term that stood before
    ("+ab", "ab", "+34", "a", "5"),
    ("+ax", "a", "+3x", "x", "4"),
    // another head, or another number of arguments
    ("+ab", "ab", "*34", "", ""),
    ("+ab", "ab", "&34", "", ""),
    ("{a", "a", "E", "", ""),
    ("E", "a", "{3", "", ""),
    ("+ab", "ab", "3", "", ""),
    ("+ab", "ab", "x", "", ""),
    // another binder, another name, or no binder
    ("Aysp", "sp", "SytT", "", ""),
    ("Aysp", "sp", "AztT", "", ""),
    ("Aysp", "sp", "+34", "", ""),
    ("+ab", "ab", "AytT", "", ""),
    // a name would be captured
    ("Aysp", "sp", "Ayt<y3", "", ""),
    ("AxsAyta", "sta", "AxsAyt+x3", "", ""),
];

#[test]
fn none_are_found(rt: HostRuntime) {
    for row in &REFUSED {
        let (pattern, variables, term, names, terms) = *row;
        let it = matched(rt.alloc(), pattern, variables, term, names, terms);
        assert!(rt; is_none(&it), "{pattern} for {term}");
    }
}
