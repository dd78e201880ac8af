//! Laws at work on terms, and why they do nothing.
use crate::notation::{are_spelled, is_spelled, letters, single, terms};
use kid_laws::{Applied, ApplyFault, apply, conclude, matched_terms};
use kid_term::{Term, Terms};
use kid_value::Texts;
use std::alloc::Global;
use std::process::Abort;

type Answer = Option<Result<Applied, ApplyFault>>;

fn applied_to(
    alloc: Global,
    law: u8,
    back: bool,
    term: Option<Term>,
    args: Option<Terms>,
) -> Answer {
    match (term, args) {
        (Some(term), Some(args)) => Some(apply(alloc, law, back, &term, args.items())),
        _ => None,
    }
}

fn applied(alloc: Global, law: u8, back: bool, term: &str, args: &str) -> Answer {
    applied_to(alloc, law, back, single(alloc, term), terms(alloc, args))
}

fn concluded_of(alloc: Global, law: u8, given: Option<Terms>) -> Answer {
    Some(conclude(alloc, law, given?.items()))
}

fn concluded(alloc: Global, law: u8, given: &str) -> Answer {
    concluded_of(alloc, law, terms(alloc, given))
}

fn answers(alloc: Global, found: &Answer, conditions: &str, term: &str) -> bool {
    match found {
        Some(Ok(it)) => {
            are_spelled(alloc, &it.conditions, conditions) && is_spelled(alloc, &it.term, term)
        }
        _ => false,
    }
}

fn is_refused(found: &Answer, want: ApplyFault) -> bool {
    match found {
        Some(Err(fault)) => *fault == want,
        _ => false,
    }
}

// the number and the direction, the term and the arguments, the conditions one behind the other and the new term
const APPLIED: [(u8, bool, &str, &str, &str, &str); 17] = [
    (1, false, "&<bc!a", "", "", "&!a<bc"),
    (1, true, "&<bc!a", "", "", "&!a<bc"),
    (14, false, "+ab", "", "", "+ba"),
    (16, false, "+*bd0", "", "", "*bd"),
    (16, true, "*bd", "", "", "+*bd0"),
    (16, true, "+x0", "", "", "++x00"),
    (23, false, "L+x1y", "", "", "!<y+x1"),
    (23, true, "!<y+x1", "", "", "L+x1y"),
    // a variable that stands twice
    (24, false, "<+31+x1", "", "", "<3x"),
    (40, false, "U^3{b", "", "!~3{b", "+U{b3"),
    // the argument is for the variable that does not stand in the side
    (5, true, "F", "<ab", "", "&<abF"),
    (24, true, "<3x", "1", "", "<+31+x1"),
    (45, false, "@wix", "v", "Pvw~iR1#v", "@vix"),
    (45, false, "@v3x", ";w1", "P;w1v~3R1#;w1", "@;w13x"),
    (45, true, "@vix", "w", "Pvw~iR1#v", "@wix"),
    // several arguments, in the order of the variables
    (20, true, "7", "Qnab38", "", "GQQnab3738"),
    (46, true, "2", "w1", "", "@;w2+#w11"),
];

#[test]
fn equations_are_applied(rt: HostRuntime) {
    for row in &APPLIED {
        let (law, back, term, args, conditions, new) = *row;
        let found = applied(rt.alloc(), law, back, term, args);
        assert!(rt;
            answers(rt.alloc(), &found, conditions, new),
            "law {law} at {term}"
        );
    }
}

const NOT_APPLIED: [(u8, bool, &str, &str, ApplyFault); 22] = [
    (0, false, "&pq", "", ApplyFault::NoLaw),
    (49, false, "&pq", "", ApplyFault::NoLaw),
    (255, true, "&pq", "", ApplyFault::NoLaw),
    // also where the number of arguments is none that could be
    (0, true, "&pq", "123456789", ApplyFault::NoLaw),
    (49, true, "x", "3", ApplyFault::NoLaw),
    // another head, a number, another literal
    (1, false, "/pq", "", ApplyFault::NoMatch),
    (1, false, "3", "", ApplyFault::NoMatch),
    (5, true, "T", "<ab", ApplyFault::NoMatch),
    (16, false, "+x1", "", ApplyFault::NoMatch),
    // the part that would be an instance stands deeper
    (1, false, "!&pq", "", ApplyFault::NoMatch),
    // the other direction
    (23, true, "Lab", "", ApplyFault::NoMatch),
    (23, false, "!<ba", "", ApplyFault::NoMatch),
    // two terms for one variable
    (24, false, "<+31+x2", "", ApplyFault::NoMatch),
    // an argument too many, or too few
    (1, false, "&pq", "p", ApplyFault::NoMatch),
    (16, true, "x", "3", ApplyFault::NoMatch),
    (5, true, "F", "", ApplyFault::NoMatch),
    (45, false, "@wix", "", ApplyFault::NoMatch),
    (45, false, "@wix", "vv", ApplyFault::NoMatch),
    (45, false, "@wix", "vwix", ApplyFault::NoMatch),
    (20, true, "7", "Qnab3", ApplyFault::NoMatch),
    // neither the term nor the number of arguments
    (45, false, "#w", "", ApplyFault::NoMatch),
    (45, true, "#w", "vw", ApplyFault::NoMatch),
];

#[test]
fn other_terms_are_refused(rt: HostRuntime) {
    for row in &NOT_APPLIED {
        let (law, back, term, args, want) = *row;
        let found = applied(rt.alloc(), law, back, term, args);
        assert!(rt; is_refused(&found, want), "law {law} at {term} with {args}");
    }
}

// the number and the terms, the conditions one behind the other and the conclusion
const CONCLUDED: [(u8, &str, &str, &str); 7] = [
    (1, "+ya", "", "=+ya+ya"),
    (2, "xy3", "<xy<y3", "<x3"),
    (2, "abc", "<ab<bc", "<ac"),
    (2, "cba", "<cb<ba", "<ca"),
    (8, "{x|us", "", "%{x|{x|us"),
    (9, "{x+ya", "!={xE", "~J{x+ya{x"),
    (12, "{x|us3", "=I{x|usE~3|us", "!~3{x"),
];

#[test]
fn implications_are_concluded(rt: HostRuntime) {
    for row in &CONCLUDED {
        let (law, given, conditions, conclusion) = *row;
        let found = concluded(rt.alloc(), law, given);
        assert!(rt;
            answers(rt.alloc(), &found, conditions, conclusion),
            "law {law} at {given}"
        );
    }
}

const NOT_CONCLUDED: [(u8, &str, ApplyFault); 9] = [
    (0, "", ApplyFault::NoLaw),
    (21, "abc", ApplyFault::NoLaw),
    (255, "", ApplyFault::NoLaw),
    (1, "", ApplyFault::NoMatch),
    (1, "ab", ApplyFault::NoMatch),
    (2, "", ApplyFault::NoMatch),
    (2, "ab", ApplyFault::NoMatch),
    (2, "abcd", ApplyFault::NoMatch),
    (20, "mnx", ApplyFault::NoMatch),
];

#[test]
fn other_numbers_of_terms_are_refused(rt: HostRuntime) {
    for row in &NOT_CONCLUDED {
        let (law, given, want) = *row;
        let found = concluded(rt.alloc(), law, given);
        assert!(rt; is_refused(&found, want), "law {law} with {given}");
    }
}

fn matched_with(
    alloc: Global,
    variables: Option<Texts>,
    side: Option<Term>,
    args: Option<Terms>,
    term: Option<Term>,
) -> Option<Option<Terms>> {
    match (variables, side, args, term) {
        (Some(variables), Some(side), Some(args), Some(term)) => {
            matched_terms(alloc, &variables, &side, args.items(), &term).ok()
        }
        _ => None,
    }
}

fn matched(
    alloc: Global,
    variables: &str,
    side: &str,
    args: &str,
    term: &str,
) -> Option<Option<Terms>> {
    let side = single(alloc, side);
    let args = terms(alloc, args);
    matched_with(
        alloc,
        letters(alloc, variables),
        side,
        args,
        single(alloc, term),
    )
}

fn has_terms(alloc: Global, found: &Option<Option<Terms>>, want: &str) -> bool {
    match found {
        Some(Some(terms)) => are_spelled(alloc, terms, want),
        _ => false,
    }
}

// the variables, the side, the arguments and the term, and a term for each variable
const MATCHED: [(&str, &str, &str, &str, &str); 9] = [
    ("", "x", "", "x", ""),
    ("ab", "+ab", "", "+x3", "x3"),
    ("ba", "+ab", "", "+x3", "3x"),
    ("vwax", "@wax", "s", "@;w13y", "s;w13y"),
    ("abc", "b", "13", "2", "123"),
    ("abc", "3", "xyz", "3", "xyz"),
    // another name stands for itself, and a variable may be its own term
    ("a", "+ax", "", "+3x", "3"),
    ("ab", "!a", "a", "!b", "ba"),
    // below a binder
    ("sac", "Ays<ya", "7", "Ayt<y3", "t37"),
];

#[test]
fn each_variable_gets_its_term(rt: HostRuntime) {
    for row in &MATCHED {
        let (variables, side, args, term, want) = *row;
        let found = matched(rt.alloc(), variables, side, args, term);
        assert!(rt;
            has_terms(rt.alloc(), &found, want),
            "{side} for {term} with {args}"
        );
    }
}

fn is_none(found: &Option<Option<Terms>>) -> bool {
    match found {
        Some(None) => true,
        _ => false,
    }
}

const NOT_MATCHED: [(&str, &str, &str, &str); 8] = [
    ("ab", "+ab", "", "*x3"),
    ("a", "+aa", "", "+34"),
    ("a", "+ax", "", "+3y"),
    // an argument too many, or too few
    ("ab", "+ab", "3", "+x3"),
    ("abc", "+ab", "", "+x3"),
    ("abc", "b", "1", "2"),
    ("", "x", "y", "x"),
    // a name would be captured
    ("sp", "Aysp", "", "Ayt<y3"),
];

#[test]
fn no_terms_are_made_up(rt: HostRuntime) {
    for row in &NOT_MATCHED {
        let (variables, side, args, term) = *row;
        let found = matched(rt.alloc(), variables, side, args, term);
        assert!(rt; is_none(&found), "{side} for {term} with {args}");
    }
}

const TOLD: [(ApplyFault, &str); 3] = [
    (ApplyFault::NoLaw, "there is no such law"),
    (
        ApplyFault::NoMatch,
        "the term is no instance, or there is another number of arguments",
    ),
    (ApplyFault::Memory, "out of memory"),
];

#[test]
fn faults_of_laws_are_told(rt: HostRuntime) {
    let alloc = rt.alloc();
    for row in &TOLD {
        let (fault, want) = *row;
        assert!(rt;
            matches!(format!(in alloc; "{fault}"), Ok(told) if told.as_str() == want),
            "{want}"
        );
    }
}
