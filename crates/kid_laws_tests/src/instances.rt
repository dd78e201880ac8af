//! Each law with terms put in, and without the last of them.
use crate::notation::{Row, are_spelled, is_spelled, lacking, substitution};
use kid_laws::{Instance, LawFault, Subst, implication, instance};
use std::alloc::Global;
use std::process::Abort;

type Given = Option<Result<Instance, LawFault>>;

/// Which way a law is taken.
#[derive(Clone, Copy)]
enum Way {
    Forth,
    Back,
    Concluded,
}

fn given(alloc: Global, way: Way, law: u8, subst: Option<Subst>) -> Given {
    let subst = subst?;
    match way {
        Way::Forth => Some(instance(alloc, law, false, &subst)),
        Way::Back => Some(instance(alloc, law, true, &subst)),
        Way::Concluded => Some(implication(alloc, law, &subst)),
    }
}

fn is_given(alloc: Global, found: &Given, row: &Row) -> bool {
    let (_, _, _, conditions, left, right) = *row;
    match found {
        Some(Ok(it)) => are_spelled(alloc, &it.conditions, conditions)
            && is_spelled(alloc, &it.left, left)
            && is_spelled(alloc, &it.right, right),
        _ => false,
    }
}

fn is_refused(found: &Given, want: LawFault) -> bool {
    match found {
        Some(Err(fault)) => *fault == want,
        _ => false,
    }
}

fn gives(rt: &impl Abort, alloc: Global, way: Way, rows: &[Row]) {
    for row in rows {
        let found = given(alloc, way, row.0, substitution(alloc, row.1, row.2));
        assert!(rt; is_given(alloc, &found, row), "law {} at {}", row.0, row.2);
    }
}

// a substitution that lacks the first of the names
fn lacks(rt: &impl Abort, alloc: Global, way: Way, rows: &[Row]) {
    for row in rows {
        let found = given(alloc, way, row.0, lacking(alloc, row.1, row.2));
        assert!(rt;
            is_refused(&found, LawFault::Missing),
            "law {} at {}",
            row.0,
            row.2
        );
    }
}

// the number, the variables and what stands for them, the conditions one behind the other, and the sides
const EQUATIONS: [Row; 48] = [
    (1, "pq", "<bc!a", "", "&<bc!a", "&!a<bc"),
    (2, "pqr", "<bc!a~as", "", "&<bc&!a~as", "&&<bc!a~as"),
    (3, "p", "<bc", "", "&<bc<bc", "<bc"),
    (4, "p", "<bc", "", "&<bcT", "<bc"),
    (5, "p", "<bc", "", "&<bcF", "F"),
    (6, "pq", "<bc!a", "", "/<bc!a", "!&!<bc!!a"),
    (7, "p", "<bc", "", "!!<bc", "<bc"),
    (8, "pq", "<bc!a", "", "><bc!a", "/!<bc!a"),
    (9, "p", "<bc", "", ">T<bc", "<bc"),
    (10, "xy", "+ya3", "", "?T+ya3", "+ya"),
    (11, "xy", "+ya3", "", "?F+ya3", "3"),
    (12, "x", "+ya", "", "=+ya+ya", "T"),
    (13, "xy", "+ya3", "", "=+ya3", "=3+ya"),
    (14, "ab", "*bdNa", "", "+*bdNa", "+Na*bd"),
    (15, "abc", "*bdNa+cd", "", "+*bd+Na+cd", "++*bdNa+cd"),
    (16, "a", "*bd", "", "+*bd0", "*bd"),
    (17, "ab", "*bdNa", "", "-*bdNa", "+*bdNNa"),
    (18, "a", "*bd", "", "+*bdN*bd", "0"),
    (19, "ab", "*bdNa", "", "**bdNa", "*Na*bd"),
    (20, "mxyd", "Qnab+ya37", "", "GQQnab+ya3+ya7", "3"),
    (21, "a", "*bd", "", "**bd1", "*bd"),
    (22, "abc", "*bdNa+cd", "", "**bd+Na+cd", "+**bdNa**bd+cd"),
    (23, "ab", "*bdNa", "", "L*bdNa", "!<Na*bd"),
    (24, "acb", "*bd+cdNa", "", "<+*bd+cd+Na+cd", "<*bdNa"),
    (25, "ab", "*bdNa", "", "=*bdNa", "&<*bdNa<Na*bd"),
    (26, "ab", "*bdNa", "", "X*bdNa", "?<*bdNaNa*bd"),
    (27, "ab", "*bdNa", "", "Y*bdNa", "?<*bdNa*bdNa"),
    (28, "st", "{x|us", "", "|{x|us", "||us{x"),
    (29, "stu", "{x|us^at", "", "|{x||us^at", "||{x|us^at"),
    (30, "s", "{x", "", "|{xE", "{x"),
    (31, "st", "{x|us", "", "I{x|us", "I|us{x"),
    (32, "xs", "+ya{x", "", "^+ya{x", "|{+ya{x"),
    (33, "xs", "+ya{x", "", "W+ya{x", "D{x{+ya"),
    (34, "xst", "+ya{x|us", "", "~+ya|{x|us", "/~+ya{x~+ya|us"),
    (35, "xst", "+ya{x|us", "", "~+yaI{x|us", "&~+ya{x~+ya|us"),
    (36, "xst", "+ya{x|us", "", "~+yaD{x|us", "&~+ya{x!~+ya|us"),
    (37, "xy", "+ya3", "", "~+ya{3", "=+ya3"),
    (38, "abc", "*bdNa+cd", "", "~*bdRNa+cd", "&<Na*bd<*bd+cd"),
    (39, "st", "{x|us", "", "%{x|us", "=D{x|usE"),
    (40, "as", "*bd{x", "!~*bd{x", "U^*bd{x", "+U{x*bd"),
    (41, "xs", "+ya{x", "!~+ya{x", "C^+ya{x", "+C{x1"),
    (42, "vx", ";wx+ya", "", "#;;wx+ya", "+#;wx1"),
    (43, "vx", ";wx+ya", "", ":;;wx+ya", "^+ya:;wx"),
    (44, "va", ";wx*bd", "", "$;;wx*bd", "+$;wx*bd"),
    (
        45,
        "vwax",
        ";wx;v1*bd+ya",
        "P;wx;v1~*bdR1#;wx",
        "@;v1*bd+ya",
        "@;wx*bd+ya",
    ),
    (46, "vxy", ";wx+ya3", "", "@;;wx+ya+#;wx13", "+ya"),
    (47, "mxy", "Qnab+ya3", "", "KQQnab+ya3", "^+yaKQnab"),
    (
        48,
        "mnxy",
        "QnabQmcd+ya3",
        "BQnabQmcd~+yaKQnab",
        "GQmcd+ya3",
        "GQnab+ya3",
    ),
];

#[test]
fn equations_are_given(rt: HostRuntime) {
    gives(&rt, rt.alloc(), Way::Forth, &EQUATIONS);
}

#[test]
fn equations_lack_a_term(rt: HostRuntime) {
    lacks(&rt, rt.alloc(), Way::Forth, &EQUATIONS);
}

#[test]
fn equations_lack_a_term_backward(rt: HostRuntime) {
    lacks(&rt, rt.alloc(), Way::Back, &EQUATIONS);
}

// the sides exchanged
const BACKWARD: [Row; 4] = [
    (5, "p", "<ab", "", "F", "&<abF"),
    (20, "mxyd", "Qnab378", "", "7", "GQQnab3738"),
    (40, "as", "3{b", "!~3{b", "+U{b3", "U^3{b"),
    (46, "vxy", "w12", "", "1", "@;w1+#w12"),
];

#[test]
fn equations_are_given_backward(rt: HostRuntime) {
    gives(&rt, rt.alloc(), Way::Back, &BACKWARD);
}

const IMPLICATIONS: [Row; 20] = [
    (1, "x", "+ya", "", "=+ya+ya", "T"),
    (2, "abc", "*bdNa+cd", "<*bdNa<Na+cd", "<*bd+cd", "T"),
    (3, "abcd", "*bdNa+cd7", "<*bdNa<+cd7", "<+*bd+cd+Na7", "T"),
    (4, "xmy", "+yaQnab3", "!~+yaKQnab", "BQnabQQnab+ya3", "T"),
    (5, "abc", "*bdNa+cd", "<*bdNa<0+cd", "<**bd+cd*Na+cd", "T"),
    (6, "stu", "{x|us^at", "%{x|us%|us^at", "%{x^at", "T"),
    (7, "stx", "{x|us+ya", "%{x|us~+ya{x", "~+ya|us", "T"),
    (8, "st", "{x|us", "", "%{x|{x|us", "T"),
    (9, "sx", "{x+ya", "!={xE", "~J{x+ya{x", "T"),
    (10, "st", "{x|us", "%{x|us", "<C{xC|us", "T"),
    (11, "st", "{x|us", "%{x|us<0J|us0", "<U{xU|us", "T"),
    (12, "stx", "{x|us+ya", "=I{x|usE~+ya|us", "!~+ya{x", "T"),
    (13, "abcd", "*bdNa+cd7", "<*bdNa<+cd7", "%RNa+cdR*bd7", "T"),
    (14, "as", "*bd{x", "~*bd{x", "<J{x*bd*bd", "T"),
    (15, "vw", ";wx;v1", "P;wx;v1", "<#;wx#;v1", "T"),
    (16, "vw", ";wx;v1", "P;wx;v1", "%:;wx:;v1", "T"),
    (17, "vx", ";wx+ya", "", "P;wx;;wx+ya", "T"),
    (18, "vw", ";wx;v1", "P;wx;v1<0J:;v10", "<$;wx$;v1", "T"),
    (19, "mn", "QnabQmcd", "BQnabQmcd", "%KQnabKQmcd", "T"),
    (
        20,
        "mnxy",
        "QnabQmcd+ya3",
        "ZQnabQmcd~+yaKQmcd",
        "~GQnab+ya3GQmcd+yaE",
        "T",
    ),
];

#[test]
fn implications_are_given(rt: HostRuntime) {
    gives(&rt, rt.alloc(), Way::Concluded, &IMPLICATIONS);
}

#[test]
fn implications_lack_a_term(rt: HostRuntime) {
    lacks(&rt, rt.alloc(), Way::Concluded, &IMPLICATIONS);
}

// terms for other names do not matter, and of two for one name the first counts
const SPARE: [Row; 2] = [
    (16, "bab", "123", "", "+20", "2"),
    (16, "aa", "12", "", "+10", "1"),
];

#[test]
fn other_names_do_not_matter(rt: HostRuntime) {
    gives(&rt, rt.alloc(), Way::Forth, &SPARE);
}

const NO_LAWS: [(Way, u8); 9] = [
    (Way::Forth, 0),
    (Way::Forth, 49),
    (Way::Forth, 255),
    (Way::Back, 0),
    (Way::Back, 49),
    (Way::Back, 255),
    (Way::Concluded, 0),
    (Way::Concluded, 21),
    (Way::Concluded, 255),
];

// also where no name has a term
#[test]
fn other_numbers_are_no_laws(rt: HostRuntime) {
    for row in &NO_LAWS {
        let found = given(rt.alloc(), row.0, row.1, substitution(rt.alloc(), "", ""));
        assert!(rt; is_refused(&found, LawFault::NoLaw), "law {}", row.1);
    }
}

const TOLD: [(LawFault, &str); 3] = [
    (LawFault::NoLaw, "there is no such law"),
    (LawFault::Missing, "a variable has no term"),
    (LawFault::Memory, "out of memory"),
];

#[test]
fn faults_are_told(rt: HostRuntime) {
    let alloc = rt.alloc();
    for row in &TOLD {
        let (fault, want) = *row;
        assert!(rt;
            matches!(format!(in alloc; "{fault}"), Ok(told) if told.as_str() == want),
            "{want}"
        );
    }
}
