//! Words and files that are refused.
use crate::called::{DERIVE, RUN, SCRIPT, SOLVE, SQUARE, ends};
use crate::worked::PROGRAM;
use std::alloc::Global;
use std::process::Abort;

fn theories_end(rt: &impl Abort, alloc: Global, cases: &[(&str, &str)]) {
    for case in cases {
        let files = [("theory", case.0), ("script", ""), ("inputs", "(x)")];
        ends(rt, alloc, &SOLVE, &files, 5, "", case.1);
    }
}

const THEORIES: [(&str, &str); 9] = [
    ("(theory t", "(theory 0 read)\n"),
    ("", "(theory 1 form)\n"),
    ("(theory set)", "(theory 1 name)\n"),
    (
        "(theory t) (input n bool) (input n bool)",
        "(theory 3 name)\n",
    ),
    (
        "(theory t) (def f ((x bool)) bool (f x))",
        "(theory 2 cycle)\n",
    ),
    (
        "(theory t) (input s (set (int 1 65537)))",
        "(theory 2 sort)\n",
    ),
    (
        "(theory t) (require true) (output z (int 0 9)) (ensure z)",
        "(theory 4 sort)\n",
    ),
    (
        "(theory t) (require true) (output z (int 0 9))",
        "(theory 4 form)\n",
    ),
    (
        "(theory t) (require true) (output z (int 0 9)) (ensure true) (ensure true)",
        "(theory 5 form)\n",
    ),
];

#[test]
fn refuses_theories(rt: HostRuntime) {
    theories_end(&rt, rt.alloc(), &THEORIES);
}

const MANY_INPUTS: [(&str, &str); 1] = [(
    "(theory t) (input a bool) (input b bool) (input c bool) (input d bool) (input e bool) (input f bool) (input g bool) (input h bool) (input i bool) (input j bool) (input k bool) (input l bool) (input m bool) (input n bool) (input o bool) (input p bool) (input q bool)",
    "(theory 18 limit)\n",
)];

#[test]
fn refuses_too_many_inputs(rt: HostRuntime) {
    theories_end(&rt, rt.alloc(), &MANY_INPUTS);
}

fn fit_no_script(rt: &impl Abort, alloc: Global, theories: &[&str]) {
    for theory in theories {
        let files = [("theory", *theory), ("script", SCRIPT)];
        ends(rt, alloc, &SOLVE, &files, 10, "", "(unbuilt 2)\n");
    }
}

const OUTPUTS: [&str; 4] = [
    // no integers, ends beyond the limits, and ends whose sum is
    "(theory t) (require true) (output z bool) (ensure true)",
    "(theory t) (require true) (output z (set (int 0 9))) (ensure true)",
    "(theory t) (require true) (output z (int 0 4611686018427387904)) (ensure true)",
    "(theory t) (require true) (output z (int 0 2305843009213693952)) (ensure true)",
];

#[test]
fn refuses_outputs_that_the_script_does_not_fit(rt: HostRuntime) {
    fit_no_script(&rt, rt.alloc(), &OUTPUTS);
}

const NAMES: [&str; 5] = [
    "(theory t) (input low (int 0 9)) (require true) (output z (int 0 9)) (ensure true)",
    "(theory t) (require true) (output high (int 0 9)) (ensure true)",
    "(theory t) (def high () bool true) (require true) (output z (int 0 9)) (ensure true)",
    // a binder, which would capture the leaf's name, and one that has it alone
    "(theory t) (require true) (output z (int 0 9)) (ensure (some low (set 1 2) (eq low z)))",
    "(theory t) (require true) (output z (int 0 9)) (ensure (some low (set 1 2) (eq low 1)))",
];

#[test]
fn refuses_names_of_the_search(rt: HostRuntime) {
    fit_no_script(&rt, rt.alloc(), &NAMES);
}

fn inputs_end(rt: &impl Abort, alloc: Global, cases: &[(&str, u8, &str)]) {
    for case in cases {
        let files = [("theory", SQUARE), ("script", SCRIPT), ("inputs", case.0)];
        ends(rt, alloc, &SOLVE, &files, case.1, "", case.2);
    }
}

const INPUTS: [(&str, u8, &str); 4] = [
    ("(49) (x)", 8, "(inputs 2)\n"),
    ("(101)", 8, "(inputs 1)\n"),
    ("(49", 8, "(inputs 0)\n"),
    ("", 0, ""),
];

#[test]
fn refuses_inputs(rt: HostRuntime) {
    inputs_end(&rt, rt.alloc(), &INPUTS);
}

fn programs_end(rt: &impl Abort, alloc: Global, cases: &[(&str, u8, &str)]) {
    for case in cases {
        let files = [("program", case.0), ("inputs", "(x)")];
        ends(rt, alloc, &RUN, &files, case.1, "", case.2);
    }
}

const PROGRAMS: [(&str, u8, &str); 5] = [
    ("(program 3)", 7, "(program 1 version)\n"),
    ("(program 1", 7, "(program 0 read)\n"),
    ("(program 1)", 7, "(program 2 form)\n"),
    ("(program 1) (require 1)", 7, "(program 2 sort)\n"),
    (PROGRAM, 8, "(inputs 1)\n"),
];

#[test]
fn refuses_programs_before_inputs(rt: HostRuntime) {
    programs_end(&rt, rt.alloc(), &PROGRAMS);
}

const NO_SCRIPT: [(&str, &str); 2] = [("theory", SQUARE), ("inputs", "(x)")];

#[test]
fn says_which_file_is_absent(rt: HostRuntime) {
    ends(&rt, rt.alloc(), &SOLVE, &NO_SCRIPT, 12, "", "(absent 2)\n");
}

const NO_THEORY: [(&str, &str); 1] = [("theory", "(theory t)")];

#[test]
fn refuses_the_theory_before_the_script(rt: HostRuntime) {
    ends(
        &rt,
        rt.alloc(),
        &DERIVE,
        &NO_THEORY,
        5,
        "",
        "(theory 2 form)\n",
    );
}

const OTHER_SCRIPT: [(&str, &str); 2] = [("theory", SQUARE), ("script", "(match)")];

#[test]
fn refuses_the_script_before_the_inputs(rt: HostRuntime) {
    ends(
        &rt,
        rt.alloc(),
        &SOLVE,
        &OTHER_SCRIPT,
        10,
        "",
        "(unbuilt 2)\n",
    );
}

const NO_FUEL: [&str; 5] = ["run", "program", "inputs", "--fuel", "0"];

const RUNNING: [(&str, &str); 2] = [("program", PROGRAM), ("inputs", "(49)")];

#[test]
fn refuses_words(rt: HostRuntime) {
    ends(&rt, rt.alloc(), &NO_FUEL, &RUNNING, 2, "", "(usage)\n");
}
