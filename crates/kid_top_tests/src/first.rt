//! Theories of which so many answers are wanted.
use crate::called::{RUN, SCRIPT, SOLVE, ends};
use crate::worked::derives_texts;

// The search from 1 to 10 visits, in this order, 1-10, 1-5, 1-3, 1-2, 1, 2, 3, 4-5, 4, 5, 6-10, 6-8, 6-7, 6, 7, 8, 9-10, 9 and 10.

/// The integers from 1 to 10 that leave n by 4, the first alone.
const ONE: &str =
    "(theory remainder) (input n (int 0 9)) (require (lt n 6)) (output z (int 1 10)) (ensure (eq (mod z 4) n)) (first 1)";

/// The first two.
const TWO: &str =
    "(theory remainder) (input n (int 0 9)) (require (lt n 6)) (output z (int 1 10)) (ensure (eq (mod z 4) n)) (first 2)";

/// The first three.
const THREE: &str =
    "(theory remainder) (input n (int 0 9)) (require (lt n 6)) (output z (int 1 10)) (ensure (eq (mod z 4) n)) (first 3)";

const INPUTS: &str = "(3) (2) (5) (7)";

const ONE_FILES: [(&str, &str); 3] = [("theory", ONE), ("script", SCRIPT), ("inputs", INPUTS)];

const TWO_FILES: [(&str, &str); 3] = [("theory", TWO), ("script", SCRIPT), ("inputs", INPUTS)];

const THREE_FILES: [(&str, &str); 3] = [("theory", THREE), ("script", SCRIPT), ("inputs", INPUTS)];

const SOLVE_SEVEN: [&str; 6] = ["solve", "theory", "script", "inputs", "--fuel", "7"];

const SOLVE_SIX: [&str; 6] = ["solve", "theory", "script", "inputs", "--fuel", "6"];

const SOLVE_FOURTEEN: [&str; 6] = ["solve", "theory", "script", "inputs", "--fuel", "14"];

#[test]
fn solves_for_the_first(rt: HostRuntime) {
    let text =
        "3\n(answers 1 splits 7)\n2\n(answers 1 splits 6)\n(answers 0 splits 19)\n(outside)\n";
    ends(&rt, rt.alloc(), &SOLVE, &ONE_FILES, 0, text, "");
}

#[test]
fn solves_for_the_first_two(rt: HostRuntime) {
    let text =
        "3\n7\n(answers 2 splits 15)\n2\n6\n(answers 2 splits 14)\n(answers 0 splits 19)\n(outside)\n";
    ends(&rt, rt.alloc(), &SOLVE, &TWO_FILES, 0, text, "");
}

#[test]
fn solves_for_more_than_there_are(rt: HostRuntime) {
    let text =
        "3\n7\n(answers 2 splits 19)\n2\n6\n10\n(answers 3 splits 19)\n(answers 0 splits 19)\n(outside)\n";
    ends(&rt, rt.alloc(), &SOLVE, &THREE_FILES, 0, text, "");
}

// the fuel is just enough for the first input, too much for the second and too little for the third
#[test]
fn tells_of_each_input_by_itself(rt: HostRuntime) {
    let text = "3\n(answers 1 splits 7)\n2\n(answers 1 splits 6)\n(fuel 7)\n(outside)\n";
    ends(&rt, rt.alloc(), &SOLVE_SEVEN, &ONE_FILES, 4, text, "");
}

#[test]
fn stops_one_call_before_the_first(rt: HostRuntime) {
    let text = "(fuel 6)\n2\n(answers 1 splits 6)\n(fuel 6)\n(outside)\n";
    ends(&rt, rt.alloc(), &SOLVE_SIX, &ONE_FILES, 4, text, "");
}

#[test]
fn stops_one_call_before_the_second(rt: HostRuntime) {
    let text = "3\n(fuel 14)\n2\n6\n(answers 2 splits 14)\n(fuel 14)\n(outside)\n";
    ends(&rt, rt.alloc(), &SOLVE_FOURTEEN, &TWO_FILES, 4, text, "");
}

/// The program that is derived for the first two.
const PROGRAM: &str =
    "(program 1)\n(input n (int 0 9))\n(require (lt n 6))\n(output z (int 1 10))\n(first 2)\n(main (if true (call 1 10)))\n(search ((low (int 1 11)) (high (int 0 10))) (if (eq low high) (if (eq (mod (cast (int 1 10) low) 4) n) (emit (cast (int 1 10) low)))) (if (lt low high) (if true (call low (div (add low high) 2))) (if true (call (add (div (add low high) 2) 1) high))))\n";

const TWO_SCRIPT: [(&str, &str); 2] = [("theory", TWO), ("script", SCRIPT)];

#[test]
fn derives_how_many_are_wanted(rt: HostRuntime) {
    let derivation = "(match range (low high) 1 10 (by))\n";
    derives_texts(&rt, rt.alloc(), &TWO_SCRIPT, PROGRAM, derivation);
}

const PROGRAM_FILES: [(&str, &str); 2] = [("program", PROGRAM), ("inputs", "(2)")];

#[test]
fn runs_for_the_first_two(rt: HostRuntime) {
    let text = "2\n6\n(answers 2 splits 14)\n";
    ends(&rt, rt.alloc(), &RUN, &PROGRAM_FILES, 0, text, "");
}
