//! Texts that are read and printed back, and texts that are refused.
use crate::back::{Form, declared_count, is_read_back, is_refused};
use std::alloc::Global;
use std::process::Abort;

/// Read in theories and in programs.
const DEFINITIONS: [&str; 3] = [
    "(def f () bool true)\n",
    "(def next ((n (int 0 8))) (int 1 9) (add n 1))\n",
    "(def both ((x bool) (y (pair bool bool))) bool (and x (fst y)))\n",
];

/// Read in theories alone, which tell later that a word is no name.
const WITH_WORDS: [&str; 2] = ["(def not () bool true)\n", "(def f ((7 bool)) bool true)\n"];

/// Read in programs alone.
const WITH_WORD_OPERATORS: [&str; 1] = ["(def f ((w (int 0 7))) (int 0 3) (wcard w))\n"];

const NO_DEFINITIONS: [&str; 6] = [
    "def",
    "(def f () bool)",
    "(def f () bool true true)",
    "(def f x bool true)",
    "(def f ((x)) bool true)",
    "(define f () bool true)",
];

const COUNTS: [&str; 2] = ["(first 1)\n", "(first 1000000)\n"];

const NO_COUNTS: [&str; 5] = [
    "(first 0)",
    "(first -1)",
    "(first 1000001)",
    "(first)",
    "(first 1 1)",
];

const PATHS: [&str; 3] = ["()\n", "(0)\n", "(1 0 4294967295)\n"];

const NO_PATHS: [&str; 4] = ["0", "(-1)", "(4294967296)", "((0))"];

fn reads_back(rt: &impl Abort, alloc: Global, form: Form, texts: &[&str]) {
    for text in texts {
        assert!(rt; is_read_back(alloc, form, text), "at {text}");
    }
}

fn refuses(rt: &impl Abort, alloc: Global, form: Form, texts: &[&str]) {
    for text in texts {
        assert!(rt; is_refused(alloc, form, text), "at {text}");
    }
}

/// A list of so many names, each with its sort.
fn many(alloc: Global, count: usize) -> Option<Vec<u8>> {
    let mut text = Vec::new(alloc);
    text.push(b'(').ok()?;
    for _ in 0..count {
        for byte in b"(x bool)" {
            text.push(*byte).ok()?;
        }
    }
    text.push(b')').ok()?;
    Some(text)
}

fn count_of_many(alloc: Global, count: usize) -> Option<usize> {
    let text = many(alloc, count)?;
    declared_count(alloc, text.as_slice())
}

#[test]
fn reads_definitions_of_theories(rt: HostRuntime) {
    reads_back(&rt, rt.alloc(), Form::TheoryDefinition, &DEFINITIONS);
}

#[test]
fn reads_words_that_are_no_names(rt: HostRuntime) {
    reads_back(&rt, rt.alloc(), Form::TheoryDefinition, &WITH_WORDS);
}

#[test]
fn refuses_definitions_of_theories(rt: HostRuntime) {
    refuses(&rt, rt.alloc(), Form::TheoryDefinition, &NO_DEFINITIONS);
}

#[test]
fn refuses_word_operators_in_theories(rt: HostRuntime) {
    refuses(
        &rt,
        rt.alloc(),
        Form::TheoryDefinition,
        &WITH_WORD_OPERATORS,
    );
}

#[test]
fn reads_definitions_of_programs(rt: HostRuntime) {
    reads_back(&rt, rt.alloc(), Form::ProgramDefinition, &DEFINITIONS);
}

#[test]
fn reads_word_operators_in_programs(rt: HostRuntime) {
    reads_back(
        &rt,
        rt.alloc(),
        Form::ProgramDefinition,
        &WITH_WORD_OPERATORS,
    );
}

#[test]
fn refuses_definitions_of_programs(rt: HostRuntime) {
    refuses(&rt, rt.alloc(), Form::ProgramDefinition, &NO_DEFINITIONS);
}

#[test]
fn refuses_words_that_are_no_names(rt: HostRuntime) {
    refuses(&rt, rt.alloc(), Form::ProgramDefinition, &WITH_WORDS);
}

#[test]
fn reads_counts(rt: HostRuntime) {
    reads_back(&rt, rt.alloc(), Form::First, &COUNTS);
}

#[test]
fn refuses_counts(rt: HostRuntime) {
    refuses(&rt, rt.alloc(), Form::First, &NO_COUNTS);
}

#[test]
fn reads_paths(rt: HostRuntime) {
    reads_back(&rt, rt.alloc(), Form::Path, &PATHS);
}

#[test]
fn refuses_paths(rt: HostRuntime) {
    refuses(&rt, rt.alloc(), Form::Path, &NO_PATHS);
}

// No clause says that memory suffices.
#[test]
fn reads_a_thousand_names(rt: HostRuntime) {
    assert!(rt; count_of_many(rt.alloc(), 1000) == Some(1000));
}
