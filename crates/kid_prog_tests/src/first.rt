//! How many values a program file asks for.
use crate::programs::{loads, printed, refuses};
use kid_prog::LoadCode;
use std::test::Fail;

const COUNTS: [&str; 2] = ["(first 1)", "(first 1000000)"];

#[test]
fn takes_counts(rt: HostRuntime) -> Result<(), Fail> {
    loads(&rt, rt.alloc(), 5, 5, &COUNTS)
}

const NAMES: [&str; 3] = [
    "(def first () bool true) (input n (int 0 8))",
    "(input n (int 0 8)) (input first bool)",
    "(def f ((first bool)) bool first) (input n (int 0 8))",
];

#[test]
fn takes_the_word_as_a_name(rt: HostRuntime) -> Result<(), Fail> {
    loads(&rt, rt.alloc(), 1, 2, &NAMES)
}

const REFUSED: [(&str, u32, LoadCode); 11] = [
    ("(first 0)", 6, LoadCode::Form),
    ("(first 1000001)", 6, LoadCode::Form),
    ("(first -1)", 6, LoadCode::Form),
    ("(first 01)", 6, LoadCode::Form),
    ("(first x)", 6, LoadCode::Form),
    ("(first (1))", 6, LoadCode::Form),
    ("(first)", 6, LoadCode::Form),
    ("(first 1 1)", 6, LoadCode::Form),
    ("first", 6, LoadCode::Form),
    ("(first 1) (first 1)", 7, LoadCode::Form),
    ("(first 1) (output found bool)", 7, LoadCode::Form),
];

#[test]
fn refuses_counts(rt: HostRuntime) -> Result<(), Fail> {
    refuses(&rt, rt.alloc(), 5, 5, &REFUSED)
}

const BEFORE_THE_OUTPUT: [(&str, u32, LoadCode); 1] = [("(first 1)", 5, LoadCode::Form)];

#[test]
fn refuses_a_count_before_the_output(rt: HostRuntime) -> Result<(), Fail> {
    refuses(&rt, rt.alloc(), 4, 4, &BEFORE_THE_OUTPUT)
}

const AFTER_MAIN: [(&str, u32, LoadCode); 1] = [("(first 1)", 7, LoadCode::Form)];

#[test]
fn refuses_a_count_after_main(rt: HostRuntime) -> Result<(), Fail> {
    refuses(&rt, rt.alloc(), 6, 6, &AFTER_MAIN)
}

const WITH_A_COUNT: &str = "\
(program 1)
(require true)
(output found bool)
(first 120)
(main (emit true))
(search ())
";

#[test]
fn prints_a_count_again(rt: HostRuntime) -> Result<(), Fail> {
    let file = printed(rt.alloc(), WITH_A_COUNT)?;
    assert_eq!(rt; file.as_slice(), WITH_A_COUNT.as_bytes());
    Ok(())
}
