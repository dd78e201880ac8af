//! The two formats of program files.
use crate::programs::{loads, printed, refuses};
use kid_prog::LoadCode;
use std::test::Fail;

const IN_THE_FIRST: [(&str, u32, LoadCode); 8] = [
    ("(input n (enum blue red))", 2, LoadCode::Form),
    ("(input n (set (pair bool (enum blue))))", 2, LoadCode::Form),
    // sorts that are not allowed
    ("(input n (enum red blue))", 2, LoadCode::Form),
    ("(input n (enum))", 2, LoadCode::Form),
    ("(input n (int 8 0)) (input m (enum a))", 2, LoadCode::Sort),
    ("(def f () (enum blue red) 'red)", 2, LoadCode::Form),
    ("(def f ((x (enum a))) bool true)", 2, LoadCode::Form),
    ("(def f () bool (eq 'a 1))", 2, LoadCode::Form),
];

#[test]
fn refuses_tags_in_the_first_format(rt: HostRuntime) -> Result<(), Fail> {
    refuses(&rt, rt.alloc(), 1, 2, &IN_THE_FIRST)
}

const CONDITIONS: [(&str, u32, LoadCode); 4] = [
    ("(require (eq 'a 'a))", 4, LoadCode::Form),
    ("(require 'a)", 4, LoadCode::Form),
    (
        "(require (eq (cast (enum a) n) (cast (enum a) n)))",
        4,
        LoadCode::Form,
    ),
    (
        "(require (all x (set n) (eq (cast (enum) x) 1)))",
        4,
        LoadCode::Form,
    ),
];

#[test]
fn refuses_tags_in_conditions_of_the_first_format(rt: HostRuntime) -> Result<(), Fail> {
    refuses(&rt, rt.alloc(), 3, 4, &CONDITIONS)
}

const OUTPUTS: [(&str, u32, LoadCode); 2] = [
    ("(output found (enum blue red))", 5, LoadCode::Form),
    ("(output n (map bool (enum a)))", 5, LoadCode::Form),
];

#[test]
fn refuses_tags_in_the_output_of_the_first_format(rt: HostRuntime) -> Result<(), Fail> {
    refuses(&rt, rt.alloc(), 4, 5, &OUTPUTS)
}

const STATEMENTS: [(&str, u32, LoadCode); 7] = [
    ("(main (emit 'a)) (search ())", 6, LoadCode::Form),
    ("(main (let k 'a)) (search ())", 6, LoadCode::Form),
    ("(main (if true (emit 'a))) (search ())", 6, LoadCode::Form),
    ("(main (for x (set 'a))) (search ())", 6, LoadCode::Form),
    ("(main (call 'a)) (search ((m bool)))", 6, LoadCode::Form),
    ("(main) (search ((m bool)) (emit 'a))", 7, LoadCode::Form),
    // parameters that are refused say nothing of a call
    (
        "(main (call 1 2)) (search ((m (enum a))))",
        7,
        LoadCode::Form,
    ),
];

#[test]
fn refuses_tags_in_statements_of_the_first_format(rt: HostRuntime) -> Result<(), Fail> {
    refuses(&rt, rt.alloc(), 5, 7, &STATEMENTS)
}

const IN_THE_SECOND: [&str; 4] = [
    "(program 2) (input n (int 0 8))",
    "(program 2) (def f () (enum blue red) 'red) (input n (int 0 8))",
    "(program 2) (input n (int 0 8)) (input enum (enum enum))",
    "(program 2) (input n (int 0 8)) (input k (map (enum a b) (set (enum c))))",
];

#[test]
fn takes_tags_in_the_second_format(rt: HostRuntime) -> Result<(), Fail> {
    loads(&rt, rt.alloc(), 0, 2, &IN_THE_SECOND)
}

const REFUSED_IN_THE_SECOND: [(&str, u32, LoadCode); 7] = [
    ("(program 2) (input n (enum red blue))", 2, LoadCode::Sort),
    ("(program 2) (input n (enum a a))", 2, LoadCode::Sort),
    ("(program 2) (input n (enum))", 2, LoadCode::Sort),
    ("(program 2) (input n (enum A))", 2, LoadCode::Form),
    ("(program 2) (input n (enum true))", 2, LoadCode::Form),
    ("(program 2) (input n (enum (a)))", 2, LoadCode::Form),
    ("(program 2) (input n enum)", 2, LoadCode::Form),
];

#[test]
fn refuses_enums_in_the_second_format(rt: HostRuntime) -> Result<(), Fail> {
    refuses(&rt, rt.alloc(), 0, 2, &REFUSED_IN_THE_SECOND)
}

const COLOURED: &str = "\
(program 2)
(input k (set (int 1 50)))
(require true)
(output z (map (int 1 50) (enum blue red)))
(main (emit (fill k 'red)))
(search ((q (enum red))) (if (eq q 'red) (call q)))
";

#[test]
fn prints_tags_again(rt: HostRuntime) -> Result<(), Fail> {
    let file = printed(rt.alloc(), COLOURED)?;
    assert_eq!(rt; file.as_slice(), COLOURED.as_bytes());
    Ok(())
}

const UNUSED: &str = "\
(program 2)
(def f ((x bool)) bool (eq (cast (enum a) x) (cast (enum a) x)))
(require true)
(output z bool)
(main)
(search ())
";

#[test]
fn prints_the_second_format_for_an_unused_cast(rt: HostRuntime) -> Result<(), Fail> {
    let file = printed(rt.alloc(), UNUSED)?;
    assert_eq!(rt; file.as_slice(), UNUSED.as_bytes());
    Ok(())
}

#[test]
fn prints_the_first_format_where_it_may(rt: HostRuntime) -> Result<(), Fail> {
    let file = printed(
        rt.alloc(),
        "(program 2) (require true) (output z bool) (main) (search ())",
    )?;
    let want = "(program 1)\n(require true)\n(output z bool)\n(main)\n(search ())\n";
    assert_eq!(rt; file.as_slice(), want.as_bytes());
    Ok(())
}
