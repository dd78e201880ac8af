use crate::programs::{loads, printed, refuses};
use kid_prog::{LoadCode, LoadFault, load};
use std::alloc::Global;
use std::test::Fail;

#[test]
fn takes_definitions(rt: HostRuntime) -> Result<(), Fail> {
    let cases = [
        "(def f () bool true)",
        "(def f ((x (int 0 8))) (int 0 9) (add x 1))",
        "(def f () (int 0 9) 3)",
        "(def f ((x bool)) bool x) (def g ((x bool)) bool (f (f x)))",
        "(def f ((x bool) (y bool)) bool (and x y)) (def g () bool (f true false))",
        "(def f ((t (set (int 0 8)))) (set (int 0 8)) (setof x t (lt 0 x)))",
        // parameters and binders in a body have a scope of their own
        "(def f ((n bool) (s bool) (found bool) (m bool) (f bool)) bool n)",
        "(def f () bool true) (def g ((f bool)) bool (and f (f)))",
        "(def f () bool true) (def g ((t (set bool))) (set bool) (setof f t f))",
    ];
    loads(&rt, rt.alloc(), 1, 1, &cases)
}

#[test]
fn refuses_shapes_of_definitions(rt: HostRuntime) -> Result<(), Fail> {
    let cases = [
        ("(def)", 2, LoadCode::Form),
        ("(def f)", 2, LoadCode::Form),
        ("(def f () bool)", 2, LoadCode::Form),
        ("(def f () bool true true)", 2, LoadCode::Form),
        ("(def F () bool true)", 2, LoadCode::Form),
        ("(def not () bool true)", 2, LoadCode::Form),
        ("(def (f) () bool true)", 2, LoadCode::Form),
        ("(def f x bool true)", 2, LoadCode::Form),
        ("(def f (x bool) bool true)", 2, LoadCode::Form),
        ("(def f ((x)) bool true)", 2, LoadCode::Form),
        ("(def f ((1 bool)) bool true)", 2, LoadCode::Form),
        ("(def f () true true)", 2, LoadCode::Form),
        ("(def f () bool (not))", 2, LoadCode::Form),
        ("(input k bool) (def f () bool true)", 3, LoadCode::Form),
    ];
    refuses(&rt, rt.alloc(), 1, 1, &cases)
}

#[test]
fn refuses_names_of_definitions(rt: HostRuntime) -> Result<(), Fail> {
    let cases = [
        (
            "(def f () bool true) (def f () bool true)",
            3,
            LoadCode::Form,
        ),
        (
            "(def f () bool true) (def f ((x bool)) bool x)",
            3,
            LoadCode::Form,
        ),
        ("(def f ((x bool) (x bool)) bool x)", 2, LoadCode::Form),
        // form goes before sort
        (
            "(def f () bool true) (def f () (int 1 0) (g))",
            3,
            LoadCode::Form,
        ),
        ("(def f ((x (int 1 0)) (x bool)) bool 3)", 2, LoadCode::Form),
        // an input, the output or a parameter of the search takes the name
        ("(def n () bool true)", 3, LoadCode::Form),
        ("(def s () bool true)", 4, LoadCode::Form),
        ("(def found () bool true)", 6, LoadCode::Form),
        ("(def m () bool true)", 8, LoadCode::Form),
        (
            "(def f () bool true) (def m () bool true)",
            9,
            LoadCode::Form,
        ),
    ];
    refuses(&rt, rt.alloc(), 1, 1, &cases)
}

#[test]
fn refuses_sorts_of_definitions(rt: HostRuntime) -> Result<(), Fail> {
    let cases = [
        ("(def f ((x (int 1 0))) bool true)", 2, LoadCode::Sort),
        ("(def f () (int 1 0) 1)", 2, LoadCode::Sort),
        ("(def f () bool 1)", 2, LoadCode::Sort),
        ("(def f () (int 0 1) 2)", 2, LoadCode::Sort),
        (
            "(def f ((x (int 0 8))) (int 0 8) (add x 1))",
            2,
            LoadCode::Sort,
        ),
        ("(def f () (int 0 9) (cast (int 1 0) 1))", 2, LoadCode::Sort),
        (
            "(def f ((x (set bool))) (set bool) (setof x x true))",
            2,
            LoadCode::Sort,
        ),
        // a body sees no input, not itself and nothing later
        ("(def f () (int 0 9) n)", 2, LoadCode::Sort),
        ("(def f () bool (f))", 2, LoadCode::Sort),
        ("(def f ((x bool)) bool (f x))", 2, LoadCode::Sort),
        (
            "(def f () bool (g)) (def g () bool true)",
            2,
            LoadCode::Sort,
        ),
        (
            "(def f ((x bool)) bool x) (def g () bool (f))",
            3,
            LoadCode::Sort,
        ),
        (
            "(def f ((x bool)) bool x) (def g () bool (f 1))",
            3,
            LoadCode::Sort,
        ),
        (
            "(def f ((x bool)) bool x) (def g () bool (f true true))",
            3,
            LoadCode::Sort,
        ),
    ];
    refuses(&rt, rt.alloc(), 1, 1, &cases)
}

/// What becomes of a program with a chain of definitions of which the last, `t`, is 16 deep, and then this text.
fn after_a_chain(alloc: Global, text: &str) -> Result<Option<LoadFault>, Fail> {
    let mut file = Vec::new(alloc);
    file.extend_from_slice(
        b"(program 1) (def a () bool true) (def b () bool (a)) (def c () bool (b)) \
          (def d () bool (c)) (def f () bool (d)) (def g () bool (f)) (def h () bool (g)) \
          (def i () bool (h)) (def j () bool (i)) (def k () bool (j)) (def l () bool (k)) \
          (def o () bool (l)) (def p () bool (o)) (def q () bool (p)) (def r () bool (q)) \
          (def t () bool (r)) ",
    )?;
    file.extend_from_slice(text.as_bytes())?;
    file.extend_from_slice(b" (require (t)) (output z bool) (main) (search ())")?;
    Ok(load(alloc, file.as_slice()).err())
}

#[test]
fn refuses_deep_calls(rt: HostRuntime) -> Result<(), Fail> {
    let fault = Some(LoadFault {
        form: 18,
        code: LoadCode::Form,
    });
    let cases = [
        ("", None),
        ("(def u () bool (and (r) (a)))", None),
        ("(def u () bool (t))", fault),
        ("(def u () bool (and (a) (t)))", fault),
        ("(def u ((s (set bool))) bool (all x s (t)))", fault),
        // form goes before sort
        ("(def u () bool (and 1 (t)))", fault),
    ];
    for (text, want) in cases {
        assert_eq!(rt; after_a_chain(rt.alloc(), text)?, want, "at {text}");
    }
    Ok(())
}

#[test]
fn takes_calls_of_definitions(rt: HostRuntime) -> Result<(), Fail> {
    let cases = [
        "(def f ((x (int 0 8))) bool (le x 8)) (input n (int 0 8)) (input s (set (int 0 8))) \
         (require (f n)) (output found (int 0 9)) (main (if (f n) (emit n))) (search ((m bool)))",
        // statements and binders may bind the name of a definition
        "(def f ((x (int 0 8))) (int 0 9) (add x 1)) (def g () bool true) (input n (int 0 8)) \
         (input s (set (int 0 8))) (require (all f s (lt f (f f)))) (output found (int 0 9)) \
         (main (let f (f n)) (emit f) (for g s (if (g) (emit (f g))))) (search ((m bool)))",
    ];
    loads(&rt, rt.alloc(), 1, 7, &cases)
}

#[test]
fn refuses_calls_of_definitions(rt: HostRuntime) -> Result<(), Fail> {
    let cases = [
        // of main nothing but sorts is known where a parameter has the name of a definition
        (
            "(def m () bool true) (input n bool) (require true) (output found (int 0 9)) \
             (main (call 1 2)) (search ((m bool)))",
            7,
            LoadCode::Form,
        ),
        (
            "(def f () bool true) (input n bool) (require true) (output found (int 0 9)) \
             (main (call 1 2)) (search ((m bool)))",
            6,
            LoadCode::Sort,
        ),
        (
            "(def f ((x bool)) bool x) (input n (int 0 8)) (require (f n))",
            4,
            LoadCode::Sort,
        ),
        (
            "(def f () (int 0 10) 1) (require true) (output found (int 0 9)) (main (emit (f)))",
            5,
            LoadCode::Sort,
        ),
        (
            "(require true) (output found bool) (main) (search ((m bool)) (emit (f m)))",
            5,
            LoadCode::Sort,
        ),
    ];
    refuses(&rt, rt.alloc(), 1, 7, &cases)
}

const DEFINED: &str = "\
(program 1)
(def up ((x (int 0 8))) (int 0 9) (add x 1))
(def never () bool false)
(def odds ((t (set (int 0 8)))) (set (int 0 8)) (setof x t (eq (mod x 2) 1)))
(input n (int 0 8))
(input s (set (int 0 8)))
(require (not (in n (odds s))))
(output found (int 0 9))
(main (emit (up n)))
(search ((m bool)) (if (never) (call m)))
";

#[test]
fn prints_definitions_again(rt: HostRuntime) -> Result<(), Fail> {
    let file = printed(rt.alloc(), DEFINED)?;
    assert_eq!(rt; file.as_slice(), DEFINED.as_bytes());
    Ok(())
}
