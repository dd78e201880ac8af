use kid_prog::{LoadCode, LoadFault, load, text};
use std::alloc::Global;
use std::process::Abort;
use std::test::Fail;

/// The forms of a program that loads.
const FORMS: [&str; 7] = [
    "(program 1)",
    "(input n (int 0 8))",
    "(input s (set (int 0 8)))",
    "(require (le n 8))",
    "(output found (int 0 9))",
    "(main (emit n))",
    "(search ((m bool)) (if m (emit 0)))",
];

/// The forms with a text in place of those from one place to before another.
fn changed(alloc: Global, from: usize, to: usize, instead: &str) -> Result<Vec<u8>, Fail> {
    let mut file = Vec::new(alloc);
    for (at, form) in FORMS.iter().enumerate() {
        if at == from {
            file.extend_from_slice(instead.as_bytes())?;
        }
        if at < from || to <= at {
            file.extend_from_slice(form.as_bytes())?;
        }
        file.push(b'\n')?;
    }
    if from == FORMS.len() {
        file.extend_from_slice(instead.as_bytes())?;
    }
    Ok(file)
}

fn refusal(
    alloc: Global,
    from: usize,
    to: usize,
    instead: &str,
) -> Result<Option<LoadFault>, Fail> {
    let file = changed(alloc, from, to, instead)?;
    Ok(load(alloc, file.as_slice()).err())
}

pub fn loads(
    rt: &impl Abort,
    alloc: Global,
    from: usize,
    to: usize,
    texts: &[&str],
) -> Result<(), Fail> {
    for instead in texts {
        assert_eq!(rt; refusal(alloc, from, to, instead)?, None, "at {instead}");
    }
    Ok(())
}

pub fn refuses(
    rt: &impl Abort,
    alloc: Global,
    from: usize,
    to: usize,
    cases: &[(&str, u32, LoadCode)],
) -> Result<(), Fail> {
    for case in cases {
        let (instead, form, code) = *case;
        let want = Some(LoadFault { form, code });
        assert_eq!(rt; refusal(alloc, from, to, instead)?, want, "at {instead}");
    }
    Ok(())
}

pub fn printed(alloc: Global, file: &str) -> Result<Vec<u8>, Fail> {
    let program = load(alloc, file.as_bytes())?;
    Ok(text(alloc, &program)?)
}

const WHOLE: &str = "\
(program 1)
(input n (int 0 8))
(input s (set (int 0 8)))
(input g (map (pair bool (int -2 2)) (seq bool 4)))
(require (all x s (le x n)))
(output found (int 0 64))
(main (let top (add n 1)) (if (lt n 5) (call top s)) (for x s (emit x)))
(search ((m (int 0 9)) (t (set (int 0 8)))) (emit (cast (int 0 64) m)) (if false (call 0 (setof x t (lt x m)))))
";

#[test]
fn prints_a_program_again(rt: HostRuntime) -> Result<(), Fail> {
    let file = printed(rt.alloc(), WHOLE)?;
    assert_eq!(rt; file.as_slice(), WHOLE.as_bytes());
    Ok(())
}

#[test]
fn prints_in_one_form(rt: HostRuntime) -> Result<(), Fail> {
    let loose =
        "; a program\n( program\t1)(require\r\ntrue )(output found bool)\n\n(main)(search()); ends";
    let want = "(program 1)\n(require true)\n(output found bool)\n(main)\n(search ())\n";
    let file = printed(rt.alloc(), loose)?;
    assert_eq!(rt; file.as_slice(), want.as_bytes());
    Ok(())
}

#[test]
fn refuses_what_does_not_read(rt: HostRuntime) -> Result<(), Fail> {
    let cases = [
        (")", 0, LoadCode::Read),
        ("(program 1", 0, LoadCode::Read),
        ("(program \u{7f})", 0, LoadCode::Read),
        ("(program 2) (", 0, LoadCode::Read),
        ("", 1, LoadCode::Form),
        ("; nothing", 1, LoadCode::Form),
    ];
    refuses(&rt, rt.alloc(), 0, 7, &cases)
}

#[test]
fn refuses_versions(rt: HostRuntime) -> Result<(), Fail> {
    let cases = [
        ("(program 3)", 1, LoadCode::Version),
        ("(program 0)", 1, LoadCode::Version),
        ("(program -1)", 1, LoadCode::Version),
        ("(program x)", 1, LoadCode::Form),
        ("(program 01)", 1, LoadCode::Form),
        ("(program (1))", 1, LoadCode::Form),
        ("(program)", 1, LoadCode::Form),
        ("(program 1 1)", 1, LoadCode::Form),
        ("program", 1, LoadCode::Form),
        ("()", 1, LoadCode::Form),
        ("", 1, LoadCode::Form),
    ];
    refuses(&rt, rt.alloc(), 0, 1, &cases)
}

#[test]
fn takes_inputs(rt: HostRuntime) -> Result<(), Fail> {
    let cases = [
        "(input n (int 0 8)) (input abcdefghijklmnopqrstuvwxyz-01234 bool)",
        // 15 of them beside the second
        "(input n (int 0 8)) (input a bool) (input b bool) (input c bool) (input d bool) \
         (input e bool) (input f bool) (input g bool) (input h bool) (input i bool) (input j bool) \
         (input k bool) (input l bool) (input o bool) (input p bool)",
    ];
    loads(&rt, rt.alloc(), 1, 2, &cases)
}

#[test]
fn refuses_inputs(rt: HostRuntime) -> Result<(), Fail> {
    let cases = [
        (
            "(input abcdefghijklmnopqrstuvwxyz-012345 bool)",
            2,
            LoadCode::Form,
        ),
        ("(input N bool)", 2, LoadCode::Form),
        ("(input e1 bool)", 2, LoadCode::Form),
        ("(input not bool)", 2, LoadCode::Form),
        ("(input 1 bool)", 2, LoadCode::Form),
        ("(input (n) bool)", 2, LoadCode::Form),
        ("(input n)", 2, LoadCode::Form),
        ("(input n bool bool)", 2, LoadCode::Form),
        ("(input n n)", 2, LoadCode::Form),
        ("(inputs n bool)", 2, LoadCode::Form),
        ("input", 2, LoadCode::Form),
        ("(input n (int 8 0))", 2, LoadCode::Sort),
        ("(input n (seq bool 65537))", 2, LoadCode::Sort),
        ("(input s bool)", 3, LoadCode::Form),
        ("(input n bool) (input n bool)", 3, LoadCode::Form),
        ("(input n bool) (input n (int 8 0))", 3, LoadCode::Form),
        // no input of the name that is required
        ("", 3, LoadCode::Sort),
    ];
    refuses(&rt, rt.alloc(), 1, 2, &cases)
}

#[test]
fn refuses_a_17th_input(rt: HostRuntime) -> Result<(), Fail> {
    let sixteen = "(input n (int 0 8)) (input a bool) (input b bool) (input c bool) \
                   (input d bool) (input e bool) (input f bool) (input g bool) (input h bool) \
                   (input i bool) (input j bool) (input k bool) (input l bool) (input o bool) \
                   (input p bool) (input q bool)";
    refuses(&rt, rt.alloc(), 1, 2, &[(sixteen, 18, LoadCode::Form)])
}

#[test]
fn refuses_conditions(rt: HostRuntime) -> Result<(), Fail> {
    let cases = [
        ("", 4, LoadCode::Form),
        ("(require)", 4, LoadCode::Form),
        ("(require true true)", 4, LoadCode::Form),
        ("(require (not))", 4, LoadCode::Form),
        (
            "(require (and (cast (int 2 1) n) (not)))",
            4,
            LoadCode::Form,
        ),
        (
            "(require (and (cast (int 2 1) n) (not true)))",
            4,
            LoadCode::Sort,
        ),
        ("(require n)", 4, LoadCode::Sort),
        ("(require (le n k))", 4, LoadCode::Sort),
        ("(require (eq found n))", 4, LoadCode::Sort),
        ("(require (f n))", 4, LoadCode::Sort),
        ("(require true) (require true)", 5, LoadCode::Form),
        ("(require true) (input k bool)", 5, LoadCode::Form),
    ];
    refuses(&rt, rt.alloc(), 3, 4, &cases)
}

#[test]
fn refuses_outputs(rt: HostRuntime) -> Result<(), Fail> {
    let cases = [
        ("", 5, LoadCode::Form),
        ("(output found)", 5, LoadCode::Form),
        ("(output found bool bool)", 5, LoadCode::Form),
        ("(output found found)", 5, LoadCode::Form),
        ("(output Found bool)", 5, LoadCode::Form),
        ("(output n bool)", 5, LoadCode::Form),
        ("(output n (int 1 0))", 5, LoadCode::Form),
        ("(output found (int 1 0))", 5, LoadCode::Sort),
        ("(output found bool)", 6, LoadCode::Sort),
        ("(output found (int 0 7))", 6, LoadCode::Sort),
    ];
    refuses(&rt, rt.alloc(), 4, 5, &cases)
}

#[test]
fn takes_main(rt: HostRuntime) -> Result<(), Fail> {
    let cases = [
        "(main)",
        "(main (emit 0) (emit (add n 1)))",
        "(main (let k 1) (emit k) (let found k))",
        "(main (if true))",
        "(main (if true (let k 1)) (if true (let k true)))",
        "(main (for x s) (for x s (emit x)))",
        "(main (call true) (if (lt n 1) (call (eq n 0))))",
    ];
    loads(&rt, rt.alloc(), 5, 6, &cases)
}

#[test]
fn refuses_shapes_in_main(rt: HostRuntime) -> Result<(), Fail> {
    let cases = [
        ("", 6, LoadCode::Form),
        ("(main emit)", 6, LoadCode::Form),
        ("(main ())", 6, LoadCode::Form),
        ("(main ((emit) n))", 6, LoadCode::Form),
        ("(main (while true))", 6, LoadCode::Form),
        ("(main (emit))", 6, LoadCode::Form),
        ("(main (emit n n))", 6, LoadCode::Form),
        ("(main (let k))", 6, LoadCode::Form),
        ("(main (let k 1 1))", 6, LoadCode::Form),
        ("(main (let K 1))", 6, LoadCode::Form),
        ("(main (if))", 6, LoadCode::Form),
        ("(main (for x))", 6, LoadCode::Form),
        ("(main (for 1 s))", 6, LoadCode::Form),
        ("(main (call (not)))", 6, LoadCode::Form),
        // shapes go before sorts
        ("(main (emit true) (emit))", 6, LoadCode::Form),
    ];
    refuses(&rt, rt.alloc(), 5, 6, &cases)
}

#[test]
fn refuses_sorts_in_main(rt: HostRuntime) -> Result<(), Fail> {
    let cases = [
        ("(main (emit true))", 6, LoadCode::Sort),
        ("(main (emit (add n 2)))", 6, LoadCode::Sort),
        ("(main (let n 1))", 6, LoadCode::Sort),
        ("(main (let k 1) (let k 1))", 6, LoadCode::Sort),
        ("(main (let k k))", 6, LoadCode::Sort),
        ("(main (emit k) (let k 1))", 6, LoadCode::Sort),
        ("(main (if true (let k 1)) (emit k))", 6, LoadCode::Sort),
        ("(main (if n))", 6, LoadCode::Sort),
        ("(main (for x n))", 6, LoadCode::Sort),
        ("(main (for n s))", 6, LoadCode::Sort),
        (
            "(main (for x s (if (some x s (lt x 1)))))",
            6,
            LoadCode::Sort,
        ),
        ("(main (let k (setof n s true)))", 6, LoadCode::Sort),
        ("(main (for x s) (emit x))", 6, LoadCode::Sort),
        ("(main (emit (cast (int 1 0) n)))", 6, LoadCode::Sort),
        ("(main (call))", 6, LoadCode::Sort),
        ("(main (call true true))", 6, LoadCode::Sort),
        ("(main (call n))", 6, LoadCode::Sort),
        ("(main (call m))", 6, LoadCode::Sort),
    ];
    refuses(&rt, rt.alloc(), 5, 6, &cases)
}

#[test]
fn refuses_main_before_the_search(rt: HostRuntime) -> Result<(), Fail> {
    let cases = [
        // nothing says what a call takes where the search form is missing or its parameters are refused
        ("(main (call 1 2))", 7, LoadCode::Form),
        ("(main (call k))", 6, LoadCode::Sort),
        ("(main (call 1 2)) (search)", 7, LoadCode::Form),
        ("(main (call 1 2)) (find ((m bool)))", 7, LoadCode::Form),
        (
            "(main (call 1 2)) (search ((m bool) (m bool)))",
            7,
            LoadCode::Form,
        ),
        (
            "(main (call 1 2)) (search ((m (int 1 0))))",
            7,
            LoadCode::Sort,
        ),
        // parameters count where statements after them are refused
        (
            "(main (call 1)) (search ((m bool)) (emit))",
            6,
            LoadCode::Sort,
        ),
        (
            "(main (call true)) (search ((m bool)) (emit))",
            7,
            LoadCode::Form,
        ),
        (
            "(main (call true)) (search ((m bool)) (emit m))",
            7,
            LoadCode::Sort,
        ),
        ("(main (emit)) (search ((m (int 1 0))))", 6, LoadCode::Form),
    ];
    refuses(&rt, rt.alloc(), 5, 7, &cases)
}

#[test]
fn takes_a_search(rt: HostRuntime) -> Result<(), Fail> {
    let cases = [
        "(search ())",
        "(search ((m bool) (k (set bool))) (emit n) (call m k))",
        "(search ((m bool)) (let found 1) (emit found))",
    ];
    loads(&rt, rt.alloc(), 6, 7, &cases)
}

#[test]
fn refuses_searches(rt: HostRuntime) -> Result<(), Fail> {
    let cases = [
        ("", 7, LoadCode::Form),
        ("(search)", 7, LoadCode::Form),
        ("(search m)", 7, LoadCode::Form),
        ("(search (m bool))", 7, LoadCode::Form),
        ("(search ((m)))", 7, LoadCode::Form),
        ("(search ((M bool)))", 7, LoadCode::Form),
        ("(search ((m m)))", 7, LoadCode::Form),
        ("(search ((n bool)))", 7, LoadCode::Form),
        ("(search ((found bool)))", 7, LoadCode::Form),
        ("(search ((m bool) (m bool)))", 7, LoadCode::Form),
        ("(search ((n (int 1 0))))", 7, LoadCode::Form),
        ("(search ((m (int 1 0))) (emit))", 7, LoadCode::Form),
        ("(search ((m (int 1 0))))", 7, LoadCode::Sort),
        ("(search ((m bool)) (emit m))", 7, LoadCode::Sort),
        ("(search ((m bool)) (call n))", 7, LoadCode::Sort),
        ("(search ((m bool)) (call))", 7, LoadCode::Sort),
        ("(search ((m bool)) (let m 1))", 7, LoadCode::Sort),
        ("(search ((m bool)) (let n 1))", 7, LoadCode::Sort),
        ("(search ((m bool)) (emit found))", 7, LoadCode::Sort),
    ];
    refuses(&rt, rt.alloc(), 6, 7, &cases)
}

#[test]
fn refuses_a_further_form(rt: HostRuntime) -> Result<(), Fail> {
    let cases = [
        ("(search ())", 8, LoadCode::Form),
        ("(def f () bool true)", 8, LoadCode::Form),
        ("x", 8, LoadCode::Form),
    ];
    refuses(&rt, rt.alloc(), 7, 7, &cases)
}

#[test]
fn tells_the_first_refusal(rt: HostRuntime) -> Result<(), Fail> {
    let cases = [
        (
            "(output found (int 1 0)) (main (emit)) (search)",
            5,
            LoadCode::Sort,
        ),
        (
            "(output found bool) (main (emit n)) (search)",
            6,
            LoadCode::Sort,
        ),
        ("(output found bool) (main) (search)", 7, LoadCode::Form),
    ];
    refuses(&rt, rt.alloc(), 4, 7, &cases)
}

/// So many bytes.
fn repeated(alloc: Global, byte: u8, count: usize) -> Result<Vec<u8>, Fail> {
    let mut bytes = Vec::new(alloc);
    for _ in 0..count {
        bytes.push(byte)?;
    }
    Ok(bytes)
}

#[test]
fn reads_no_large_file(rt: HostRuntime) -> Result<(), Fail> {
    let mut file = repeated(rt.alloc(), b')', 4194304)?;
    let read = LoadFault {
        form: 0,
        code: LoadCode::Read,
    };
    assert_eq!(rt; load(rt.alloc(), file.as_slice()).err(), Some(read));
    file.push(b')')?;
    let large = LoadFault {
        form: 0,
        code: LoadCode::Large,
    };
    assert_eq!(rt; load(rt.alloc(), file.as_slice()).err(), Some(large));
    Ok(())
}

/// A tree of so many lists, each but the first in another.
fn nested(alloc: Global, depth: usize) -> Result<Vec<u8>, Fail> {
    let mut file = repeated(alloc, b'(', depth)?;
    file.extend_from_slice(repeated(alloc, b')', depth)?.as_slice())?;
    Ok(file)
}

#[test]
fn reads_no_deep_tree(rt: HostRuntime) -> Result<(), Fail> {
    let file = nested(rt.alloc(), 250)?;
    let form = LoadFault {
        form: 1,
        code: LoadCode::Form,
    };
    assert_eq!(rt; load(rt.alloc(), file.as_slice()).err(), Some(form));
    let file = nested(rt.alloc(), 251)?;
    let read = LoadFault {
        form: 0,
        code: LoadCode::Read,
    };
    assert_eq!(rt; load(rt.alloc(), file.as_slice()).err(), Some(read));
    Ok(())
}

#[test]
fn tells_its_faults(rt: HostRuntime) -> Result<(), Fail> {
    let cases = [
        (0, LoadCode::Large, "form 0: the file is too large"),
        (0, LoadCode::Read, "form 0: the text does not read"),
        (1, LoadCode::Version, "form 1: the version is not known"),
        (
            7,
            LoadCode::Form,
            "form 7: the form is not one that may stand there",
        ),
        (7, LoadCode::Sort, "form 7: a sort is wrong"),
        (0, LoadCode::Memory, "form 0: out of memory"),
    ];
    for (form, code, want) in cases {
        let fault = LoadFault { form, code };
        assert_eq!(rt; format!(in rt.alloc(); "{fault}")?.as_str(), want);
    }
    Ok(())
}
