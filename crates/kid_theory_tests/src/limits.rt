//! How long and how deep theories may be, and whole theories.
use crate::over::{is_refused, is_taken, refusal};
use kid_theory::TheoryCode;
use kid_value::Memory;
use std::alloc::Global;
use std::process::Abort;

fn add_times(file: &mut Vec<u8>, piece: &str, count: u32) -> Result<(), Memory> {
    for _ in 0..count {
        file.extend_from_slice(piece.as_bytes())?;
    }
    Ok(())
}

fn add_definition(alloc: Global, file: &mut Vec<u8>, at: u32) -> Result<(), Memory> {
    let form = format!(in alloc; "(def d{at} () bool true)")?;
    Ok(file.extend_from_slice(form.as_bytes())?)
}

/// The forms after the definitions.
const LAST: [&str; 4] = [
    "(input n bool)",
    "(require n)",
    "(output z bool)",
    "(ensure z)",
];

/// A theory of so many definitions, with so many of the last four forms.
fn with_definitions(alloc: Global, count: u32, ends: u32) -> Result<Vec<u8>, Memory> {
    let mut file = Vec::new(alloc);
    file.extend_from_slice(b"(theory t)")?;
    for at in 0..count {
        add_definition(alloc, &mut file, at)?;
    }
    for (at, form) in LAST.iter().enumerate() {
        if at < ends as usize {
            file.extend_from_slice(form.as_bytes())?;
        }
    }
    Ok(file)
}

#[test]
fn takes_1024_forms(rt: HostRuntime) {
    let file = with_definitions(rt.alloc(), 1019, 4);
    assert!(rt; is_taken(rt.alloc(), file));
}

#[test]
fn refuses_the_1025th_form(rt: HostRuntime) {
    let file = with_definitions(rt.alloc(), 1020, 4);
    assert!(rt; is_refused(rt.alloc(), file, 1025, TheoryCode::Limit));
}

/// A theory of so many definitions, which ends with another form.
fn with_definitions_and(alloc: Global, count: u32, form: &str) -> Result<Vec<u8>, Memory> {
    let mut file = with_definitions(alloc, count, 4)?;
    file.extend_from_slice(form.as_bytes())?;
    Ok(file)
}

#[test]
fn takes_a_count_as_the_1024th_form(rt: HostRuntime) {
    let file = with_definitions_and(rt.alloc(), 1018, "(first 1)");
    assert!(rt; is_taken(rt.alloc(), file));
}

#[test]
fn refuses_a_count_as_the_1025th_form(rt: HostRuntime) {
    let file = with_definitions_and(rt.alloc(), 1019, "(first 0)");
    assert!(rt; is_refused(rt.alloc(), file, 1025, TheoryCode::Limit));
}

#[test]
fn misses_a_form_after_the_1024th(rt: HostRuntime) {
    let file = with_definitions(rt.alloc(), 1020, 3);
    assert!(rt; is_refused(rt.alloc(), file, 1025, TheoryCode::Form));
}

/// 16 definitions, each of which calls the one before.
const CHAIN: &str =
    "(theory t) (def a () bool true) (def b () bool (a)) (def c () bool (b)) (def d () bool (c)) (def e () bool (d)) \
    (def f () bool (e)) (def g () bool (f)) (def h () bool (g)) (def i () bool (h)) (def j () bool (i)) (def k () bool (j)) \
    (def l () bool (k)) (def m () bool (l)) (def n () bool (m)) (def o () bool (n)) (def p () bool (o))";

fn after_chain(alloc: Global, rest: &str) -> Result<Vec<u8>, Memory> {
    let mut file = Vec::new(alloc);
    file.extend_from_slice(CHAIN.as_bytes())?;
    file.extend_from_slice(rest.as_bytes())?;
    Ok(file)
}

#[test]
fn takes_16_calls(rt: HostRuntime) {
    let file = after_chain(
        rt.alloc(),
        "(def q () bool (o)) (require (p)) (output z bool) (ensure z)",
    );
    assert!(rt; is_taken(rt.alloc(), file));
}

#[test]
fn refuses_17_calls(rt: HostRuntime) {
    let file = after_chain(rt.alloc(), "(def q () bool (p))");
    assert!(rt; is_refused(rt.alloc(), file, 18, TheoryCode::Limit));
}

#[test]
fn tells_17_calls_before_a_name(rt: HostRuntime) {
    let file = after_chain(rt.alloc(), "(def Q () bool (and (p) 1))");
    assert!(rt; is_refused(rt.alloc(), file, 18, TheoryCode::Limit));
}

#[test]
fn tells_a_shape_before_17_calls(rt: HostRuntime) {
    let file = after_chain(rt.alloc(), "(def q () bool (not (p) (p)))");
    assert!(rt; is_refused(rt.alloc(), file, 18, TheoryCode::Form));
}

/// A theory whose relation has three nodes and so many more.
fn with_nodes(alloc: Global, more: u32) -> Result<Vec<u8>, Memory> {
    let mut file = Vec::new(alloc);
    file.extend_from_slice(b"(theory t) (require true) (output z bool) (ensure (in 1 (set")?;
    add_times(&mut file, " 1", more)?;
    file.extend_from_slice(b")))")?;
    Ok(file)
}

#[test]
fn takes_4096_nodes(rt: HostRuntime) {
    let file = with_nodes(rt.alloc(), 4093);
    assert!(rt; is_taken(rt.alloc(), file));
}

#[test]
fn refuses_4097_nodes(rt: HostRuntime) {
    let file = with_nodes(rt.alloc(), 4094);
    assert!(rt; is_refused(rt.alloc(), file, 4, TheoryCode::Sort));
}

/// A theory whose condition is a truth value that is denied so many times, and so deeper by one.
fn with_denials(alloc: Global, count: u32) -> Result<Vec<u8>, Memory> {
    let mut file = Vec::new(alloc);
    file.extend_from_slice(b"(theory t) (require ")?;
    add_times(&mut file, "(not ", count)?;
    file.extend_from_slice(b"true")?;
    add_times(&mut file, ")", count)?;
    file.extend_from_slice(b") (output z bool) (ensure z)")?;
    Ok(file)
}

#[test]
fn takes_a_depth_of_128(rt: HostRuntime) {
    let file = with_denials(rt.alloc(), 127);
    assert!(rt; is_taken(rt.alloc(), file));
}

#[test]
fn refuses_a_depth_of_129(rt: HostRuntime) {
    let file = with_denials(rt.alloc(), 128);
    assert!(rt; is_refused(rt.alloc(), file, 2, TheoryCode::Sort));
}

/// A theory of 60 bytes and so many blanks.
fn with_blanks(alloc: Global, blanks: u32) -> Result<Vec<u8>, Memory> {
    let mut file = Vec::new(alloc);
    file.extend_from_slice(b"(theory blanks) (require true) (output z bool) (ensure true)")?;
    add_times(&mut file, " ", blanks)?;
    Ok(file)
}

fn is_taken_of(alloc: Global, file: Result<Vec<u8>, Memory>, length: usize) -> bool {
    match file {
        Ok(file) => file.len() == length && refusal(alloc, &file).is_none(),
        Err(_) => false,
    }
}

#[test]
fn takes_4194304_bytes(rt: HostRuntime) {
    let file = with_blanks(rt.alloc(), 4_194_244);
    assert!(rt; is_taken_of(rt.alloc(), file, 4_194_304));
}

#[test]
fn refuses_4194305_bytes(rt: HostRuntime) {
    let file = with_blanks(rt.alloc(), 4_194_245);
    assert!(rt; is_refused(rt.alloc(), file, 0, TheoryCode::Large));
}

fn takes(rt: &impl Abort, alloc: Global, texts: &[&str]) {
    for text in texts {
        assert!(rt; refusal(alloc, text.as_bytes()).is_none(), "at {text}");
    }
}

const THEORIES: [&str; 7] = [
    "(theory square) (input n (int 0 100)) (require (le 1 n)) (output z (int 1 10)) (ensure (eq (mul z z) n))",
    "(theory square) (input n (int 0 100)) (require (le 1 n)) (axiom no () (given) (holds false)) (output z (int 1 10)) \
        (ensure (eq (mul z z) n))",
    "(theory subsum) (input s (set (int 1 40))) (input t (int 0 820)) (require true) (output z (set (int 1 40))) \
        (ensure (and (subset z s) (eq (sum z) t)))",
    "(theory queens) (def safe ((v (seq (int 1 8) 8))) bool (all i (range 1 (len v)) (all j (range 1 (len v)) (implies (lt i j) \
        (and (not (eq (at v i 0) (at v j 0))) (and (not (eq (sub (at v j 0) (at v i 0)) (sub j i))) \
        (not (eq (sub (at v i 0) (at v j 0)) (sub j i))))))))) \
        (input n (int 1 8)) (require true) (output z (seq (int 1 8) 8)) \
        (ensure (and (eq (len z) n) (and (subset (items z) (range 1 n)) (safe z))))",
    "(theory colour) (input k (set (int 1 50))) (input c (set (int 1 8))) (input e (set (pair (int 1 50) (int 1 50)))) (require true) \
        (output z (map (int 1 50) (int 1 8))) (ensure (and (and (eq (dom z) k) (subset (ran z) c)) \
        (all p e (not (eq (get z (fst p) 0) (get z (snd p) 0))))))",
    "(theory between) (input a (int 1 10)) (input b (int 1 10)) (require true) (output z (int 1 10)) (ensure (and (le a z) (le z b)))",
    "(theory cap) (def low-all ((x (int 1 5))) bool (all i (range 1 5) (le x (add i 4)))) (require true) (output z (int 1 2)) \
        (ensure (all i (range 1 5) (low-all i)))",
];

#[test]
fn takes_theories(rt: HostRuntime) {
    takes(&rt, rt.alloc(), &THEORIES);
}
