//! Files of inputs.
use kid_prog::{Program, load};
use kid_run::{InputFault, read_inputs};
use std::alloc::Global;
use std::process::Abort;

fn fault_of(alloc: Global, program: &Program, bytes: &[u8]) -> Option<InputFault> {
    read_inputs(alloc, program, bytes).err()
}

// whether the bytes have this fault as inputs of the program, or none
fn has_fault(alloc: Global, program: &str, bytes: &[u8], want: Option<InputFault>) -> bool {
    match load(alloc, program.as_bytes()) {
        Ok(program) => fault_of(alloc, &program, bytes) == want,
        Err(_) => false,
    }
}

fn reads(rt: &impl Abort, alloc: Global, program: &str, rows: &[(&[u8], Option<InputFault>)]) {
    for row in rows {
        let (bytes, want) = *row;
        assert!(rt; has_fault(alloc, program, bytes, want), "at {want:?}");
    }
}

const OF_NONE: &str = "(program 1) (require true) (output z bool) (main) (search ())";

const FILES_OF_NONE: [(&[u8], Option<InputFault>); 7] = [
    (b"", None),
    (b"() ; two\n()", None),
    (b"x", Some(InputFault::Form(1))),
    (b"() x", Some(InputFault::Form(2))),
    (b"(true)", Some(InputFault::Form(1))),
    (b"() (())", Some(InputFault::Form(2))),
    (b"() (", Some(InputFault::Form(0))),
];

#[test]
fn reads_inputs_of_none(rt: HostRuntime) {
    reads(&rt, rt.alloc(), OF_NONE, &FILES_OF_NONE);
}

const OF_TWO: &str =
    "(program 1) (input n (int 0 9)) (input p bool) (require true) (output z bool) (main) (search ())";

const FILES_OF_TWO: [(&[u8], Option<InputFault>); 15] = [
    (b"(9 true)", None),
    (b"(0 false) (9 true)", None),
    (b"()", Some(InputFault::Form(1))),
    (b"(9)", Some(InputFault::Form(1))),
    (b"(9 true true)", Some(InputFault::Form(1))),
    (b"(10 true)", Some(InputFault::Form(1))),
    (b"(-1 true)", Some(InputFault::Form(1))),
    (b"(9 9)", Some(InputFault::Form(1))),
    (b"(true 9)", Some(InputFault::Form(1))),
    (b"((9 true))", Some(InputFault::Form(1))),
    (b"(1 true) (2 false) (3)", Some(InputFault::Form(3))),
    // the first of two
    (b"(1 true) x (3)", Some(InputFault::Form(2))),
    // what does not read is told before what is no input
    (b"(10 true) (9 true", Some(InputFault::Form(0))),
    (b"(9 true))", Some(InputFault::Form(0))),
    (b"(9 true) ;\x7f", Some(InputFault::Form(0))),
];

#[test]
fn reads_inputs_of_two(rt: HostRuntime) {
    reads(&rt, rt.alloc(), OF_TWO, &FILES_OF_TWO);
}

fn repeated(alloc: Global, piece: &[u8], count: u32, last: &[u8]) -> Option<Vec<u8>> {
    let mut file = Vec::new(alloc);
    for _ in 0..count {
        file.extend_from_slice(piece).ok()?;
    }
    file.extend_from_slice(last).ok()?;
    Some(file)
}

fn large_has(alloc: Global, file: Option<Vec<u8>>, want: Option<InputFault>) -> bool {
    match file {
        Some(file) => has_fault(alloc, OF_NONE, file.as_slice(), want),
        None => false,
    }
}

#[test]
fn names_a_late_form(rt: HostRuntime) {
    let alloc = rt.alloc();
    assert!(rt; large_has(alloc, repeated(alloc, b"()", 65535, b""), None));
    let late = repeated(alloc, b"()", 65535, b"x");
    assert!(rt; large_has(alloc, late, Some(InputFault::Form(65536))));
}

#[test]
fn reads_no_large_file(rt: HostRuntime) {
    let alloc = rt.alloc();
    assert!(rt; large_has(alloc, repeated(alloc, b" ", 4194304, b""), None));
    let larger = repeated(alloc, b" ", 4194304, b" ");
    assert!(rt; large_has(alloc, larger, Some(InputFault::Form(0))));
}
