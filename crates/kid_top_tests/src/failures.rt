//! Files that are too large, and files and sinks that fail.
use crate::called::{DERIVE, RUN, SCRIPT, SOLVE, SQUARE, words_of};
use kid_outer::{MemorySink, MemoryStore, SteadySink, SteadyStore};
use kid_top::kids;
use kid_value::Memory;
use std::alloc::Global;

fn repeated(alloc: Global, byte: u8, count: usize) -> Result<Vec<u8>, Memory> {
    let mut bytes = Vec::new(alloc);
    for _ in 0..count {
        bytes.push(byte)?;
    }
    Ok(bytes)
}

fn hold_blanks(alloc: Global, store: &mut SteadyStore, count: usize) -> Result<(), Memory> {
    let file = repeated(alloc, b' ', count)?;
    store.hold("theory", &file)
}

fn solve(
    alloc: Global,
    store: &mut SteadyStore,
    out: &mut SteadySink,
    err: &mut SteadySink,
) -> Result<u8, Memory> {
    let words = words_of(alloc, &SOLVE)?;
    Ok(kids(alloc, &words, store, out, err))
}

/// Whether a theory of 4194304 blanks is refused for its form, and one of one more for its size.
fn refuses_blanks(alloc: Global) -> bool {
    let mut store = SteadyStore::new(alloc);
    let mut out = SteadySink::new(alloc);
    let mut err = SteadySink::new(alloc);
    let is_held = hold_blanks(alloc, &mut store, 4194304).is_ok();
    let first = solve(alloc, &mut store, &mut out, &mut err);
    let is_held_again = hold_blanks(alloc, &mut store, 4194305).is_ok();
    let second = solve(alloc, &mut store, &mut out, &mut err);
    is_held
        && is_held_again
        && matches!(first, Ok(5))
        && matches!(second, Ok(5))
        && err.written() == b"(theory 1 form)\n(theory 0 large)\n".as_slice()
}

#[test]
fn refuses_a_theory_that_is_too_large(rt: HostRuntime) {
    assert!(rt; refuses_blanks(rt.alloc()));
}

/// A store of these files whose calls fail at one place.
fn store_of(alloc: Global, failing: u64, files: &[(&str, &str)]) -> Result<MemoryStore, Memory> {
    let failing = vec![in alloc; failing]?;
    let mut store = MemoryStore::new(alloc, failing);
    for file in files {
        store.hold(file.0, file.1.as_bytes())?;
    }
    Ok(store)
}

fn derive(
    alloc: Global,
    store: &mut MemoryStore,
    out: &mut SteadySink,
    err: &mut SteadySink,
) -> Result<u8, Memory> {
    let words = words_of(alloc, &DERIVE)?;
    Ok(kids(alloc, &words, store, out, err))
}

const DERIVED: [(&str, &str); 2] = [("theory", SQUARE), ("script", SCRIPT)];

/// Whether the fourth call of the store fails, with the derivation saved and no program.
fn keeps_derivation(alloc: Global, store: &mut MemoryStore) -> bool {
    let mut out = SteadySink::new(alloc);
    let mut err = SteadySink::new(alloc);
    matches!(derive(alloc, store, &mut out, &mut err), Ok(3))
        && store.held("derivation").is_some()
        && store.held("program").is_none()
        && err.written() == b"(fault)\n".as_slice()
}

fn keeps(alloc: Global) -> Result<bool, Memory> {
    let mut store = store_of(alloc, 4, &DERIVED)?;
    Ok(keeps_derivation(alloc, &mut store))
}

#[test]
fn keeps_the_derivation_where_the_program_fails(rt: HostRuntime) {
    assert!(rt; matches!(keeps(rt.alloc()), Ok(true)));
}

fn solve_failing(
    alloc: Global,
    store: &mut MemoryStore,
    out: &mut MemorySink,
    err: &mut SteadySink,
) -> Result<u8, Memory> {
    let words = words_of(alloc, &SOLVE)?;
    Ok(kids(alloc, &words, store, out, err))
}

const SOLVED: [(&str, &str); 3] = [("theory", SQUARE), ("script", SCRIPT), ("inputs", "(49)")];

/// Whether a put on out fails in the first call, and the fifth call of the store, which loads the script, in the second.
fn stops_twice(alloc: Global, store: &mut MemoryStore, out: &mut MemorySink) -> bool {
    let mut err = SteadySink::new(alloc);
    let first = solve_failing(alloc, store, out, &mut err);
    let is_front = out.written() == b"7\n(an".as_slice();
    let second = solve_failing(alloc, store, out, &mut err);
    matches!(first, Ok(3))
        && is_front
        && matches!(second, Ok(3))
        && out.written() == b"7\n(an".as_slice()
        && err.written() == b"(fault)\n(fault)\n".as_slice()
}

fn stops(alloc: Global) -> Result<bool, Memory> {
    let mut store = store_of(alloc, 5, &SOLVED)?;
    let failing = vec![in alloc; (2, 3)]?;
    let mut out = MemorySink::new(alloc, failing);
    Ok(stops_twice(alloc, &mut store, &mut out))
}

#[test]
fn stops_where_a_file_or_out_fails(rt: HostRuntime) {
    assert!(rt; matches!(stops(rt.alloc()), Ok(true)));
}

/// The status of a call over a store and an err that may fail.
fn status_over(
    alloc: Global,
    words: &[&str],
    store: &mut MemoryStore,
    err: &mut MemorySink,
) -> Result<u8, Memory> {
    let words = words_of(alloc, words)?;
    let mut out = SteadySink::new(alloc);
    Ok(kids(alloc, &words, store, &mut out, err))
}

/// Whether a call loads each of three files once: the first call of a store that fails at its fourth load ends well, and
/// the second does not.
fn loads_once(alloc: Global) -> Result<bool, Memory> {
    let files = [("theory", SQUARE), ("script", SCRIPT), ("inputs", "(49)")];
    let mut store = store_of(alloc, 4, &files)?;
    let mut err = MemorySink::new(alloc, Vec::new(alloc));
    let first = status_over(alloc, &SOLVE, &mut store, &mut err)?;
    let second = status_over(alloc, &SOLVE, &mut store, &mut err)?;
    Ok(first == 0 && second == 3)
}

#[test]
fn loads_each_file_once(rt: HostRuntime) {
    assert!(rt; matches!(loads_once(rt.alloc()), Ok(true)));
}

/// Whether an err that fails after five bytes leaves the status as it is.
fn keeps_the_status(alloc: Global) -> Result<bool, Memory> {
    let mut store = store_of(alloc, 9, &[])?;
    let mut err = MemorySink::new(alloc, vec![in alloc; (1, 5)]?);
    let status = status_over(alloc, &RUN, &mut store, &mut err)?;
    Ok(status == 12 && err.written() == b"(abse".as_slice())
}

#[test]
fn keeps_the_status_where_err_fails(rt: HostRuntime) {
    assert!(rt; matches!(keeps_the_status(rt.alloc()), Ok(true)));
}
