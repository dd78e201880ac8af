//! Calls of the program over files in memory.
use kid_outer::{SteadySink, SteadyStore};
use kid_top::kids;
use kid_value::Memory;
use std::alloc::Global;
use std::process::Abort;

pub const SOLVE: [&str; 4] = ["solve", "theory", "script", "inputs"];

pub const DERIVE: [&str; 5] = ["derive", "theory", "script", "derivation", "program"];

pub const RUN: [&str; 3] = ["run", "program", "inputs"];

pub const SQUARE: &str =
    "(theory square) (input n (int 0 100)) (require (le 1 n)) (output z (int 1 10)) (ensure (eq (mul z z) n))";

pub const SCRIPT: &str = "(match range)";

/// How a call ended.
#[derive(Drop)]
pub struct Ended {
    pub status: u8,
    pub store: SteadyStore,
    pub out: SteadySink,
    pub err: SteadySink,
}

pub fn words_of(alloc: Global, words: &[&str]) -> Result<Vec<String>, Memory> {
    let mut strings = Vec::new(alloc);
    for word in words {
        strings.push(String::from_str(alloc, word)?)?;
    }
    Ok(strings)
}

fn store_of(alloc: Global, files: &[(&str, &str)]) -> Result<SteadyStore, Memory> {
    let mut store = SteadyStore::new(alloc);
    for file in files {
        store.hold(file.0, file.1.as_bytes())?;
    }
    Ok(store)
}

fn done(alloc: Global, words: &[String], store: SteadyStore) -> Ended {
    let mut store = store;
    let mut out = SteadySink::new(alloc);
    let mut err = SteadySink::new(alloc);
    let status = kids(alloc, words, &mut store, &mut out, &mut err);
    Ended {
        status,
        store,
        out,
        err,
    }
}

/// Calls with these words over these files.
pub fn called(alloc: Global, words: &[&str], files: &[(&str, &str)]) -> Result<Ended, Memory> {
    let words = words_of(alloc, words)?;
    let store = store_of(alloc, files)?;
    Ok(done(alloc, &words, store))
}

pub fn has_status(ended: &Result<Ended, Memory>, status: u8) -> bool {
    matches!(ended, Ok(ended) if ended.status == status)
}

fn has_put(ended: &Result<Ended, Memory>, text: &str) -> bool {
    matches!(ended, Ok(ended) if ended.out.written() == text.as_bytes())
}

fn has_said(ended: &Result<Ended, Memory>, text: &str) -> bool {
    matches!(ended, Ok(ended) if ended.err.written() == text.as_bytes())
}

/// A call with these words over these files ends with this status, and with these texts on out and on err.
pub fn ends(
    rt: &impl Abort,
    alloc: Global,
    words: &[&str],
    files: &[(&str, &str)],
    status: u8,
    out: &str,
    err: &str,
) {
    let ended = called(alloc, words, files);
    assert!(rt; has_status(&ended, status), "{status} {out} {err}");
    assert!(rt; has_put(&ended, out), "{status} {out} {err}");
    assert!(rt; has_said(&ended, err), "{status} {out} {err}");
}
