//! How deep the calls of definitions go.
use crate::notation::terms;
use kid_term::{CallDepths, MAX_CALL_DEPTH};
use kid_value::Text;
use std::alloc::Global;
use std::process::Abort;

fn know(alloc: Global, depths: &mut CallDepths, name: &str, depth: u8) -> Option<()> {
    let name = Text::from_slice(alloc, name.as_bytes()).ok()?;
    depths.push(name, depth).ok()
}

fn depths(alloc: Global, rows: &[(&str, u8)]) -> Option<CallDepths> {
    let mut depths = CallDepths::new(alloc);
    for row in rows {
        know(alloc, &mut depths, row.0, row.1)?;
    }
    Some(depths)
}

fn body_depth(alloc: Global, known: &Option<CallDepths>, text: &str) -> Option<u8> {
    let terms = terms(alloc, text)?;
    match (known, terms.as_slice()) {
        (Some(known), [body]) => Some(known.of_body(body)),
        _ => None,
    }
}

fn is_deep(alloc: Global, known: &Option<CallDepths>, text: &str, want: u8) -> bool {
    matches!(body_depth(alloc, known, text), Some(depth) if depth == want)
}

fn counts_calls(rt: &impl Abort, alloc: Global, known: &Option<CallDepths>, rows: &[(&str, u8)]) {
    for row in rows {
        let (body, want) = *row;
        assert!(rt; is_deep(alloc, known, body, want), "at {body}");
    }
}

// f stands twice, and the first one counts
const DEPTHS: [(&str, u8); 6] = [
    ("f", 1),
    ("g", 3),
    ("i", 15),
    ("h", 16),
    ("t", 17),
    ("f", 9),
];

const BODIES: [(&str, u8); 21] = [
    ("x", 1),
    ("3", 1),
    ("E", 1),
    ("!x", 1),
    // a name of the environment, and a call of what is not there
    ("f", 1),
    ("@ux", 1),
    ("@fx", 2),
    ("@gx", 4),
    ("@ix", 16),
    ("@hx", 17),
    ("@tx", 17),
    ("<@fx@gx", 4),
    ("<@gx@fx", 4),
    ("?pq@gx", 4),
    ("$fx@gx", 4),
    ("@g@fx", 4),
    (":9@gx", 4),
    ("Ays@gy", 4),
    ("Ay@gsT", 4),
    ("Ay@fs@gy", 4),
    ("Ay@gs@fy", 4),
];

#[test]
fn counts_the_depth_of_calls(rt: HostRuntime) {
    assert!(rt; MAX_CALL_DEPTH == 16);
    counts_calls(&rt, rt.alloc(), &depths(rt.alloc(), &DEPTHS), &BODIES);
}

// so many definitions of f, and one of g with depth 5
fn many(alloc: Global, count: u32) -> Option<CallDepths> {
    let mut depths = CallDepths::new(alloc);
    for _ in 0..count {
        know(alloc, &mut depths, "f", 1)?;
    }
    know(alloc, &mut depths, "g", 5)?;
    Some(depths)
}

const DEEP: [(&str, u8); 1] = [("D@gx", 6)];

#[test]
fn counts_calls_of_the_last_of_many(rt: HostRuntime) {
    counts_calls(&rt, rt.alloc(), &many(rt.alloc(), 1000), &DEEP);
}
