//! Texts that are read and printed back, and texts that are refused.
use crate::back::{
    is_form, is_text, line_again, line_back, line_count, line_fault, move_again, move_back,
    move_fault,
};
use std::alloc::Global;
use std::process::Abort;

const LINES: [&str; 20] = [
    "(at () holds)\n",
    "(at (1) (use 6))\n",
    "(back () (use 5))\n",
    "(at (0) e40)\n",
    "(back (1 0) m1)\n",
    "(at (0 1) (b12 (range 1 (len v))))\n",
    "(at () (fold safe v))\n",
    "(at () (fold f))\n",
    "(at (4294967295) unfold)\n",
    "(at () (use 4294967295))\n",
    "(at () e0)\n",
    "(at () b255)\n",
    "(at () e)\n",
    "(at () e-5)\n",
    "(at () m1x)\n",
    "(at () my-law)\n",
    "(at () (my-law x (add x 1)))\n",
    "(at () (unfold x))\n",
    "(at () (e45 (cast (int 0 3) x)))\n",
    "(at () uncast)\n",
];

const NO_LINES: [&str; 18] = [
    "at",
    "()",
    "(at)",
    "(at ())",
    "(at () holds holds)",
    "(forth () holds)",
    "((at) () holds)",
    "(at 0 holds)",
    "(at (-1) holds)",
    "(at (4294967296) holds)",
    "(at (01) holds)",
    "(at ((0)) holds)",
    "(normal (e1) 5)",
    "(left 1)",
    "(at () (e45 (cast (int 3 0) x)))",
    "(at () (e45 (wcard w)))",
    "(at () (e45 (wor)))",
    "(at () (fold f (wcard w)))",
];

/// Read as no rule.
const NO_RULES: [&str; 20] = [
    "(at () (e1))",
    "(at () e256)",
    "(at () e01)",
    "(at () 'red)",
    "(at () use)",
    "(at () fold)",
    "(at () (use))",
    "(at () (use 5 x))",
    "(at () (use -1))",
    "(at () (use 4294967296))",
    "(at () (fold))",
    "(at () (fold 5))",
    "(at () (fold add x))",
    "(at () add)",
    "(at () true)",
    "(at () 5)",
    "(at () ())",
    "(at () ((e45) v))",
    "(at () normal)",
    "(at () have)",
];

const MOVES: [&str; 12] = [
    "(left 1)\n",
    "(right 4294967295)\n",
    "(join 1 2)\n",
    "(again 0)\n",
    "(have m9 (w 1))\n",
    "(have m12 (u w (least w 1)))\n",
    "(have no ())\n",
    "(have (use 3) ())\n",
    "(have (fold f) (x))\n",
    "(copy 7 (at (1) (use 6)))\n",
    "(copy 8 (at () unfold) (at () (b12 (range 1 (len v)))))\n",
    "(copy 1)\n",
];

const NO_MOVES: [&str; 27] = [
    "left",
    "()",
    "(left)",
    "(left 1 2)",
    "(left x)",
    "(left -1)",
    "(left 4294967296)",
    "(right (1))",
    "(join 1)",
    "(join 1 2 3)",
    "(again 01)",
    "(have m9)",
    "(have m9 w)",
    "(have m9 (w) 1)",
    "(have (e45 v) (x))",
    "(have (m9) (w))",
    "(have m256 ())",
    "(have m9 ((cast (int 3 0) x)))",
    "(have m9 ((wcard w)))",
    "(copy)",
    "(copy x)",
    "(copy 7 (at (1)))",
    "(copy 7 (normal (e1) 5))",
    "(want true)",
    "(closure (m1) 2)",
    "(at () holds)",
    "(by (left 1))",
];

fn lines_read_back(rt: &impl Abort, alloc: Global, texts: &[&str]) {
    for text in texts {
        assert!(rt;
            is_text(line_back(alloc, text), text.as_bytes()),
            "at {text}"
        );
    }
}

fn lines_are_printed(rt: &impl Abort, alloc: Global, texts: &[&str]) {
    for text in texts {
        assert!(rt;
            is_text(line_again(alloc, text), text.as_bytes()),
            "at {text}"
        );
    }
}

fn are_no_lines(rt: &impl Abort, alloc: Global, texts: &[&str]) {
    for text in texts {
        assert!(rt; is_form(line_fault(alloc, text)), "at {text}");
    }
}

fn moves_read_back(rt: &impl Abort, alloc: Global, texts: &[&str]) {
    for text in texts {
        assert!(rt;
            is_text(move_back(alloc, text), text.as_bytes()),
            "at {text}"
        );
    }
}

fn are_no_moves(rt: &impl Abort, alloc: Global, texts: &[&str]) {
    for text in texts {
        assert!(rt; is_form(move_fault(alloc, text)), "at {text}");
    }
}

/// A copy of a fact after so many lines.
fn many(alloc: Global, count: usize) -> Option<Vec<u8>> {
    let mut text = Vec::new(alloc);
    text.extend_from_slice(b"(copy 1").ok()?;
    for _ in 0..count {
        text.extend_from_slice(b" (at (1 0) (e45 v))").ok()?;
    }
    text.extend_from_slice(b")\n").ok()?;
    Some(text)
}

fn count_of_many(alloc: Global, count: usize) -> Option<usize> {
    let text = many(alloc, count)?;
    line_count(alloc, text.as_slice())
}

fn many_are_printed(alloc: Global, count: usize) -> Option<bool> {
    let text = many(alloc, count)?;
    Some(is_text(move_again(alloc, text.as_slice()), text.as_slice()))
}

#[test]
fn reads_lines(rt: HostRuntime) {
    lines_read_back(&rt, rt.alloc(), &LINES);
}

#[test]
fn prints_lines(rt: HostRuntime) {
    lines_are_printed(&rt, rt.alloc(), &LINES);
}

#[test]
fn refuses_lines(rt: HostRuntime) {
    are_no_lines(&rt, rt.alloc(), &NO_LINES);
}

#[test]
fn refuses_rules(rt: HostRuntime) {
    are_no_lines(&rt, rt.alloc(), &NO_RULES);
}

#[test]
fn reads_moves(rt: HostRuntime) {
    moves_read_back(&rt, rt.alloc(), &MOVES);
}

#[test]
fn refuses_moves(rt: HostRuntime) {
    are_no_moves(&rt, rt.alloc(), &NO_MOVES);
}

// No clause says that memory suffices.
#[test]
fn reads_a_thousand_lines(rt: HostRuntime) {
    assert!(rt; count_of_many(rt.alloc(), 1000) == Some(1000));
}

#[test]
fn prints_a_thousand_lines(rt: HostRuntime) {
    assert!(rt; many_are_printed(rt.alloc(), 1000) == Some(true));
}
