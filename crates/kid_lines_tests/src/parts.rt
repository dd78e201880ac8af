//! What stands in the lines and moves that are read.
use crate::back::tree;
use kid_lines::{line_of, move_of};
use kid_moves::{Line, Move, Rule};
use kid_sexp::Tree;
use std::alloc::Global;
use std::process::Abort;

fn is_back_by_equation(line: &Line, number: u8) -> bool {
    match &line.rule {
        Rule::Equation(n) => line.back && *n == number,
        _ => false,
    }
}

fn is_at(line: &Line, path: &[u32], args: usize) -> bool {
    line.path.as_slice() == path && line.args.len() == args
}

fn reads_line(alloc: Global, tree: &Tree) -> bool {
    match line_of(alloc, tree) {
        Ok(line) => is_back_by_equation(&line, 45) && is_at(&line, &[1, 0], 2),
        Err(_) => false,
    }
}

/// Whether the move is the conclusion of the implication of this number.
fn concludes(step: &Move, number: u8) -> bool {
    match step {
        Move::Have(Rule::Implication(n), terms) => *n == number && terms.len() == 3,
        _ => false,
    }
}

fn reads_move(alloc: Global, tree: &Tree) -> bool {
    match move_of(alloc, tree) {
        Ok(step) => concludes(&step, 12),
        Err(_) => false,
    }
}

fn tells(rt: &impl Abort, found: Option<bool>) {
    assert!(rt; found == Some(true));
}

fn line_is_read(alloc: Global) -> Option<bool> {
    let tree = tree(alloc, b"(back (1 0) (e45 v (add a 1)))")?;
    Some(reads_line(alloc, &tree))
}

fn move_is_read(alloc: Global) -> Option<bool> {
    let tree = tree(alloc, b"(have m12 (u w (least w 1)))")?;
    Some(reads_move(alloc, &tree))
}

#[test]
fn reads_the_parts_of_a_line(rt: HostRuntime) {
    tells(&rt, line_is_read(rt.alloc()));
}

#[test]
fn reads_the_parts_of_a_move(rt: HostRuntime) {
    tells(&rt, move_is_read(rt.alloc()));
}
