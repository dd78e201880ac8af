//! Reads a text as a line or a move and prints what was read, or tells its fault. `None` is want of memory, or a text that is no tree
//! where the test needs one.
use kid_lines::{
    line_of, line_tree, move_of, move_tree, read_line, read_move, tree_of_line, tree_of_move,
};
use kid_moves::Move;
use kid_sexp::{Forest, Tree, print, read};
use kid_term::Why;
use std::alloc::Global;

pub fn tree(alloc: Global, text: &[u8]) -> Option<Tree> {
    let mut trees = read(alloc, text).ok()?.into_vec();
    trees.pop()
}

fn printed(alloc: Global, tree: Tree) -> Option<Vec<u8>> {
    let mut forest = Forest::new(alloc);
    forest.push(tree).ok()?;
    if !forest.is_printable() {
        return None;
    }
    print(alloc, &forest).ok()
}

fn line_read_back(alloc: Global, tree: &Tree) -> Option<Tree> {
    match line_of(alloc, tree) {
        Ok(line) => line_tree(alloc, &line).ok(),
        Err(_) => None,
    }
}

fn move_read_back(alloc: Global, tree: &Tree) -> Option<Tree> {
    match move_of(alloc, tree) {
        Ok(step) => move_tree(alloc, &step).ok(),
        Err(_) => None,
    }
}

pub fn line_back(alloc: Global, text: &str) -> Option<Vec<u8>> {
    let tree = tree(alloc, text.as_bytes())?;
    let back = line_read_back(alloc, &tree)?;
    printed(alloc, back)
}

pub fn move_back(alloc: Global, text: &str) -> Option<Vec<u8>> {
    let tree = tree(alloc, text.as_bytes())?;
    let back = move_read_back(alloc, &tree)?;
    printed(alloc, back)
}

/// By the reader and the printer for forms that hold lines.
pub fn line_again(alloc: Global, text: &str) -> Option<Vec<u8>> {
    let tree = tree(alloc, text.as_bytes())?;
    let line = read_line(alloc, &tree).ok()?;
    let back = tree_of_line(alloc, &line).ok()?;
    printed(alloc, back)
}

/// By the reader and the printer for forms that hold moves.
pub fn move_again(alloc: Global, text: &[u8]) -> Option<Vec<u8>> {
    let tree = tree(alloc, text)?;
    let step = read_move(alloc, &tree).ok()?;
    let back = tree_of_move(alloc, &step).ok()?;
    printed(alloc, back)
}

/// How many lines the move has that a text spells.
pub fn line_count(alloc: Global, text: &[u8]) -> Option<usize> {
    let tree = tree(alloc, text)?;
    match move_of(alloc, &tree) {
        Ok(Move::Copy(_, lines)) => Some(lines.items().len()),
        _ => None,
    }
}

pub fn line_fault(alloc: Global, text: &str) -> Option<Why> {
    let tree = tree(alloc, text.as_bytes())?;
    line_of(alloc, &tree).err()
}

pub fn move_fault(alloc: Global, text: &str) -> Option<Why> {
    let tree = tree(alloc, text.as_bytes())?;
    move_of(alloc, &tree).err()
}

/// Whether the text was refused for its form.
pub fn is_form(found: Option<Why>) -> bool {
    found == Some(Why::Form)
}

/// Whether this text was printed.
pub fn is_text(found: Option<Vec<u8>>, want: &[u8]) -> bool {
    match found {
        Some(found) => found.as_slice() == want,
        None => false,
    }
}
