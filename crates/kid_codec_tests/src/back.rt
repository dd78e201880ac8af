//! Reads a text and prints what was read, or tells its fault. `None` is want of memory, or a text that is no tree where the test
//! needs one.
use kid_codec::{
    CodecFault, is_name, number_of, sort_from, sort_has_tags, sort_tree, term_has_tags, term_of,
    term_tree, value_of, value_tree,
};
use kid_sexp::{Forest, Tree, print, read};
use kid_value::Sort;
use std::alloc::Global;

pub fn number(word: &str) -> Option<i64> {
    number_of(word.as_bytes())
}

pub fn is_named(word: &str) -> bool {
    is_name(word.as_bytes())
}

fn tree(alloc: Global, text: &str) -> Option<Tree> {
    let mut trees = read(alloc, text.as_bytes()).ok()?.into_vec();
    trees.pop()
}

fn printed(alloc: Global, tree: Tree) -> Option<Vec<u8>> {
    let mut forest = Forest::new(alloc);
    forest.push(tree).ok()?;
    if !forest.is_printable() {
        return None;
    }
    print(alloc, &forest).ok()
}

fn sort(alloc: Global, text: &str) -> Option<Sort> {
    let tree = tree(alloc, text)?;
    sort_from(alloc, &tree).ok()
}

pub fn sort_back(alloc: Global, text: &str) -> Option<Vec<u8>> {
    let read = tree(alloc, text)?;
    let sort = sort_from(alloc, &read).ok()?;
    let tree = sort_tree(alloc, &sort).ok()?;
    printed(alloc, tree)
}

pub fn value_back(alloc: Global, of: &str, text: &str) -> Option<Vec<u8>> {
    let sort = sort(alloc, of)?;
    let tree = tree(alloc, text)?;
    let value = value_of(alloc, &tree, &sort).ok()?;
    let tree = value_tree(alloc, &value).ok()?;
    printed(alloc, tree)
}

pub fn term_back(alloc: Global, text: &str) -> Option<Vec<u8>> {
    let tree = tree(alloc, text)?;
    let term = term_of(alloc, &tree).ok()?;
    let tree = term_tree(alloc, &term).ok()?;
    printed(alloc, tree)
}

pub fn sort_holds_tags(alloc: Global, text: &str) -> Option<bool> {
    let sort = sort(alloc, text)?;
    Some(sort_has_tags(&sort))
}

pub fn term_holds_tags(alloc: Global, text: &str) -> Option<bool> {
    let tree = tree(alloc, text)?;
    let term = term_of(alloc, &tree).ok()?;
    Some(term_has_tags(&term))
}

/// Whether this text was printed.
pub fn is_text(found: Option<Vec<u8>>, want: &str) -> bool {
    match found {
        Some(found) => found.as_slice() == want.as_bytes(),
        None => false,
    }
}

pub fn sort_fault(alloc: Global, text: &str) -> Option<CodecFault> {
    let tree = tree(alloc, text)?;
    sort_from(alloc, &tree).err()
}

pub fn value_fault(alloc: Global, of: &str, text: &str) -> Option<CodecFault> {
    let sort = sort(alloc, of)?;
    let tree = tree(alloc, text)?;
    value_of(alloc, &tree, &sort).err()
}

pub fn term_fault(alloc: Global, text: &str) -> Option<CodecFault> {
    let tree = tree(alloc, text)?;
    term_of(alloc, &tree).err()
}

pub fn is_fault(found: Option<CodecFault>, want: CodecFault) -> bool {
    found == Some(want)
}
