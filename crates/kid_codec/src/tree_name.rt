//! Names and tags as trees.
ghost use Rattle.std.specs.Prelude.{◌≡◌, true, false, MatchOption};
ghost use Rattle.kid_sexp.specs.Tree.{plain, plains};
ghost use Rattle.kid_codec.specs.NameSpelling.{spelled_name, spelled_names, is_tag, tag_name};
ghost use Rattle.kid_codec.specs.Reading.{Finds};

use crate::fault::CodecFault;
use crate::name::is_name;
use kid_sexp::Tree;
use kid_value::{Text, Texts};
use std::alloc::Global;

/// The name that a tree is.
///
/// # Errors
///
/// `Form`: the tree is no name. `Memory`: memory is wanting.
pub fn spelled_name(alloc: Global, tree: &Tree) -> Result<Text, CodecFault>
    ensures { Finds (λ x. x) result (spelled_name (plain tree.now)) }
{
    match tree {
        Tree::Atom(word) => if is_name(word.as_slice()) {
            Ok(word.copy(alloc)?)
        } else {
            Err(CodecFault::Form)
        },
        Tree::List(_) => Err(CodecFault::Form),
    }
}

/// The names that trees are.
pub fn spelled_names(alloc: Global, trees: &[Tree]) -> Result<Texts, CodecFault>
    ensures { Finds (λ ns. ns) result (spelled_names (plains trees.now)) }
{
    let mut names = Texts::new(alloc);
    for tree in trees {
        names.push(spelled_name(alloc, tree)?)?;
    }
    Ok(names)
}

/// The name behind the apostrophe, where the word is a tag.
pub fn tag_name(word: &[u8]) -> Option<&[u8]>
    ensures { MatchOption result (is_tag word.now ≡ false) (λ n. (is_tag word.now ≡ true) × (tag_name word.now ≡ n.now)) }
{
    match word.split_first() {
        Some((first, name)) => if *first == b'\'' && is_name(name) {
            Some(name)
        } else {
            None
        },
        None => None,
    }
}
