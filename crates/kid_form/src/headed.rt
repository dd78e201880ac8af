//! Lists of a word and one or two trees, as `(require TERM)` and `(input NAME SORT)`.
ghost use Rattle.std.specs.Prelude.{◌≡◌, IfOk};
ghost use Rattle.kid_sexp.specs.Tree.{plain};
ghost use Rattle.kid_codec.specs.Reading.{Finds};
ghost use Rattle.kid_form.specs.FormLists.{one, two};
ghost use Rattle.kid_form.specs.FormTrees.{headed};

use crate::lists::{read_one, read_two};
use crate::tree_form::TreeForm;
use kid_codec::shape::form;
use kid_codec::{CodecFault, begun};
use kid_sexp::Tree;
use kid_value::Memory;
use std::alloc::Global;

/// What the tree behind the word spells.
///
/// # Errors
///
/// `Form`: the tree has another form. `Memory`: memory is wanting.
pub fn read_headed_one<A: TreeForm>(
    alloc: Global,
    word: &[u8],
    tree: &Tree,
) -> Result<A::Of, CodecFault>
    ensures { Finds A.view result ((headed word.now (one A.form)).read (plain tree.now)) }
{
    match form(word, tree) {
        Some(parts) => read_one::<A>(alloc, parts),
        None => Err(CodecFault::Form),
    }
}

/// What the two trees behind the word spell.
///
/// # Errors
///
/// `Form`: the tree has another form. `Memory`: memory is wanting.
pub fn read_headed_two<A: TreeForm, B: TreeForm>(
    alloc: Global,
    word: &[u8],
    tree: &Tree,
) -> Result<(A::Of, B::Of), CodecFault>
    ensures { Finds (λ p. (A.view p.0, B.view p.1)) result ((headed word.now (two A.form B.form)).read (plain tree.now)) }
{
    match form(word, tree) {
        Some(parts) => read_two::<A, B>(alloc, parts),
        None => Err(CodecFault::Form),
    }
}

/// The list of the word and a tree.
///
/// # Errors
///
/// Fails where memory is wanting.
pub fn headed_one_tree<A: TreeForm>(alloc: Global, word: &[u8], of: &A::Of) -> Result<Tree, Memory>
    ensures { IfOk result (λ t. plain t ≡ (headed word.now (one A.form)).spell (A.view of.now)) }
{
    let mut trees = begun(alloc, word)?;
    trees.push(A::tree(alloc, of)?)?;
    Ok(Tree::List(trees))
}

/// The list of the word and two trees.
///
/// # Errors
///
/// Fails where memory is wanting.
pub fn headed_two_tree<A: TreeForm, B: TreeForm>(
    alloc: Global,
    word: &[u8],
    first: &A::Of,
    second: &B::Of,
) -> Result<Tree, Memory>
    ensures { IfOk result (λ t. plain t ≡ (headed word.now (two A.form B.form)).spell (A.view first.now, B.view second.now)) }
{
    let mut trees = begun(alloc, word)?;
    trees.push(A::tree(alloc, first)?)?;
    trees.push(B::tree(alloc, second)?)?;
    Ok(Tree::List(trees))
}
