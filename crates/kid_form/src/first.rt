//! How many answers are wanted.
ghost use Rattle.std.specs.Prelude.{◌≡◌, IfOk};
ghost use Rattle.kid_sexp.specs.Tree.{plain};
ghost use Rattle.kid_codec.specs.Reading.{Finds};
ghost use Rattle.kid_form.specs.First.{count_of, first_form};

use crate::leaves::Number;
use crate::lists::read_one;
use kid_codec::shape::form;
use kid_codec::{CodecFault, begun, number_tree};
use kid_sexp::Tree;
use kid_value::Memory;
use std::alloc::Global;

/// No more answers are asked for.
const MAX_COUNT: i64 = 1_000_000;

fn count_of(n: i64) -> Option<u32>
    ensures { result ≡ count_of n }
{
    if 1 <= n && n <= MAX_COUNT {
        Some(n as u32)
    } else {
        None
    }
}

/// The number of `(first NUMBER)`, from 1 to 1,000,000.
///
/// # Errors
///
/// `Form`: the tree has another form. `Memory`: memory is wanting.
pub fn read_first(alloc: Global, tree: &Tree) -> Result<u32, CodecFault>
    ensures { Finds (λ n. n) result (first_form.read (plain tree.now)) }
{
    let Some(parts) = form(b"first", tree) else {
        return Err(CodecFault::Form);
    };
    match count_of(read_one::<Number>(alloc, parts)?) {
        Some(count) => Ok(count),
        None => Err(CodecFault::Form),
    }
}

/// The tree `(first NUMBER)`.
///
/// # Errors
///
/// Fails where memory is wanting.
pub fn first_tree(alloc: Global, count: u32) -> Result<Tree, Memory>
    ensures { IfOk result (λ t. plain t ≡ first_form.spell count) }
{
    let mut trees = begun(alloc, b"first")?;
    trees.push(number_tree(alloc, i64::from(count))?)?;
    Ok(Tree::List(trees))
}
