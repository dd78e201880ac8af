ghost use Rattle.std.specs.Prelude.{◌≡◌, ◌≤◌, ◌++◌, IsTrue, IfOk, OnOk};
ghost use Rattle.kid_sexp.specs.Plain.{depth};
ghost use Rattle.kid_sexp.specs.Printing.{tree_text, members, further, text, is_printable};
ghost use Rattle.kid_sexp.specs.Spells.{Spells};
ghost use Rattle.kid_sexp.specs.Tree.{plain, plains};

use crate::fault::PrintFault;
use crate::tree::{Forest, Tree};
use std::alloc::{AllocError, Global};

/// Puts the text of a tree at the end.
#[cycle(put)]
fn put_tree(out: &mut Vec<u8>, tree: &Tree) -> Result<(), AllocError>
    ensures { OnOk result (out.new.items ≡ out.old.items ++ tree_text (plain tree.now)) }
{
    match tree {
        Tree::Atom(word) => out.extend_from_slice(word.as_slice())?,
        Tree::List(inner) => {
            out.push(b'(')?;
            put_members(out, inner.as_slice())?;
            out.push(b')')?;
        }
    }
    Ok(())
}

/// Puts the members of a list, one space between them.
#[cycle(put)]
fn put_members(out: &mut Vec<u8>, trees: &[Tree]) -> Result<(), AllocError>
    ensures { OnOk result (out.new.items ≡ out.old.items ++ members (plains trees.now)) }
{
    let Some((first, others)) = trees.split_first() else {
        return Ok(());
    };
    put_tree(out, first)?;
    put_further(out, others)
}

/// Puts each tree after a space.
#[cycle(put)]
fn put_further(out: &mut Vec<u8>, trees: &[Tree]) -> Result<(), AllocError>
    ensures { OnOk result (out.new.items ≡ out.old.items ++ further (plains trees.now)) }
{
    for tree in trees {
        out.push(b' ')?;
        put_tree(out, tree)?;
    }
    Ok(())
}

/// The one-space text of a forest: each tree on its own line, which byte 10 ends, one space
/// between the members of a list, and none inside of a bracket. Each atom must be one or more
/// bytes 33 to 126 other than `(`, `)` and `;`, as `Forest::is_printable` tells.
///
/// # Errors
///
/// `Memory`: memory ran out.
pub fn print(alloc: Global, forest: &Forest) -> Result<Vec<u8>, PrintFault>
    requires { IsTrue (is_printable forest.now) }
    ensures text { IfOk result (λ printed. printed.items ≡ text forest.now) }
    // So it is read again.
    ensures spells { depth forest.now ≤ 250 → IfOk result (λ printed. Spells printed.items forest.now) }
{
    let mut out = Vec::new(alloc);
    for tree in forest.as_slice() {
        put_tree(&mut out, tree)?;
        out.push(b'\n')?;
    }
    Ok(out)
}
