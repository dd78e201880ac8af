//! Lists of trees by the forms of their parts. Each reader answers `Form` where the trees have another form, and `Memory` where memory
//! is wanting.
ghost use Rattle.std.specs.Prelude.{◌≡◌, IfOk, map};
ghost use Rattle.kid_sexp.specs.Plain.{join};
ghost use Rattle.kid_sexp.specs.Tree.{plain, plains};
ghost use Rattle.kid_codec.specs.Reading.{Finds};
ghost use Rattle.kid_form.specs.FormLists.{one, two, four, next, each};
ghost use Rattle.kid_form.specs.FormTrees.{listed};

use crate::tree_form::TreeForm;
use kid_codec::CodecFault;
use kid_codec::shape::{couple, quadruple, single};
use kid_sexp::{Forest, Tree};
use kid_value::Memory;
use std::alloc::Global;

/// What each tree spells.
pub fn read_each<F: TreeForm>(alloc: Global, trees: &[Tree]) -> Result<Vec<F::Of>, CodecFault>
    ensures { Finds (λ v. map F.view v.items) result ((each F.form).read (plains trees.now)) }
{
    let mut items = Vec::new(alloc);
    for tree in trees {
        items.push(F::read(alloc, tree)?)?;
    }
    Ok(items)
}

/// What each tree of a list spells.
pub fn read_listed<F: TreeForm>(alloc: Global, tree: &Tree) -> Result<Vec<F::Of>, CodecFault>
    ensures { Finds (λ v. map F.view v.items) result ((listed (each F.form)).read (plain tree.now)) }
{
    match tree {
        Tree::Atom(_) => Err(CodecFault::Form),
        Tree::List(trees) => read_each::<F>(alloc, trees.as_slice()),
    }
}

/// Puts the trees of the items after others.
///
/// # Errors
///
/// Fails where memory is wanting. The first few trees may then have been put.
pub fn put_each<F: TreeForm>(
    alloc: Global,
    trees: &mut Forest,
    items: &[F::Of],
) -> Result<(), Memory>
    ensures { IfOk result (λ _. trees.new ≡ join trees.old ((each F.form).spell (map F.view items.now))) }
{
    for item in items {
        trees.push(F::tree(alloc, item)?)?;
    }
    Ok(())
}

/// What one tree spells.
pub fn read_one<A: TreeForm>(alloc: Global, trees: &[Tree]) -> Result<A::Of, CodecFault>
    ensures { Finds A.view result ((one A.form).read (plains trees.now)) }
{
    match single(trees) {
        Some(tree) => A::read(alloc, tree),
        None => Err(CodecFault::Form),
    }
}

/// What two trees spell.
pub fn read_two<A: TreeForm, B: TreeForm>(
    alloc: Global,
    trees: &[Tree],
) -> Result<(A::Of, B::Of), CodecFault>
    ensures { Finds (λ p. (A.view p.0, B.view p.1)) result ((two A.form B.form).read (plains trees.now)) }
{
    let Some((first, second)) = couple(trees) else {
        return Err(CodecFault::Form);
    };
    Ok((A::read(alloc, first)?, B::read(alloc, second)?))
}

/// What four trees spell.
pub fn read_four<A: TreeForm, B: TreeForm, C: TreeForm, D: TreeForm>(
    alloc: Global,
    trees: &[Tree],
) -> Result<(A::Of, B::Of, C::Of, D::Of), CodecFault>
    ensures { Finds (λ q. (A.view q.0, B.view q.1, C.view q.2, D.view q.3)) result ((four A.form B.form C.form D.form).read (plains trees.now)) }
{
    let Some((first, second, third, fourth)) = quadruple(trees) else {
        return Err(CodecFault::Form);
    };
    Ok((
        A::read(alloc, first)?,
        B::read(alloc, second)?,
        C::read(alloc, third)?,
        D::read(alloc, fourth)?,
    ))
}

/// What a tree spells, and what each tree after it does.
pub fn read_next<A: TreeForm, B: TreeForm>(
    alloc: Global,
    trees: &[Tree],
) -> Result<(A::Of, Vec<B::Of>), CodecFault>
    ensures { Finds (λ p. (A.view p.0, map B.view p.1.items)) result ((next A.form (each B.form)).read (plains trees.now)) }
{
    let Some((first, rest)) = trees.split_first() else {
        return Err(CodecFault::Form);
    };
    Ok((A::read(alloc, first)?, read_each::<B>(alloc, rest)?))
}
