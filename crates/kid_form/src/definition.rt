//! Definitions as trees.
ghost use Rattle.std.specs.Prelude.{◌≡◌, IfOk};
ghost use Rattle.kid_sexp.specs.Tree.{plain};
ghost use Rattle.kid_term.specs.DefView.{plain_def};
ghost use Rattle.kid_codec.specs.Reading.{Finds};
ghost use Rattle.kid_form.specs.Definition.{theory_definition_form, program_definition_form};

use crate::declared::{DeclaredNames, DeclaredWords};
use crate::leaves::{AnyTerm, AnyWord, Name, SortForm, TheoryTerm};
use crate::lists::read_four;
use crate::tree_form::TreeForm;
use kid_codec::shape::form;
use kid_codec::{CodecFault, begun, tree_of_sort, tree_of_term, word_tree};
use kid_sexp::Tree;
use kid_term::Def;
use kid_value::Memory;
use std::alloc::Global;

/// The definition that a tree of a theory has the form of, `(def WORD ((WORD SORT) ..) SORT TERM)`. The words may be names or not,
/// and the sorts in it allowed or not; no operator on words or rows stands in the term.
///
/// # Errors
///
/// `Form`: the tree has another form. `Memory`: memory is wanting.
pub fn read_theory_definition(alloc: Global, tree: &Tree) -> Result<Def, CodecFault>
    ensures { Finds plain_def result (theory_definition_form.read (plain tree.now)) }
{
    let Some(parts) = form(b"def", tree) else {
        return Err(CodecFault::Form);
    };
    let (name, parameters, sort, body) = read_four::<AnyWord, DeclaredWords, SortForm, TheoryTerm>(
        alloc, parts,
    )?;
    Ok(Def {
        name,
        parameters,
        sort,
        body,
    })
}

/// The definition that a tree of a program has the form of, `(def NAME ((NAME SORT) ..) SORT TERM)`. The sorts in it may be allowed
/// or not.
///
/// # Errors
///
/// `Form`: the tree has another form. `Memory`: memory is wanting.
pub fn read_program_definition(alloc: Global, tree: &Tree) -> Result<Def, CodecFault>
    ensures { Finds plain_def result (program_definition_form.read (plain tree.now)) }
{
    let Some(parts) = form(b"def", tree) else {
        return Err(CodecFault::Form);
    };
    let (name, parameters, sort, body) = read_four::<Name, DeclaredNames, SortForm, AnyTerm>(
        alloc, parts,
    )?;
    Ok(Def {
        name,
        parameters,
        sort,
        body,
    })
}

/// The tree of a definition, in theories and in programs.
///
/// # Errors
///
/// Fails where memory is wanting.
pub fn definition_tree(alloc: Global, of: &Def) -> Result<Tree, Memory>
    ensures theory { IfOk result (λ t. plain t ≡ theory_definition_form.spell (plain_def of.now)) }
    ensures program { IfOk result (λ t. plain t ≡ program_definition_form.spell (plain_def of.now)) }
{
    let mut trees = begun(alloc, b"def")?;
    trees.push(word_tree(alloc, of.name.as_slice())?)?;
    trees.push(DeclaredNames::tree(alloc, &of.parameters)?)?;
    trees.push(tree_of_sort(alloc, &of.sort)?)?;
    trees.push(tree_of_term(alloc, &of.body)?)?;
    Ok(Tree::List(trees))
}
