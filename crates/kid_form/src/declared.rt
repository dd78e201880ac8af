//! Names with their sorts. In theories the name may be any word, of which it is tested later whether it is a name.
ghost use Rattle.std.specs.Prelude.{◌≡◌, IfOk, map};
ghost use Rattle.kid_sexp.specs.Plain.{list};
ghost use Rattle.kid_sexp.specs.Tree.{plain};
ghost use Rattle.kid_value.specs.NameView.{plain_name};
ghost use Rattle.kid_form.specs.Leaves.{word_form, declared, declared_names};

use crate::leaves::{AnyWord, Name, SortForm};
use crate::lists::{put_each, read_listed, read_two};
use crate::tree_form::TreeForm;
use kid_codec::{CodecFault, tree_of_sort, word_tree};
use kid_sexp::{Forest, Tree};
use kid_value::{Memory, Names, Sort, Text};
use std::alloc::Global;

/// The list of a name and its sort.
fn declared_tree(alloc: Global, of: &(Text, Sort)) -> Result<Tree, Memory>
    ensures { IfOk result (λ t. plain t ≡ list ((declared word_form).spell (plain_name of.now))) }
{
    let mut trees = Forest::new(alloc);
    trees.push(word_tree(alloc, of.0.as_slice())?)?;
    trees.push(tree_of_sort(alloc, &of.1)?)?;
    Ok(Tree::List(trees))
}

/// `(WORD SORT)`, as theories have it.
pub struct DeclaredWord;

impl TreeForm for DeclaredWord {
    type Of = (Text, Sort);

    ghost use Rattle.std.specs.Prelude.{List, ℕ};
    ghost use Rattle.kid_value.specs.PlainSort.{PlainSort};
    ghost use Rattle.kid_value.specs.NameView.{plain_name as view_name};
    ghost use Rattle.kid_form.specs.FormTrees.{listed};
    ghost use Rattle.kid_form.specs.Leaves.{word_form as any_word, declared as with_sort};

    ghost Seen = { List ℕ × PlainSort };

    ghost view = { view_name };

    ghost form = { listed (with_sort any_word) };

    fn read(alloc: Global, tree: &Tree) -> Result<(Text, Sort), CodecFault> {
        match tree {
            Tree::Atom(_) => Err(CodecFault::Form),
            Tree::List(trees) => read_two::<AnyWord, SortForm>(alloc, trees.as_slice()),
        }
    }

    fn tree(alloc: Global, of: &(Text, Sort)) -> Result<Tree, Memory> {
        declared_tree(alloc, of)
    }
}

/// `(NAME SORT)`, as programs have it.
pub struct DeclaredName;

impl TreeForm for DeclaredName {
    type Of = (Text, Sort);

    ghost use Rattle.std.specs.Prelude.{List, ℕ};
    ghost use Rattle.kid_value.specs.PlainSort.{PlainSort};
    ghost use Rattle.kid_value.specs.NameView.{plain_name as view_name};
    ghost use Rattle.kid_form.specs.FormTrees.{listed};
    ghost use Rattle.kid_form.specs.Leaves.{name_form, declared as with_sort};

    ghost Seen = { List ℕ × PlainSort };

    ghost view = { view_name };

    ghost form = { listed (with_sort name_form) };

    fn read(alloc: Global, tree: &Tree) -> Result<(Text, Sort), CodecFault> {
        match tree {
            Tree::Atom(_) => Err(CodecFault::Form),
            Tree::List(trees) => read_two::<Name, SortForm>(alloc, trees.as_slice()),
        }
    }

    fn tree(alloc: Global, of: &(Text, Sort)) -> Result<Tree, Memory> {
        declared_tree(alloc, of)
    }
}

/// The list of the lists of the names and their sorts.
fn declared_names_tree(alloc: Global, of: &Names) -> Result<Tree, Memory>
    ensures { IfOk result (λ t. plain t ≡ (declared_names word_form).spell of.now) }
{
    let mut trees = Forest::new(alloc);
    put_each::<DeclaredWord>(alloc, &mut trees, of.items())?;
    Ok(Tree::List(trees))
}

/// `((WORD SORT) ..)`, as theories have it.
pub struct DeclaredWords;

impl TreeForm for DeclaredWords {
    type Of = Names;

    ghost use Rattle.kid_term.specs.Names.{Names as PlainNames};
    ghost use Rattle.kid_form.specs.Leaves.{word_form as any_word, declared_names as names_with_sorts};

    ghost Seen = { PlainNames };

    ghost view = { λ ns. ns };

    ghost form = { names_with_sorts any_word };

    fn read(alloc: Global, tree: &Tree) -> Result<Names, CodecFault> {
        let items = read_listed::<DeclaredWord>(alloc, tree)?;
        Ok(Names::from_vec(items))
    }

    fn tree(alloc: Global, of: &Names) -> Result<Tree, Memory> {
        declared_names_tree(alloc, of)
    }
}

/// `((NAME SORT) ..)`, as programs have it.
pub struct DeclaredNames;

impl TreeForm for DeclaredNames {
    type Of = Names;

    ghost use Rattle.kid_term.specs.Names.{Names as PlainNames};
    ghost use Rattle.kid_form.specs.Leaves.{name_form, declared_names as names_with_sorts};

    ghost Seen = { PlainNames };

    ghost view = { λ ns. ns };

    ghost form = { names_with_sorts name_form };

    fn read(alloc: Global, tree: &Tree) -> Result<Names, CodecFault> {
        let items = read_listed::<DeclaredName>(alloc, tree)?;
        Ok(Names::from_vec(items))
    }

    fn tree(alloc: Global, of: &Names) -> Result<Tree, Memory> {
        declared_names_tree(alloc, of)
    }
}
