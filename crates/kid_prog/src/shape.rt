//! Statements, names and definitions by their shape, where the sorts in them may be allowed or not.
ghost use Rattle.std.specs.Prelude.{◌≡◌};
ghost use Rattle.kid_sexp.specs.Plain.{list};
ghost use Rattle.kid_sexp.specs.Tree.{plain, plains};
ghost use Rattle.kid_value.specs.NameView.{plain_name};
ghost use Rattle.kid_value.specs.SortOrder.{both};
ghost use Rattle.kid_term.specs.DefView.{plain_def};
ghost use Rattle.kid_codec.specs.Reading.{Finds};
ghost use Rattle.kid_codec.specs.NameSpelling.{spelled_name as name_of_tree};
ghost use Rattle.kid_codec.specs.TermSpelling.{spelled_term as term_of_tree, spelled_terms as terms_of_trees};
ghost use Rattle.kid_prog.specs.PlainStmt.{when, each, stmt_row};
ghost use Rattle.kid_prog.specs.StmtView.{plain_stmt};
ghost use Rattle.kid_prog.specs.StmtShape.{spelled_let, spelled_emit, spelled_call, stmt_of_word, spelled_stmt, spelled_stmts, spelled_if, spelled_for};
ghost use Rattle.kid_prog.specs.Forms.{named, named_pair, named_list, spelled_names, names_list, def_parts};

use crate::statement::{Stmt, Stmts};
use kid_codec::shape::{couple, quadruple, single};
use kid_codec::{CodecFault, spelled_name, spelled_sort, spelled_term};
use kid_sexp::Tree;
use kid_term::{Def, Terms};
use kid_value::{Names, Sort, Text};
use std::alloc::Global;

fn let_from(alloc: Global, trees: &[Tree]) -> Result<Stmt, CodecFault>
    ensures { Finds plain_stmt result (spelled_let (plains trees.now)) }
{
    let Some((name, term)) = couple(trees) else {
        return Err(CodecFault::Form);
    };
    let name = spelled_name(alloc, name)?;
    let term = spelled_term(alloc, term)?;
    Ok(Stmt::Let(name, term))
}

fn emit_from(alloc: Global, trees: &[Tree]) -> Result<Stmt, CodecFault>
    ensures { Finds plain_stmt result (spelled_emit (plains trees.now)) }
{
    let Some(term) = single(trees) else {
        return Err(CodecFault::Form);
    };
    let term = spelled_term(alloc, term)?;
    Ok(Stmt::Emit(term))
}

fn terms_from(alloc: Global, trees: &[Tree]) -> Result<Terms, CodecFault>
    ensures { Finds (λ ts. ts) result (terms_of_trees (plains trees.now)) }
{
    let mut terms = Terms::new(alloc);
    for tree in trees {
        terms.push(spelled_term(alloc, tree)?)?;
    }
    Ok(terms)
}

fn call_from(alloc: Global, trees: &[Tree]) -> Result<Stmt, CodecFault>
    ensures { Finds plain_stmt result (spelled_call (plains trees.now)) }
{
    let terms = terms_from(alloc, trees)?;
    Ok(Stmt::Call(terms))
}

/// The statement that a tree has the shape of.
#[cycle(spelled_stmt)]
fn spelled_stmt(alloc: Global, tree: &Tree) -> Result<Stmt, CodecFault>
    ensures { Finds plain_stmt result (spelled_stmt (plain tree.now)) }
{
    match tree {
        Tree::Atom(_) => Err(CodecFault::Form),
        Tree::List(trees) => stmt_of_list(alloc, trees.as_slice()),
    }
}

#[cycle(spelled_stmt)]
fn stmt_of_list(alloc: Global, trees: &[Tree]) -> Result<Stmt, CodecFault>
    ensures { Finds plain_stmt result (spelled_stmt (list (plains trees.now))) }
{
    match trees.split_first() {
        Some((Tree::Atom(word), parts)) => stmt_of_word(alloc, word, parts),
        _ => Err(CodecFault::Form),
    }
}

#[cycle(spelled_stmt)]
fn stmt_of_word(alloc: Global, word: &Text, parts: &[Tree]) -> Result<Stmt, CodecFault>
    ensures { Finds plain_stmt result (stmt_of_word word.now (plains parts.now) (spelled_if (plains parts.now)) (spelled_for (plains parts.now))) }
{
    if word.is(b"let") {
        return let_from(alloc, parts);
    }
    if word.is(b"if") {
        return if_from(alloc, parts);
    }
    if word.is(b"for") {
        return for_from(alloc, parts);
    }
    if word.is(b"emit") {
        return emit_from(alloc, parts);
    }
    if word.is(b"call") {
        return call_from(alloc, parts);
    }
    Err(CodecFault::Form)
}

#[cycle(spelled_stmt)]
fn if_from(alloc: Global, trees: &[Tree]) -> Result<Stmt, CodecFault>
    ensures { Finds plain_stmt result (spelled_if (plains trees.now)) }
{
    let Some((term, body)) = trees.split_first() else {
        return Err(CodecFault::Form);
    };
    let term = spelled_term(alloc, term)?;
    let body = spelled_stmts(alloc, body)?;
    Ok(Stmt::If(term, body))
}

#[cycle(spelled_stmt)]
fn for_from(alloc: Global, trees: &[Tree]) -> Result<Stmt, CodecFault>
    ensures { Finds plain_stmt result (spelled_for (plains trees.now)) }
{
    let Some((name, parts)) = trees.split_first() else {
        return Err(CodecFault::Form);
    };
    let Some((set, body)) = parts.split_first() else {
        return Err(CodecFault::Form);
    };
    let name = spelled_name(alloc, name)?;
    let set = spelled_term(alloc, set)?;
    let body = spelled_stmts(alloc, body)?;
    Ok(Stmt::For(name, set, body))
}

/// The statements that trees have the shapes of.
///
/// # Errors
///
/// `Form`: a tree is no statement. `Memory`: memory is wanting.
#[cycle(spelled_stmt)]
pub fn spelled_stmts(alloc: Global, trees: &[Tree]) -> Result<Stmts, CodecFault>
    ensures { Finds (λ ss. stmt_row ss) result (spelled_stmts (plains trees.now)) }
{
    let mut statements = Stmts::new(alloc);
    for tree in trees {
        statements.push(spelled_stmt(alloc, tree)?)?;
    }
    Ok(statements)
}

/// The name and the sort that two trees are.
///
/// # Errors
///
/// `Form`: there are more or fewer trees, the first is no name, or the second has not the shape of a sort. `Memory`: memory is
/// wanting.
pub fn named_pair(alloc: Global, trees: &[Tree]) -> Result<(Text, Sort), CodecFault>
    ensures { Finds plain_name result (named_pair (plains trees.now)) }
{
    let Some((name, sort)) = couple(trees) else {
        return Err(CodecFault::Form);
    };
    let name = spelled_name(alloc, name)?;
    let sort = spelled_sort(alloc, sort)?;
    Ok((name, sort))
}

fn named_list(alloc: Global, tree: &Tree) -> Result<(Text, Sort), CodecFault>
    ensures { Finds plain_name result (named_list (plain tree.now)) }
{
    match tree {
        Tree::Atom(_) => Err(CodecFault::Form),
        Tree::List(trees) => named_pair(alloc, trees.as_slice()),
    }
}

fn spelled_names(alloc: Global, trees: &[Tree]) -> Result<Names, CodecFault>
    ensures { Finds (λ ns. ns) result (spelled_names (plains trees.now)) }
{
    let mut names = Names::new(alloc);
    for tree in trees {
        let (name, sort) = named_list(alloc, tree)?;
        names.push(name, sort)?;
    }
    Ok(names)
}

/// The names and their sorts that the lists in a list are.
///
/// # Errors
///
/// `Form`: the tree is no list of lists of a name and a sort. `Memory`: memory is wanting.
pub fn names_list(alloc: Global, tree: &Tree) -> Result<Names, CodecFault>
    ensures { Finds (λ ns. ns) result (names_list (plain tree.now)) }
{
    match tree {
        Tree::Atom(_) => Err(CodecFault::Form),
        Tree::List(trees) => spelled_names(alloc, trees.as_slice()),
    }
}

/// The definition that a name, a list of parameters, a sort and a term are.
///
/// # Errors
///
/// `Form`: there are more or fewer trees, or one of them has another shape. `Memory`: memory is wanting.
pub fn def_parts(alloc: Global, trees: &[Tree]) -> Result<Def, CodecFault>
    ensures { Finds plain_def result (def_parts (plains trees.now)) }
{
    let Some((name, parameters, sort, body)) = quadruple(trees) else {
        return Err(CodecFault::Form);
    };
    let name = spelled_name(alloc, name)?;
    let parameters = names_list(alloc, parameters)?;
    let sort = spelled_sort(alloc, sort)?;
    let body = spelled_term(alloc, body)?;
    Ok(Def {
        name,
        parameters,
        sort,
        body,
    })
}
