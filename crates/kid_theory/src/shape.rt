//! The parts of a theory's forms by their shape. Each function answers `Form` where the tree has another shape, and `Memory` where
//! memory is wanting.
ghost use Rattle.std.specs.Prelude.{◌≡◌, option_map};
ghost use Rattle.kid_sexp.specs.Tree.{plain, plains};
ghost use Rattle.kid_value.specs.NameView.{plain_name};
ghost use Rattle.kid_term.specs.DefView.{plain_def};
ghost use Rattle.kid_term.specs.TermView.{plain_term};
ghost use Rattle.kid_codec.specs.Reading.{Finds};
ghost use Rattle.kid_codec.specs.SortSpelling.{spelled_number};
ghost use Rattle.kid_kernel.specs.LawView.{plain_conclusion, plain_axiom};
ghost use Rattle.kid_theory.specs.ClaimView.{plain_proof};
ghost use Rattle.kid_theory.specs.Shapes.{word_of, theory_term, theory_terms, declared, declared_pair, declared_list, declared_each, declared_names, lone, lone_word, lone_number, lone_term, declared_form, definition_of, definition_shape, given_terms, equal_sides, equal_parts, holds_shape, conclusion_shape, axiom_of, axiom_shape, spelled_moves, proof_shape, law_with, law_of_parts, law_shape};

use kid_codec::shape::{couple, form, quadruple, single};
use kid_codec::{CodecFault, number_of, spelled_sort, spelled_term};
use kid_kernel::{Axiom, Conclusion, Moves};
use kid_lines::read_move;
use kid_sexp::Tree;
use kid_term::{Def, Term, Terms};
use kid_value::{Names, Sort, Text};
use std::alloc::Global;

fn word_of(alloc: Global, tree: &Tree) -> Result<Text, CodecFault>
    ensures { Finds (λ w. w) result (word_of (plain tree.now)) }
{
    match tree {
        Tree::Atom(word) => Ok(word.copy(alloc)?),
        Tree::List(_) => Err(CodecFault::Form),
    }
}

/// A term, in which no operator on words or rows stands.
fn theory_term(alloc: Global, tree: &Tree) -> Result<Term, CodecFault>
    ensures { Finds plain_term result (theory_term (plain tree.now)) }
{
    let term = spelled_term(alloc, tree)?;
    if term.holds_word_operator() {
        return Err(CodecFault::Form);
    }
    Ok(term)
}

fn declared(alloc: Global, word: &Tree, sort: &Tree) -> Result<(Text, Sort), CodecFault>
    ensures { Finds plain_name result (declared (plain word.now, plain sort.now)) }
{
    let word = word_of(alloc, word)?;
    let sort = spelled_sort(alloc, sort)?;
    Ok((word, sort))
}

fn declared_pair(alloc: Global, trees: &[Tree]) -> Result<(Text, Sort), CodecFault>
    ensures { Finds plain_name result (declared_pair (plains trees.now)) }
{
    match couple(trees) {
        Some((word, sort)) => declared(alloc, word, sort),
        None => Err(CodecFault::Form),
    }
}

fn declared_list(alloc: Global, tree: &Tree) -> Result<(Text, Sort), CodecFault>
    ensures { Finds plain_name result (declared_list (plain tree.now)) }
{
    match tree {
        Tree::Atom(_) => Err(CodecFault::Form),
        Tree::List(trees) => declared_pair(alloc, trees.as_slice()),
    }
}

fn declared_each(alloc: Global, trees: &[Tree]) -> Result<Names, CodecFault>
    ensures { Finds (λ ns. ns) result (declared_each (plains trees.now)) }
{
    let mut names = Names::new(alloc);
    for tree in trees {
        let (word, sort) = declared_list(alloc, tree)?;
        names.push(word, sort)?;
    }
    Ok(names)
}

fn declared_names(alloc: Global, tree: &Tree) -> Result<Names, CodecFault>
    ensures { Finds (λ ns. ns) result (declared_names (plain tree.now)) }
{
    match tree {
        Tree::Atom(_) => Err(CodecFault::Form),
        Tree::List(trees) => declared_each(alloc, trees.as_slice()),
    }
}

/// The tree that stands alone behind the word.
fn lone<'a>(word: &[u8], tree: &'a Tree) -> Option<&'a Tree>
    ensures { option_map (λ t. plain t.now) result ≡ lone word.now (plain tree.now) }
{
    let parts = form(word, tree)?;
    single(parts)
}

/// The word that stands alone behind the form's word.
pub fn lone_word(alloc: Global, word: &[u8], tree: &Tree) -> Result<Text, CodecFault>
    ensures { Finds (λ w. w) result (lone_word word.now (plain tree.now)) }
{
    match lone(word, tree) {
        Some(part) => word_of(alloc, part),
        None => Err(CodecFault::Form),
    }
}

fn spelled_number(tree: &Tree) -> Option<i64>
    ensures { result ≡ spelled_number (plain tree.now) }
{
    match tree {
        Tree::Atom(word) => number_of(word.as_slice()),
        Tree::List(_) => None,
    }
}

/// The number that stands alone behind the form's word.
pub fn lone_number(word: &[u8], tree: &Tree) -> Option<i64>
    ensures { result ≡ lone_number word.now (plain tree.now) }
{
    match lone(word, tree) {
        Some(part) => spelled_number(part),
        None => None,
    }
}

/// The term that stands alone behind the form's word.
pub fn lone_term(alloc: Global, word: &[u8], tree: &Tree) -> Result<Term, CodecFault>
    ensures { Finds plain_term result (lone_term word.now (plain tree.now)) }
{
    match lone(word, tree) {
        Some(part) => theory_term(alloc, part),
        None => Err(CodecFault::Form),
    }
}

/// The word with its sort behind the form's word.
pub fn declared_form(alloc: Global, word: &[u8], tree: &Tree) -> Result<(Text, Sort), CodecFault>
    ensures { Finds plain_name result (declared_form word.now (plain tree.now)) }
{
    match form(word, tree) {
        Some(parts) => declared_pair(alloc, parts),
        None => Err(CodecFault::Form),
    }
}

fn definition_of(
    alloc: Global,
    name: &Tree,
    parameters: &Tree,
    sort: &Tree,
    body: &Tree,
) -> Result<Def, CodecFault>
    ensures { Finds plain_def result (definition_of (plain name.now, plain parameters.now, plain sort.now, plain body.now)) }
{
    let name = word_of(alloc, name)?;
    let parameters = declared_names(alloc, parameters)?;
    let sort = spelled_sort(alloc, sort)?;
    let body = theory_term(alloc, body)?;
    Ok(Def {
        name,
        parameters,
        sort,
        body,
    })
}

/// The definition that a tree has the shape of.
pub fn definition_shape(alloc: Global, tree: &Tree) -> Result<Def, CodecFault>
    ensures { Finds plain_def result (definition_shape (plain tree.now)) }
{
    let Some(parts) = form(b"def", tree) else {
        return Err(CodecFault::Form);
    };
    match quadruple(parts) {
        Some((name, parameters, sort, body)) => definition_of(alloc, name, parameters, sort, body),
        None => Err(CodecFault::Form),
    }
}

fn theory_terms(alloc: Global, trees: &[Tree]) -> Result<Terms, CodecFault>
    ensures { Finds (λ ts. ts) result (theory_terms (plains trees.now)) }
{
    let mut terms = Terms::new(alloc);
    for tree in trees {
        terms.push(theory_term(alloc, tree)?)?;
    }
    Ok(terms)
}

fn given_terms(alloc: Global, tree: &Tree) -> Result<Terms, CodecFault>
    ensures { Finds (λ ts. ts) result (given_terms (plain tree.now)) }
{
    match form(b"given", tree) {
        Some(parts) => theory_terms(alloc, parts),
        None => Err(CodecFault::Form),
    }
}

fn equal_sides(alloc: Global, left: &Tree, right: &Tree) -> Result<Conclusion, CodecFault>
    ensures { Finds plain_conclusion result (equal_sides (plain left.now, plain right.now)) }
{
    let left = theory_term(alloc, left)?;
    let right = theory_term(alloc, right)?;
    Ok(Conclusion::Equal(left, right))
}

fn equal_shape(alloc: Global, parts: &[Tree]) -> Result<Conclusion, CodecFault>
    ensures { Finds plain_conclusion result (equal_parts (plains parts.now)) }
{
    match couple(parts) {
        Some((left, right)) => equal_sides(alloc, left, right),
        None => Err(CodecFault::Form),
    }
}

fn holds_shape(alloc: Global, tree: &Tree) -> Result<Conclusion, CodecFault>
    ensures { Finds plain_conclusion result (holds_shape (plain tree.now)) }
{
    let condition = lone_term(alloc, b"holds", tree)?;
    Ok(Conclusion::Holds(condition))
}

fn conclusion_shape(alloc: Global, tree: &Tree) -> Result<Conclusion, CodecFault>
    ensures { Finds plain_conclusion result (conclusion_shape (plain tree.now)) }
{
    match form(b"equal", tree) {
        Some(parts) => equal_shape(alloc, parts),
        None => holds_shape(alloc, tree),
    }
}

fn axiom_of(
    alloc: Global,
    name: &Tree,
    variables: &Tree,
    given: &Tree,
    conclusion: &Tree,
) -> Result<Axiom, CodecFault>
    ensures { Finds plain_axiom result (axiom_of (plain name.now, plain variables.now, plain given.now, plain conclusion.now)) }
{
    let name = word_of(alloc, name)?;
    let variables = declared_names(alloc, variables)?;
    let conditions = given_terms(alloc, given)?;
    let conclusion = conclusion_shape(alloc, conclusion)?;
    Ok(Axiom {
        name,
        variables,
        conditions,
        conclusion,
    })
}

/// The axiom that a tree has the shape of.
pub fn axiom_shape(alloc: Global, tree: &Tree) -> Result<Axiom, CodecFault>
    ensures { Finds plain_axiom result (axiom_shape (plain tree.now)) }
{
    let Some(parts) = form(b"axiom", tree) else {
        return Err(CodecFault::Form);
    };
    match quadruple(parts) {
        Some((name, variables, given, conclusion)) => axiom_of(
            alloc, name, variables, given, conclusion,
        ),
        None => Err(CodecFault::Form),
    }
}

fn spelled_moves(alloc: Global, trees: &[Tree]) -> Result<Moves, CodecFault>
    ensures { Finds (λ ms. ms) result (spelled_moves (plains trees.now)) }
{
    let mut moves = Moves::new(alloc);
    for tree in trees {
        moves.push(read_move(alloc, tree)?)?;
    }
    Ok(moves)
}

fn proof_shape(alloc: Global, tree: &Tree) -> Result<Moves, CodecFault>
    ensures { Finds (λ ms. ms) result (proof_shape (plain tree.now)) }
{
    match form(b"by", tree) {
        Some(parts) => spelled_moves(alloc, parts),
        None => Err(CodecFault::Form),
    }
}

fn law_with(
    alloc: Global,
    name: &Tree,
    variables: &Tree,
    given: &Tree,
    conclusion: &Tree,
    proof: &Tree,
) -> Result<(Axiom, Moves), CodecFault>
    ensures { Finds plain_proof result (law_with (plain name.now) (plain variables.now, plain given.now, plain conclusion.now, plain proof.now)) }
{
    let law = axiom_of(alloc, name, variables, given, conclusion)?;
    let moves = proof_shape(alloc, proof)?;
    Ok((law, moves))
}

fn law_of_parts(alloc: Global, parts: &[Tree]) -> Result<(Axiom, Moves), CodecFault>
    ensures { Finds plain_proof result (law_of_parts (plains parts.now)) }
{
    let Some((name, rest)) = parts.split_first() else {
        return Err(CodecFault::Form);
    };
    match quadruple(rest) {
        Some((variables, given, conclusion, proof)) => law_with(
            alloc, name, variables, given, conclusion, proof,
        ),
        None => Err(CodecFault::Form),
    }
}

/// What the law says that a tree has the shape of, and the moves of its proof.
pub fn law_shape(alloc: Global, tree: &Tree) -> Result<(Axiom, Moves), CodecFault>
    ensures { Finds plain_proof result (law_shape (plain tree.now)) }
{
    match form(b"law", tree) {
        Some(parts) => law_of_parts(alloc, parts),
        None => Err(CodecFault::Form),
    }
}
