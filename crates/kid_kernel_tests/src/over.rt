//! Theories, names and facts of the rows. A first definition tells the sort of each name that stands in rows.
ghost use Rattle.std.specs.Prelude.{◌≡◌, ◌++◌, IfOk};
ghost use Rattle.kid_kernel.specs.Held.{AreNames};
ghost use Rattle.kid_kernel.specs.IsTheory.{IsTheory};
ghost use Rattle.kid_kernel.specs.Key.{key};
ghost use Rattle.kid_kernel.specs.TheoryView.{plain_theory};

use kid_codec::{CodecFault, term_of};
use kid_kernel::{Facts, Theory, Why};
use kid_sexp::Tree;
use kid_sorting::names::{are_allowed, are_new, joined};
use kid_term::Terms;
use kid_theory::read_theory;
use kid_value::{Memory, Names, Sort, Text};
use std::alloc::Global;

pub fn theory_of(alloc: Global, text: &str) -> Result<Theory, Why>
    ensures { IfOk result (λ t. IsTheory (plain_theory t)) }
{
    match read_theory(alloc, text.as_bytes()) {
        Ok(theory) => Ok(theory),
        Err(_) => Err(Why::Read),
    }
}

/// The trees of a list.
pub fn parts(tree: &Tree) -> Option<&[Tree]> {
    match tree {
        Tree::Atom(_) => None,
        Tree::List(trees) => Some(trees.as_slice()),
    }
}

fn sort_among<'a>(names: &'a [(Text, Sort)], word: &Text) -> Option<&'a Sort> {
    for name in names {
        if name.0.is(word.as_slice()) {
            return Some(&name.1);
        }
    }
    None
}

fn put_name(alloc: Global, names: &mut Names, word: &Text, sort: &Sort) -> Result<(), Memory> {
    names.push(word.copy(alloc)?, sort.copy(alloc)?)
}

fn put_known(
    alloc: Global,
    names: &mut Names,
    word: &Text,
    sort: Option<&Sort>,
) -> Result<(), CodecFault> {
    match sort {
        Some(sort) => Ok(put_name(alloc, names, word, sort)?),
        None => Err(CodecFault::Form),
    }
}

fn put_word(
    alloc: Global,
    names: &mut Names,
    known: &[(Text, Sort)],
    tree: &Tree,
) -> Result<(), CodecFault> {
    match tree {
        Tree::Atom(word) => put_known(alloc, names, word, sort_among(known, word)),
        Tree::List(_) => Err(CodecFault::Form),
    }
}

/// These words with the sorts that are known for them.
fn named(alloc: Global, known: &[(Text, Sort)], words: &[Tree]) -> Result<Names, CodecFault> {
    let mut names = Names::new(alloc);
    for word in words {
        put_word(alloc, &mut names, known, word)?;
    }
    Ok(names)
}

/// The sorts of the names that stand in rows.
fn known(theory: &Theory) -> &[(Text, Sort)] {
    match theory.signature.definitions().first() {
        Some(definition) => definition.parameters.items(),
        None => &[],
    }
}

/// The names, where they differ and have allowed sorts.
fn judged(alloc: Global, theory: &Theory, more: &Names, names: Names) -> Result<Names, Why>
    requires { names ≡ theory.now.signature.inputs ++ more.now }
    ensures { IfOk result (λ ns. AreNames (plain_theory theory.now) ns) }
{
    if are_new(&Names::new(alloc), &names) && are_allowed(&names) {
        Ok(names)
    } else {
        Err(Why::NameTaken)
    }
}

fn with_inputs(alloc: Global, theory: &Theory, more: &Names) -> Result<Names, Why>
    ensures { IfOk result (λ ns. AreNames (plain_theory theory.now) ns) }
{
    match joined(alloc, theory.signature.names(), more) {
        Ok(names) => judged(alloc, theory, more, names),
        Err(_) => Err(Why::Memory),
    }
}

/// The inputs of the theory, and then the names of these words.
fn names_over(alloc: Global, theory: &Theory, words: &[Tree]) -> Result<Names, Why>
    ensures { IfOk result (λ ns. AreNames (plain_theory theory.now) ns) }
{
    match named(alloc, known(theory), words) {
        Ok(more) => with_inputs(alloc, theory, &more),
        Err(_) => Err(Why::Form),
    }
}

/// The terms that trees spell.
pub fn terms_of(alloc: Global, trees: &[Tree]) -> Result<Terms, CodecFault> {
    let mut terms = Terms::new(alloc);
    for tree in trees {
        terms.push(term_of(alloc, tree)?)?;
    }
    Ok(terms)
}

#[tactic(auto, using(crate::proofs::FactLemmas::begins_over))]
fn begun(alloc: Global, theory: &Theory, names: Names, start: Terms) -> Result<Facts, Why>
    requires theory { IsTheory (plain_theory theory.now) }
    requires names { AreNames (plain_theory theory.now) names }
    ensures { IfOk result (λ f. key (plain_theory theory.now) ≡ f.theory) }
{
    Facts::begin(alloc, theory, names, start)
}

fn begun_over(alloc: Global, theory: &Theory, words: &[Tree], start: Terms) -> Result<Facts, Why>
    requires { IsTheory (plain_theory theory.now) }
    ensures { IfOk result (λ f. key (plain_theory theory.now) ≡ f.theory) }
{
    match names_over(alloc, theory, words) {
        Ok(names) => begun(alloc, theory, names, start),
        Err(why) => Err(why),
    }
}

fn facts_of(alloc: Global, theory: &Theory, words: &[Tree], start: &[Tree]) -> Result<Facts, Why>
    requires { IsTheory (plain_theory theory.now) }
    ensures { IfOk result (λ f. key (plain_theory theory.now) ≡ f.theory) }
{
    match terms_of(alloc, start) {
        Ok(terms) => begun_over(alloc, theory, words, terms),
        Err(_) => Err(Why::Form),
    }
}

/// Facts that begin with these terms over the inputs and the names of these words.
pub fn facts_over(alloc: Global, theory: &Theory, words: &Tree, start: &Tree) -> Result<Facts, Why>
    requires { IsTheory (plain_theory theory.now) }
    ensures { IfOk result (λ f. key (plain_theory theory.now) ≡ f.theory) }
{
    match (parts(words), parts(start)) {
        (Some(words), Some(start)) => facts_of(alloc, theory, words, start),
        _ => Err(Why::Form),
    }
}
