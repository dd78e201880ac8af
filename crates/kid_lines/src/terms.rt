//! The terms that stand in lines and moves.
ghost use Rattle.std.specs.Prelude.{◌≡◌, IfOk, map};
ghost use Rattle.kid_sexp.specs.Plain.{join};
ghost use Rattle.kid_sexp.specs.Tree.{plain, plains};
ghost use Rattle.kid_term.specs.PlainTerm.{term_row};
ghost use Rattle.kid_term.specs.TermView.{plain_term};
ghost use Rattle.kid_codec.specs.Reading.{Finds};
ghost use Rattle.kid_codec.specs.TermSpelling.{term_spellings};
ghost use Rattle.kid_lines.specs.LineReading.{term_list};
ghost use Rattle.kid_lines.specs.RuleReading.{spelled_plain_term, spelled_plain_terms};

use kid_codec::{CodecFault, term_of, tree_of_term};
use kid_sexp::{Forest, Tree};
use kid_term::{Term, Terms};
use kid_value::Memory;
use std::alloc::Global;

/// A term whose casts are to allowed sorts, and in which no operator on words or rows stands.
fn plain_term_of(alloc: Global, tree: &Tree) -> Result<Term, CodecFault>
    ensures { Finds plain_term result (spelled_plain_term (plain tree.now)) }
{
    match term_of(alloc, tree) {
        Ok(term) => if term.holds_word_operator() {
            Err(CodecFault::Form)
        } else {
            Ok(term)
        },
        Err(CodecFault::Memory) => Err(CodecFault::Memory),
        Err(_) => Err(CodecFault::Form),
    }
}

/// The terms that trees are.
pub fn plain_terms_of(alloc: Global, trees: &[Tree]) -> Result<Terms, CodecFault>
    ensures { Finds (λ ts. ts) result (spelled_plain_terms (plains trees.now)) }
{
    let mut terms = Terms::new(alloc);
    for tree in trees {
        terms.push(plain_term_of(alloc, tree)?)?;
    }
    Ok(terms)
}

/// The terms of a list.
pub fn term_list(alloc: Global, tree: &Tree) -> Result<Terms, CodecFault>
    ensures { Finds (λ ts. ts) result (term_list (plain tree.now)) }
{
    match tree {
        Tree::Atom(_) => Err(CodecFault::Form),
        Tree::List(trees) => plain_terms_of(alloc, trees.as_slice()),
    }
}

/// Puts the trees of the terms after others.
///
/// # Errors
///
/// Fails where memory is wanting. The first few trees may then have been put.
pub fn put_terms(alloc: Global, trees: &mut Forest, terms: &[Term]) -> Result<(), Memory>
    ensures { IfOk result (λ _. trees.new ≡ join trees.old (term_spellings (term_row (map plain_term terms.now)))) }
{
    for term in terms {
        trees.push(tree_of_term(alloc, term)?)?;
    }
    Ok(())
}
