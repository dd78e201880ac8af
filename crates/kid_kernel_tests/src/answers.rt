//! Answers of the kernel against trees of a row. Each says yes only where its clause has it.
ghost use Rattle.std.specs.Prelude.{◌≡◌, true, map};
ghost use Rattle.kid_sexp.specs.Plain.{atom, list};
ghost use Rattle.kid_sexp.specs.Tree.{plain, plains};
ghost use Rattle.kid_term.specs.TermView.{plain_term};
ghost use Rattle.kid_codec.specs.TermSpelling.{term_spelling};
ghost use Rattle.kid_kernel_tests.specs.Spelled.{why_word, spellings, with_last, Answers, Follows};

use kid_codec::term_of;
use kid_kernel::Why;
use kid_sexp::Tree;
use kid_term::{Term, same};
use kid_value::Text;
use std::alloc::Global;

/// Whether the tree spells this term.
pub fn is_term(alloc: Global, term: &Term, tree: &Tree) -> bool
    ensures { result ≡ true → plain tree.now ≡ term_spelling (plain_term term.now) }
{
    match term_of(alloc, tree) {
        Ok(want) => same(term, &want),
        Err(_) => false,
    }
}

fn are_each(alloc: Global, terms: &[Term], trees: &[Tree]) -> bool
    ensures { result ≡ true → plains trees.now ≡ spellings (map plain_term terms.now) }
{
    match (terms.split_first(), trees.split_first()) {
        (Some((term, terms)), Some((tree, trees))) => {
            is_term(alloc, term, tree) && are_each(alloc, terms, trees)
        }
        (None, None) => true,
        _ => false,
    }
}

/// Whether the list spells these terms.
pub fn are_terms(alloc: Global, terms: &[Term], tree: &Tree) -> bool
    ensures { result ≡ true → plain tree.now ≡ list (spellings (map plain_term terms.now)) }
{
    match tree {
        Tree::Atom(_) => false,
        Tree::List(trees) => are_each(alloc, terms, trees.as_slice()),
    }
}

fn is_why(why: Why, word: &Text) -> bool
    ensures { result ≡ true → word.now ≡ why_word why }
{
    match why {
        Why::NoPath => word.is(b"no-path"),
        Why::UnknownLaw => word.is(b"unknown-law"),
        Why::NoMatch => word.is(b"no-match"),
        Why::Capture => word.is(b"capture"),
        Why::Condition(1) => word.is(b"condition-1"),
        Why::Condition(2) => word.is(b"condition-2"),
        Why::Condition(3) => word.is(b"condition-3"),
        Why::IllSorted => word.is(b"ill-sorted"),
        Why::Limit => word.is(b"limit"),
        _ => false,
    }
}

/// Whether the tree is the word of this refusal.
pub fn is_refusal(why: Why, tree: &Tree) -> bool
    ensures { result ≡ true → plain tree.now ≡ atom (why_word why) }
{
    match tree {
        Tree::Atom(word) => is_why(why, word),
        Tree::List(_) => false,
    }
}

/// Whether the new term is wanted, or the refusal, with which the old term was given back.
pub fn is_answer(alloc: Global, found: &Result<Term, (Term, Why)>, old: &Tree, want: &Tree) -> bool
    ensures { result ≡ true → Answers found.now (plain old.now) (plain want.now) }
{
    match found {
        Ok(new) => is_term(alloc, new, want),
        Err(fault) => is_refusal(fault.1, want) && is_term(alloc, &fault.0, old),
    }
}

/// Whether the last of the facts is wanted, and those before it are the ones at the start.
#[tactic(auto, using(crate::proofs::SpellingLemmas::more_spelled))]
fn is_more(alloc: Global, facts: &[Term], start: &Tree, want: &Tree) -> bool
    ensures { result ≡ true → with_last (plain start.now) (plain want.now) ≡ list (spellings (map plain_term facts.now)) }
{
    match facts.split_last() {
        Some((last, old)) => are_terms(alloc, old, start) && is_term(alloc, last, want),
        None => false,
    }
}

/// Whether there is one fact more than at the start, which is wanted, or that is the refusal and there are those at the start.
pub fn is_after(
    alloc: Global,
    facts: &[Term],
    found: Result<(), Why>,
    start: &Tree,
    want: &Tree,
) -> bool
    ensures { result ≡ true → Follows found (map plain_term facts.now) (plain start.now) (plain want.now) }
{
    match found {
        Ok(()) => is_more(alloc, facts, start, want),
        Err(why) => is_refusal(why, want) && are_terms(alloc, facts, start),
    }
}
