ghost use Rattle.std.specs.Prelude.{◌≡◌, true, IfOk, is_some, option_map, map};
ghost use Rattle.kid_sexp.specs.Tree.{plain, plains};
ghost use Rattle.kid_term.specs.PlainTerm.{term_row};
ghost use Rattle.kid_value.specs.SortOrder.{both};
ghost use Rattle.kid_term.specs.TermView.{plain_term, plain_head};
ghost use Rattle.kid_term.specs.Written.{number_in};
ghost use Rattle.kid_codec.specs.NameSpelling.{spelled_name};
ghost use Rattle.kid_codec.specs.Reading.{Gives, Finds};
ghost use Rattle.kid_codec.specs.SortSpelling.{spelled_sort as spelled_sort_of};
ghost use Rattle.kid_codec.specs.TermSpelling.{atom_term, applied, suits, begin_with_numbers, term_of_parts, spelled_term, spelled_list, spelled_terms, spelled_cast, casted, body_of, spelled_body, is_allowed_head, casts_are_allowed, all_casts_are_allowed, term_spelling, is_spelled_term, term_reading};

use crate::fault::CodecFault;
use crate::name::is_name;
use crate::number::number_of;
use crate::parts::{couple, triple};
use crate::sort::spelled_sort;
use crate::tree_name::{spelled_name, tag_name};
use crate::word::{binder_of, numbers_first, op_of, takes};
use kid_sexp::Tree;
use kid_term::{Binder, BoxedTerm, Head, Literal, Op, Term, Terms};
use kid_value::{Text, sort_ok};
use std::alloc::Global;

fn atom_term(alloc: Global, word: &Text) -> Result<Term, CodecFault>
    ensures { Finds plain_term result (atom_term word.now) }
{
    if is_name(word.as_slice()) {
        return Ok(Term::Var(word.copy(alloc)?));
    }
    if word.is(b"true") {
        return Ok(Term::Lit(Literal::Bool(true)));
    }
    if word.is(b"false") {
        return Ok(Term::Lit(Literal::Bool(false)));
    }
    if let Some(name) = tag_name(word.as_slice()) {
        return Ok(Term::Lit(Literal::Tag(Text::from_slice(alloc, name)?)));
    }
    match number_of(word.as_slice()) {
        Some(n) => Ok(Term::Lit(Literal::Int(n))),
        None => Err(CodecFault::Form),
    }
}

fn is_number(term: &Term) -> bool
    ensures { result ≡ is_some (number_in (plain_term term.now)) }
{
    match term {
        Term::Lit(Literal::Int(_)) => true,
        _ => false,
    }
}

fn begin_with_numbers(count: usize, terms: &[Term]) -> bool
    ensures { result ≡ begin_with_numbers count (map plain_term terms.now) }
{
    if count == 0 {
        return true;
    }
    match terms.split_first() {
        Some((first, rest)) => is_number(first) && begin_with_numbers(count - 1, rest),
        None => false,
    }
}

/// Whether an operator may stand before the terms: as many as it takes, of which the first few are numbers.
fn suits(op: Op, terms: &[Term]) -> bool
    ensures { result ≡ suits op (map plain_term terms.now) }
{
    takes(op, terms.len()) && begin_with_numbers(numbers_first(op), terms)
}

fn applied(op: Op, terms: Terms) -> Result<Term, CodecFault>
    ensures { Finds plain_term result (applied op terms) }
{
    if suits(op, terms.items()) {
        Ok(Term::App(Head::Op(op), terms))
    } else {
        Err(CodecFault::Form)
    }
}

/// The term that a tree has the shape of, where the sorts in it may be allowed or not. A bound of a sequence sort that is no
/// such number stands as 65537.
///
/// # Errors
///
/// `Form`: the tree has no such shape. `Memory`: memory is wanting.
#[cycle(spelled_term)]
pub fn spelled_term(alloc: Global, tree: &Tree) -> Result<Term, CodecFault>
    ensures { Finds plain_term result (spelled_term (plain tree.now)) }
{
    match tree {
        Tree::Atom(word) => atom_term(alloc, word),
        Tree::List(trees) => term_of_list(alloc, trees.as_slice()),
    }
}

#[cycle(spelled_term)]
fn term_of_list(alloc: Global, trees: &[Tree]) -> Result<Term, CodecFault>
    ensures { Finds plain_term result (spelled_list (plains trees.now)) }
{
    match trees.split_first() {
        Some((Tree::Atom(word), parts)) => term_of_parts(alloc, word, parts),
        _ => Err(CodecFault::Form),
    }
}

#[cycle(spelled_term)]
fn term_of_parts(alloc: Global, word: &Text, parts: &[Tree]) -> Result<Term, CodecFault>
    ensures { Finds plain_term result (term_of_parts word.now (spelled_terms (plains parts.now)) (spelled_cast (plains parts.now)) (spelled_body (plains parts.now))) }
{
    if is_name(word.as_slice()) {
        let terms = terms_from(alloc, parts)?;
        return Ok(Term::App(Head::Call(word.copy(alloc)?), terms));
    }
    if word.is(b"cast") {
        return cast_from(alloc, parts);
    }
    if let Some(binder) = binder_of(word) {
        return bound_from(alloc, binder, parts);
    }
    match op_of(word) {
        Some(op) => applied(op, terms_from(alloc, parts)?),
        None => Err(CodecFault::Form),
    }
}

#[cycle(spelled_term)]
fn terms_from(alloc: Global, trees: &[Tree]) -> Result<Terms, CodecFault>
    ensures { Finds (λ ts. ts) result (spelled_terms (plains trees.now)) }
{
    let mut terms = Terms::new(alloc);
    for tree in trees {
        terms.push(spelled_term(alloc, tree)?)?;
    }
    Ok(terms)
}

#[cycle(spelled_term)]
fn cast_of(alloc: Global, sort: &Tree, term: &Tree) -> Result<Term, CodecFault>
    ensures { Finds plain_term result (both casted (spelled_sort_of (plain sort.now)) (spelled_term (plain term.now))) }
{
    let sort = spelled_sort(alloc, sort)?;
    let term = spelled_term(alloc, term)?;
    let mut terms = Terms::new(alloc);
    terms.push(term)?;
    Ok(Term::App(Head::Cast(sort), terms))
}

#[cycle(spelled_term)]
#[tactic(auto, using(crate::proofs::Lengths::lengths))]
fn cast_from(alloc: Global, trees: &[Tree]) -> Result<Term, CodecFault>
    ensures { Finds plain_term result (spelled_cast (plains trees.now)) }
{
    match couple(trees) {
        Some((sort, term)) => cast_of(alloc, sort, term),
        None => Err(CodecFault::Form),
    }
}

#[cycle(spelled_term)]
fn bound_of(
    alloc: Global,
    binder: Binder,
    name: &Tree,
    set: &Tree,
    body: &Tree,
) -> Result<Term, CodecFault>
    ensures { Finds plain_term result (option_map (λ f. f binder) (body_of (spelled_name (plain name.now)) (spelled_term (plain set.now)) (spelled_term (plain body.now)))) }
{
    let name = spelled_name(alloc, name)?;
    let set = spelled_term(alloc, set)?;
    let body = spelled_term(alloc, body)?;
    let set = BoxedTerm::new(alloc, set)?;
    let body = BoxedTerm::new(alloc, body)?;
    Ok(Term::Bind(binder, name, set, body))
}

#[cycle(spelled_term)]
#[tactic(auto, using(crate::proofs::Lengths::lengths))]
fn bound_from(alloc: Global, binder: Binder, trees: &[Tree]) -> Result<Term, CodecFault>
    ensures { Finds plain_term result (option_map (λ f. f binder) (spelled_body (plains trees.now))) }
{
    match triple(trees) {
        Some((name, set, body)) => bound_of(alloc, binder, name, set, body),
        None => Err(CodecFault::Form),
    }
}

fn is_allowed_head(head: &Head) -> bool
    ensures { result ≡ is_allowed_head (plain_head head.now) }
{
    match head {
        Head::Op(_) | Head::Call(_) => true,
        Head::Cast(sort) => sort_ok(sort),
    }
}

/// Whether each sort that a term casts to is allowed.
#[cycle(allowed)]
fn casts_are_allowed(term: &Term) -> bool
    ensures { result ≡ casts_are_allowed (plain_term term.now) }
{
    match term {
        Term::Var(_) | Term::Lit(_) => true,
        Term::App(head, terms) => is_allowed_head(head) && all_casts_are_allowed(terms.items()),
        Term::Bind(_, _, set, body) => casts_are_allowed(set.get())
            && casts_are_allowed(body.get()),
    }
}

#[cycle(allowed)]
fn all_casts_are_allowed(terms: &[Term]) -> bool
    ensures { result ≡ all_casts_are_allowed (term_row (map plain_term terms.now)) }
{
    for term in terms {
        if !casts_are_allowed(term) {
            return false;
        }
    }
    true
}

/// The term that a tree spells: a name, a number, `true`, `false`, a tag as `'red`, an operator or a definition before its arguments,
/// `(cast A t)`, or a binder as `(all x S t)`.
///
/// # Errors
///
/// `Form`: the tree has no such shape, as where an operator has a number of arguments that it does not take, or another term
/// where it takes a number that is written. `Sort`: it has,
/// and a sort of a cast is not allowed. `Memory`: memory is wanting.
pub fn term_of(alloc: Global, tree: &Tree) -> Result<Term, CodecFault>
    ensures reading { Gives plain_term result (term_reading (plain tree.now)) }
    // So the tree is the one that is printed for the term.
    ensures spelling { IfOk result (λ t. plain tree.now ≡ term_spelling (plain_term t)) }
    ensures spelled { IfOk result (λ t. is_spelled_term (plain_term t) ≡ true) }
{
    let term = spelled_term(alloc, tree)?;
    if casts_are_allowed(&term) {
        Ok(term)
    } else {
        Err(CodecFault::Sort)
    }
}
