//! The least terms for the variables of a pattern with which it is a term.
ghost use Rattle.std.specs.Prelude.{◌≡◌, ◌↔◌, [], IfOk, None, IsTrue, map, option_map};
ghost use Rattle.kid_value.specs.NameSet.{is_among};
ghost use Rattle.kid_term.specs.PlainTerm.{term_row, var};
ghost use Rattle.kid_term.specs.SubstView.{plain_pair};
ghost use Rattle.kid_term.specs.TermView.{plain_head, plain_term};
ghost use Rattle.kid_laws.specs.BoundView.{names_of};
ghost use Rattle.kid_laws.specs.Found as spec;
ghost use Rattle.kid_laws.specs.Found.{kept, mentions_any, met};
ghost use Rattle.kid_laws.specs.Matching.{IsMatchOf};
ghost use Rattle.kid_laws.specs.Same.{same_term};

use kid_term::substitute::is_same;
use kid_term::{Binder, Head, Literal, Subst, Term, Terms, same};
use kid_value::{Memory, Text, Texts};
use std::alloc::Global;

/// The names of the binders above a place.
#[derive(Clone, Copy)]
pub enum Bound<'a> {
    Nothing,
    More(&'a Text, &'a Bound<'a>),
}

fn is_bound<'a>(x: &Text, bound: &'a Bound<'a>) -> bool
    ensures { result ≡ is_among x.now (names_of bound.now) }
{
    match *bound {
        Bound::Nothing => false,
        Bound::More(y, rest) => is_same(x, y) || is_bound(x, rest),
    }
}

/// Whether one of the bound names stands free in the term.
fn mentions_bound<'a>(term: &Term, bound: &'a Bound<'a>) -> bool
    ensures { result ≡ mentions_any (names_of bound.now) (plain_term term.now) }
{
    match *bound {
        Bound::Nothing => false,
        Bound::More(y, rest) => term.mentions(y) || mentions_bound(term, rest),
    }
}

fn is_variable(x: &Text, variables: &[Text]) -> bool
    ensures { result ≡ is_among x.now variables.now }
{
    for y in variables {
        if is_same(x, y) {
            return true;
        }
    }
    false
}

fn is_term(a: &Term, b: &Term) -> bool
    ensures { result ≡ same_term (plain_term a.now) (plain_term b.now) }
{
    same(a, b)
}

/// Whether the term is the name.
fn is_name(term: &Term, x: &Text) -> bool
    ensures { result ≡ same_term (plain_term term.now) (var x.now) }
{
    match term {
        Term::Var(y) => y.same(x),
        Term::Lit(_) => false,
        Term::App(_, _) => false,
        Term::Bind(_, _, _, _) => false,
    }
}

/// A head without arguments.
fn bare(alloc: Global, head: &Head) -> Result<Term, Memory>
    ensures { IfOk result (λ t. plain_term t ≡ spec.bare (plain_head head.now)) }
{
    Ok(Term::App(head.copy(alloc)?, Terms::new(alloc)))
}

fn same_head(alloc: Global, a: &Head, b: &Head) -> Result<bool, Memory>
    ensures { IfOk result (λ c. c ≡ spec.same_head (plain_head a.now) (plain_head b.now)) }
{
    let a = bare(alloc, a)?;
    let b = bare(alloc, b)?;
    Ok(is_term(&a, &b))
}

fn same_kind(b: Binder, c: Binder) -> bool
    ensures { IsTrue result ↔ (b ≡ c) }
{
    b == c
}

fn same_binder(b: Binder, x: &Text, c: Binder, y: &Text) -> bool
    ensures { result ≡ spec.same_binder b x.now c y.now }
{
    let kinds = same_kind(b, c);
    let names = x.same(y);
    kinds && names
}

/// A name without a term: a variable gets this one, and any other name stands for itself.
fn new_name(
    alloc: Global,
    variables: &Texts,
    x: &Text,
    term: &Term,
    found: &mut Subst,
) -> Result<bool, Memory>
    ensures { IfOk result (λ b. met x.now (plain_term term.now) found.old None (is_among x.now variables.now) ≡ kept b found.new) }
{
    if is_variable(x, variables.items()) {
        found.push(x.copy(alloc)?, term.copy(alloc)?)?;
        return Ok(true);
    }
    Ok(is_name(term, x))
}

/// Whether the term is the known one, where there is one.
fn is_known(term: &Term, known: Option<&Term>) -> Option<bool>
    ensures { result ≡ option_map (λ u. same_term (plain_term term.now) (plain_term u.now)) known.entry }
{
    match known {
        Some(u) => Some(is_term(term, u)),
        None => None,
    }
}

fn name_met<'a>(
    alloc: Global,
    bound: &'a Bound<'a>,
    variables: &Texts,
    x: &Text,
    term: &Term,
    found: &mut Subst,
) -> Result<bool, Memory>
    ensures { IfOk result (λ b. spec.name_met (names_of bound.now) variables.now x.now (plain_term term.now) found.old ≡ kept b found.new) }
{
    if is_bound(x, bound) {
        return Ok(is_name(term, x));
    }
    if mentions_bound(term, bound) {
        return Ok(false);
    }
    match is_known(term, found.get(x)) {
        Some(same) => Ok(same),
        None => new_name(alloc, variables, x, term, found),
    }
}

/// Goes through the pattern and the term side by side.
#[cycle(walk)]
fn walk<'a>(
    alloc: Global,
    bound: &'a Bound<'a>,
    variables: &Texts,
    pattern: &'a Term,
    term: &Term,
    found: &mut Subst,
) -> Result<bool, Memory>
    ensures { IfOk result (λ b. spec.found (names_of bound.now) variables.now (plain_term pattern.now) (plain_term term.now) found.old ≡ kept b found.new) }
{
    match pattern {
        Term::Var(x) => name_met(alloc, bound, variables, x, term, found),
        Term::Lit(_) => Ok(is_term(term, pattern)),
        Term::App(g, ps) => match term {
            Term::App(h, ts) => {
                if !same_head(alloc, g, h)? {
                    return Ok(false);
                }
                walk_all(alloc, bound, variables, ps.items(), ts.items(), found)
            }
            Term::Var(_) => Ok(false),
            Term::Lit(_) => Ok(false),
            Term::Bind(_, _, _, _) => Ok(false),
        },
        Term::Bind(b, y, p, q) => match term {
            Term::Bind(c, z, t, u) => {
                if !same_binder(*b, y, *c, z)
                    || !walk(alloc, bound, variables, p.get(), t.get(), found)?
                {
                    return Ok(false);
                }
                let inside = Bound::More(y, bound);
                walk(alloc, &inside, variables, q.get(), u.get(), found)
            }
            Term::Var(_) => Ok(false),
            Term::Lit(_) => Ok(false),
            Term::App(_, _) => Ok(false),
        },
    }
}

#[cycle(walk)]
fn walk_all<'a>(
    alloc: Global,
    bound: &'a Bound<'a>,
    variables: &Texts,
    patterns: &'a [Term],
    terms: &[Term],
    found: &mut Subst,
) -> Result<bool, Memory>
    ensures { IfOk result (λ b. spec.all_found (names_of bound.now) variables.now (term_row (map plain_term patterns.now)) (term_row (map plain_term terms.now)) found.old ≡ kept b found.new) }
{
    match (patterns.split_first(), terms.split_first()) {
        (None, None) => Ok(true),
        (Some((p, ps)), Some((t, ts))) => {
            if !walk(alloc, bound, variables, p, t, found)? {
                return Ok(false);
            }
            walk_all(alloc, bound, variables, ps, ts, found)
        }
        _ => Ok(false),
    }
}

fn copied(alloc: Global, items: &[(Text, Term)]) -> Result<Subst, Memory>
    ensures { IfOk result (λ σ. σ ≡ map plain_pair items.now) }
{
    let mut copy = Subst::new(alloc);
    for item in items {
        copy.push(item.0.copy(alloc)?, item.1.copy(alloc)?)?;
    }
    Ok(copy)
}

/// The least terms for the variables with which the pattern is the term, beside those that were
/// found before.
pub(crate) fn find(
    alloc: Global,
    pattern: &Term,
    variables: &Texts,
    term: &Term,
    before: Subst,
) -> Result<Option<Subst>, Memory>
    ensures { IfOk result (λ o. o ≡ spec.found [] variables.now (plain_term pattern.now) (plain_term term.now) before) }
{
    let mut found = before;
    if walk(alloc, &Bound::Nothing, variables, pattern, term, &mut found)? {
        Ok(Some(found))
    } else {
        Ok(None)
    }
}

/// The least terms for the variables with which the pattern is the term, beside those that the
/// substitution has; other names stand for themselves. A binder has to have the name that it has
/// in the pattern, and no name of a term that is put in may be bound.
///
/// `None` exactly where there are none.
///
/// # Errors
///
/// Fails where memory is wanting.
pub fn match_term(
    alloc: Global,
    pattern: &Term,
    variables: &Texts,
    term: &Term,
    subst: &Subst,
) -> Result<Option<Subst>, Memory>
    ensures { IfOk result (λ o. IsMatchOf variables.now (plain_term pattern.now) (plain_term term.now) subst.now o) }
{
    let before = copied(alloc, subst.items())?;
    find(alloc, pattern, variables, term, before)
}
