//! Terms made of few parts.
ghost use Rattle.std.specs.Prelude.{◌≡◌, ◌∷◌, [], IfOk};
ghost use Rattle.kid_term.specs.PlainTerm.{var, number};
ghost use Rattle.kid_term.specs.TermView.{plain_term};
ghost use Rattle.kid_search.specs.Operators.{applied};

use kid_term::{Head, Literal, Op, Term, Terms};
use kid_value::{Memory, Text};
use std::alloc::Global;

/// The name as a term.
///
/// # Errors
///
/// Fails where memory is wanting.
pub fn named(alloc: Global, name: &Text) -> Result<Term, Memory>
    ensures { IfOk result (λ t. plain_term t ≡ var name.now) }
{
    Ok(Term::Var(name.copy(alloc)?))
}

/// A row of two terms.
///
/// # Errors
///
/// Fails where memory is wanting.
pub fn row_of_two(alloc: Global, a: Term, b: Term) -> Result<Terms, Memory>
    ensures { IfOk result (λ ts. ts ≡ plain_term a ∷ plain_term b ∷ []) }
{
    let mut terms = Terms::new(alloc);
    terms.push(a)?;
    terms.push(b)?;
    Ok(terms)
}

/// An operator applied to two terms.
///
/// # Errors
///
/// Fails where memory is wanting.
pub fn on_two(alloc: Global, op: Op, a: Term, b: Term) -> Result<Term, Memory>
    ensures { IfOk result (λ t. plain_term t ≡ applied op (plain_term a ∷ plain_term b ∷ [])) }
{
    let terms = row_of_two(alloc, a, b)?;
    Ok(Term::App(Head::Op(op), terms))
}

/// An operator applied to two names.
///
/// # Errors
///
/// Fails where memory is wanting.
pub fn on_names(alloc: Global, op: Op, x: &Text, y: &Text) -> Result<Term, Memory>
    ensures { IfOk result (λ t. plain_term t ≡ applied op (var x.now ∷ var y.now ∷ [])) }
{
    let first = named(alloc, x)?;
    let second = named(alloc, y)?;
    on_two(alloc, op, first, second)
}

/// An operator applied to a term and a name.
///
/// # Errors
///
/// Fails where memory is wanting.
pub fn on_term_name(alloc: Global, op: Op, a: &Term, x: &Text) -> Result<Term, Memory>
    ensures { IfOk result (λ t. plain_term t ≡ applied op (plain_term a.now ∷ var x.now ∷ [])) }
{
    let first = a.copy(alloc)?;
    let second = named(alloc, x)?;
    on_two(alloc, op, first, second)
}

/// An operator applied to a name and a term.
///
/// # Errors
///
/// Fails where memory is wanting.
pub fn on_name_term(alloc: Global, op: Op, x: &Text, a: &Term) -> Result<Term, Memory>
    ensures { IfOk result (λ t. plain_term t ≡ applied op (var x.now ∷ plain_term a.now ∷ [])) }
{
    let first = named(alloc, x)?;
    let second = a.copy(alloc)?;
    on_two(alloc, op, first, second)
}

/// An operator applied to a term and a number.
///
/// # Errors
///
/// Fails where memory is wanting.
pub fn on_term_number(alloc: Global, op: Op, a: Term, n: &i64) -> Result<Term, Memory>
    ensures { IfOk result (λ t. plain_term t ≡ applied op (plain_term a ∷ number n.now ∷ [])) }
{
    on_two(alloc, op, a, Term::Lit(Literal::Int(*n)))
}
