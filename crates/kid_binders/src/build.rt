//! Terms and outcomes that the rules make.
ghost use Rattle.std.specs.Prelude.{◌≡◌, ◌∷◌, [], IfOk, Ok, map};
ghost use Rattle.kid_term.specs.PlainTerm.{bind};
ghost use Rattle.kid_term.specs.TermView.{plain_term};
ghost use Rattle.kid_binders.specs.Shapes as spec;
ghost use Rattle.kid_binders.specs.Outcome as outcome;

use crate::bound::Bound;
use kid_term::{Binder, BoxedTerm, Head, Op, Term, Terms};
use kid_value::{Memory, Text};
use std::alloc::Global;

pub(crate) fn one(alloc: Global, op: Op, a: Term) -> Result<Term, Memory>
    ensures { IfOk result (λ t. plain_term t ≡ spec.one op (plain_term a)) }
{
    let mut terms = Terms::new(alloc);
    terms.push(a)?;
    Ok(Term::App(Head::Op(op), terms))
}

pub(crate) fn two(alloc: Global, op: Op, a: Term, b: Term) -> Result<Term, Memory>
    ensures { IfOk result (λ t. plain_term t ≡ spec.two op (plain_term a) (plain_term b)) }
{
    let mut terms = Terms::new(alloc);
    terms.push(a)?;
    terms.push(b)?;
    Ok(Term::App(Head::Op(op), terms))
}

/// An operator over copies.
pub(crate) fn two_of(alloc: Global, op: Op, a: &Term, b: &Term) -> Result<Term, Memory>
    ensures { IfOk result (λ t. plain_term t ≡ spec.two op (plain_term a.now) (plain_term b.now)) }
{
    let left = a.copy(alloc)?;
    let right = b.copy(alloc)?;
    two(alloc, op, left, right)
}

/// A binder over a body.
pub(crate) fn bind_body(
    alloc: Global,
    binder: Binder,
    x: &Text,
    set: &Term,
    body: Term,
) -> Result<Term, Memory>
    ensures { IfOk result (λ t. plain_term t ≡ bind binder x.now (plain_term set.now) (plain_term body)) }
{
    let name = x.copy(alloc)?;
    let set = set.copy(alloc)?;
    let set = BoxedTerm::new(alloc, set)?;
    let body = BoxedTerm::new(alloc, body)?;
    Ok(Term::Bind(binder, name, set, body))
}

/// A binder over copies.
pub(crate) fn bind_of(
    alloc: Global,
    binder: Binder,
    x: &Text,
    set: &Term,
    body: &Term,
) -> Result<Term, Memory>
    ensures { IfOk result (λ t. plain_term t ≡ bind binder x.now (plain_term set.now) (plain_term body.now)) }
{
    let body = body.copy(alloc)?;
    bind_body(alloc, binder, x, set, body)
}

/// A term without conditions.
pub(crate) fn made(alloc: Global, term: Term) -> Bound
    ensures { Ok (outcome.plain_bound result) ≡ outcome.made (plain_term term) }
{
    Bound {
        conditions: Terms::new(alloc),
        term,
    }
}

/// A term on a condition.
pub(crate) fn made_if(alloc: Global, condition: Term, term: Term) -> Result<Bound, Memory>
    ensures { IfOk result (λ b. outcome.made_if (plain_term condition) (plain_term term) ≡ Ok (outcome.plain_bound b)) }
{
    let mut conditions = Terms::new(alloc);
    conditions.push(condition)?;
    Ok(Bound { conditions, term })
}
