//! Conjunctions, and facts added to others.
ghost use Rattle.std.specs.Prelude.{◌≡◌, ◌<◌, ◌^◌, IfOk, OnOk, Ok, length};
ghost use Rattle.kid_term.specs.TermView.{plain_term};
ghost use Rattle.kid_scope.specs.InstanceView.{TermGiven};
ghost use Rattle.kid_kernel.specs.FactAnswers.{PushedOn};
ghost use Rattle.kid_kernel.specs.Moves.{both as both_of, truth_term};

use crate::start::truth;
use crate::theory::Theory;
use kid_term::{Head, LogicOp, Op, Term, Terms, Why};
use kid_value::{Memory, Names};
use std::alloc::Global;

fn both(alloc: Global, a: &Term, b: &Term) -> Result<Term, Memory>
    ensures { IfOk result (λ t. plain_term t ≡ both_of (plain_term a.now) (plain_term b.now)) }
{
    let mut args = Terms::new(alloc);
    args.push(a.copy(alloc)?)?;
    args.push(b.copy(alloc)?)?;
    Ok(Term::App(Head::Op(Op::Logic(LogicOp::And)), args))
}

/// An equal term.
///
/// # Errors
///
/// `Memory` where memory is wanting.
pub(crate) fn copied(alloc: Global, term: &Term) -> Result<Term, Why>
    ensures { TermGiven result (Ok (plain_term term.now)) }
{
    match term.copy(alloc) {
        Ok(copy) => Ok(copy),
        Err(_) => Err(Why::Memory),
    }
}

/// The conjunction of two terms.
///
/// # Errors
///
/// `Limit` where it is too large or too deep, `IllSorted` where a part is no truth value's, and
/// `Memory` where memory is wanting.
pub(crate) fn joined(
    alloc: Global,
    theory: &Theory,
    names: &Names,
    a: &Term,
    b: &Term,
) -> Result<Term, Why>
    ensures { TermGiven result (truth_term theory.now.signature.definitions names.now (both_of (plain_term a.now) (plain_term b.now))) }
{
    match both(alloc, a, b) {
        Ok(term) => truth(alloc, theory, names, term),
        Err(_) => Err(Why::Memory),
    }
}

/// Adds a fact after the others, each of which has a number.
///
/// # Errors
///
/// `Memory` where memory is wanting or no number is left, and then changes nothing.
pub(crate) fn pushed(facts: &mut Terms, fact: Term) -> Result<(), Why>
    ensures facts { PushedOn result facts.old facts.new (plain_term fact) }
    ensures counted { OnOk result (length facts.new < 2 ^ 32) }
{
    if facts.len() >= u32::MAX as usize {
        return Err(Why::Memory);
    }
    match facts.push(fact) {
        Ok(()) => Ok(()),
        Err(_) => Err(Why::Memory),
    }
}
