//! What an operator lets be assumed of its arguments.
ghost use Rattle.std.specs.Prelude.{◌≡◌, IfOk, map};
ghost use Rattle.kid_term.specs.PlainTerm.{var, term_row};
ghost use Rattle.kid_term.specs.TermView.{plain_term, plain_head};
ghost use Rattle.kid_scope.specs.Scope as scope;

use kid_term::{Head, LogicOp, Op, SetOp, Term, Terms};
use kid_value::{Memory, Text};
use std::alloc::Global;

/// The term's negation.
pub fn negated(alloc: Global, term: &Term) -> Result<Term, Memory>
    ensures { IfOk result (λ t. plain_term t ≡ scope.negated (plain_term term.now)) }
{
    let mut args = Terms::new(alloc);
    args.push(term.copy(alloc)?)?;
    Ok(Term::App(Head::Op(Op::Logic(LogicOp::Not)), args))
}

/// That the name is a member of the set.
pub fn member(alloc: Global, name: &Text, set: &Term) -> Result<Term, Memory>
    ensures { IfOk result (λ t. plain_term t ≡ scope.member (var name.now) (plain_term set.now)) }
{
    let mut args = Terms::new(alloc);
    args.push(Term::Var(name.copy(alloc)?))?;
    args.push(set.copy(alloc)?)?;
    Ok(Term::App(Head::Op(Op::Set(SetOp::In)), args))
}

fn first_alone(alloc: Global, args: &[Term]) -> Result<Terms, Memory>
    ensures { IfOk result (λ ts. ts ≡ scope.first_alone (term_row (map plain_term args.now))) }
{
    let mut facts = Terms::new(alloc);
    if let Some((first, _)) = args.split_first() {
        facts.push(first.copy(alloc)?)?;
    }
    Ok(facts)
}

fn negated_first(alloc: Global, args: &[Term]) -> Result<Terms, Memory>
    ensures { IfOk result (λ ts. ts ≡ scope.negated_first (term_row (map plain_term args.now))) }
{
    let mut facts = Terms::new(alloc);
    if let Some((first, _)) = args.split_first() {
        facts.push(negated(alloc, first)?)?;
    }
    Ok(facts)
}

/// What may be assumed in the argument at the place, counted from 0: in the second of `and` or
/// `implies` the first, in the second of `if` its condition, and in the third its negation.
///
/// # Errors
///
/// Fails where memory is wanting.
pub fn assumptions(alloc: Global, head: &Head, place: u32, args: &Terms) -> Result<Terms, Memory>
    ensures { IfOk result (λ ts. ts ≡ scope.assumptions (plain_head head.now) place (term_row args.now)) }
{
    match (head, place) {
        (Head::Op(Op::Logic(LogicOp::And)), 1) => first_alone(alloc, args.items()),
        (Head::Op(Op::Logic(LogicOp::Implies)), 1) => first_alone(alloc, args.items()),
        (Head::Op(Op::Logic(LogicOp::If)), 1) => first_alone(alloc, args.items()),
        (Head::Op(Op::Logic(LogicOp::If)), 2) => negated_first(alloc, args.items()),
        _ => Ok(Terms::new(alloc)),
    }
}
