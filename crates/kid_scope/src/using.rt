//! What a numbered fact makes of a term.
ghost use Rattle.std.specs.Prelude.{◌≡◌, ◌≢◌, ◌∷◌, [], MatchOption, true, map, length};
ghost use Rattle.kid_term.specs.PlainTerm.{truth};
ghost use Rattle.kid_term.specs.TermView.{plain_term};
ghost use Rattle.kid_scope.specs.InstanceView.{InstanceGiven};
ghost use Rattle.kid_scope.specs.Using as spec;

use crate::given::{fact_at, same_term};
use crate::instance::{Instance, just};
use kid_term::{Head, Literal, LogicOp, Op, Term, Why};
use std::alloc::Global;

fn couple(terms: &[Term]) -> Option<(&Term, &Term)>
    ensures { MatchOption result (length terms.now ≢ 2) (λ p. terms.now ≡ p.0.now ∷ p.1.now ∷ []) }
{
    let [first, second] = terms else {
        return None;
    };
    Some((first, second))
}

/// The two sides of an equation.
#[tactic(auto, using(crate::proofs::Facts::two_sides, crate::proofs::Facts::no_sides))]
fn sides(term: &Term) -> Option<(&Term, &Term)>
    ensures { MatchOption result (spec.sides_of (plain_term term.now) ≡ None) (λ p. spec.sides_of (plain_term term.now) ≡ Some (plain_term p.0.now, plain_term p.1.now)) }
{
    match term {
        Term::App(Head::Op(Op::Logic(LogicOp::Eq)), args) => couple(args.items()),
        _ => None,
    }
}

/// The other side where the term is this one.
fn exchanged(alloc: Global, from: &Term, to: &Term, term: &Term) -> Result<Instance, Why>
    ensures { InstanceGiven result (spec.exchanged (plain_term from.now) (plain_term to.now) (plain_term term.now)) }
{
    if !same_term(from, term) {
        return Err(Why::NoMatch);
    }
    match to.copy(alloc) {
        Ok(new) => Ok(just(alloc, new)),
        Err(_) => Err(Why::Memory),
    }
}

/// The word true where the term is this one.
fn settled(alloc: Global, fact: &Term, term: &Term) -> Result<Instance, Why>
    ensures { InstanceGiven result (spec.exchanged (plain_term fact.now) (truth true) (plain_term term.now)) }
{
    if same_term(fact, term) {
        Ok(just(alloc, Term::Lit(Literal::Bool(true))))
    } else {
        Err(Why::NoMatch)
    }
}

fn used_as(alloc: Global, back: bool, fact: &Term, term: &Term) -> Result<Instance, Why>
    ensures { InstanceGiven result (spec.used_as back (plain_term fact.now) (spec.sides_of (plain_term fact.now)) (plain_term term.now)) }
{
    match sides(fact) {
        Some((left, right)) => if back {
            exchanged(alloc, right, left, term)
        } else {
            exchanged(alloc, left, right, term)
        },
        None => if back {
            Err(Why::NoMatch)
        } else {
            settled(alloc, fact, term)
        },
    }
}

/// Of one side of the equation that the fact of this number is, the other; of any other fact, the
/// word true.
///
/// # Errors
///
/// `NoMatch` exactly where there is no such fact, the term is not that side or that fact, or the
/// fact is no equation and is wanted backwards, and `Memory` where memory is wanting.
pub fn use_fact(
    alloc: Global,
    facts: &[Term],
    number: u32,
    back: bool,
    term: &Term,
) -> Result<Instance, Why>
    ensures { InstanceGiven result (spec.used back (spec.fact_at (map plain_term facts.now) number) (plain_term term.now)) }
{
    match fact_at(facts, number) {
        None => Err(Why::NoMatch),
        Some(fact) => used_as(alloc, back, fact, term),
    }
}
