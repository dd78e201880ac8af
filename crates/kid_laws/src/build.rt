//! Terms by their heads.
ghost use Rattle.std.specs.Prelude.{◌≡◌, ◌∷◌, [], IfOk, map};
ghost use Rattle.kid_term.specs.TermView.{plain_term};
ghost use Rattle.kid_laws.specs.Law as law;
ghost use Rattle.kid_term.specs.Names.{same_name};
ghost use Rattle.kid_term.specs.Simultaneous.{term_for};
ghost use Rattle.kid_term.specs.SubstView.{plain_pair};
ghost use Rattle.kid_laws.specs.Steps.{first_term, other_terms, headed, term_of, pile_of};

use crate::step::Step;
use kid_term::{Head, Literal, Op, Subst, Term, Terms};
use kid_value::{Memory, Text};
use std::alloc::Global;

/// Whether the letter is the name.
pub(crate) fn is_letter(letter: u8, name: &Text) -> bool
    ensures { result ≡ same_name (letter ∷ []) name.now }
{
    name.is(&[letter])
}

/// The term that a letter has, or the letter.
fn found(alloc: Global, items: &[(Text, Term)], letter: u8) -> Result<Term, Memory>
    ensures { IfOk result (λ t. plain_term t ≡ term_for (letter ∷ []) (map plain_pair items.now)) }
{
    for item in items {
        if is_letter(letter, &item.0) {
            return item.1.copy(alloc);
        }
    }
    Ok(Term::Var(Text::from_slice(alloc, &[letter])?))
}

/// The last of the pile.
fn top(pile: &mut Vec<Term>) -> Term
    ensures top { plain_term result ≡ first_term (pile_of pile.old.items) }
    ensures rest { pile_of pile.new.items ≡ other_terms (pile_of pile.old.items) }
{
    match pile.pop() {
        Some(term) => term,
        None => Term::Lit(Literal::Bool(false)),
    }
}

fn zero(alloc: Global, op: Op) -> Term
    ensures { plain_term result ≡ law.none op }
{
    Term::App(Head::Op(op), Terms::new(alloc))
}

fn one(alloc: Global, op: Op, a: Term) -> Result<Term, Memory>
    ensures { IfOk result (λ t. plain_term t ≡ law.one op (plain_term a)) }
{
    let mut terms = Terms::new(alloc);
    terms.push(a)?;
    Ok(Term::App(Head::Op(op), terms))
}

fn two(alloc: Global, op: Op, a: Term, b: Term) -> Result<Term, Memory>
    ensures { IfOk result (λ t. plain_term t ≡ law.two op (plain_term a) (plain_term b)) }
{
    let mut terms = Terms::new(alloc);
    terms.push(a)?;
    terms.push(b)?;
    Ok(Term::App(Head::Op(op), terms))
}

fn three(alloc: Global, op: Op, a: Term, b: Term, c: Term) -> Result<Term, Memory>
    ensures { IfOk result (λ t. plain_term t ≡ law.three op (plain_term a) (plain_term b) (plain_term c)) }
{
    let mut terms = Terms::new(alloc);
    terms.push(a)?;
    terms.push(b)?;
    terms.push(c)?;
    Ok(Term::App(Head::Op(op), terms))
}

/// The term of a head, with the terms that it takes off the pile.
fn placed(alloc: Global, pile: &mut Vec<Term>, step: &Step, subst: &Subst) -> Result<Term, Memory>
    ensures { IfOk result (λ t. plain_term t ∷ pile_of pile.new.items ≡ headed subst.now step.now (pile_of pile.old.items)) }
{
    match step {
        Step::Var(x) => found(alloc, subst.items(), *x),
        Step::Int(n) => Ok(Term::Lit(Literal::Int(*n))),
        Step::Bool(b) => Ok(Term::Lit(Literal::Bool(*b))),
        Step::Zero(op) => Ok(zero(alloc, *op)),
        Step::One(op) => {
            let a = top(pile);
            one(alloc, *op, a)
        }
        Step::Two(op) => {
            let a = top(pile);
            let b = top(pile);
            two(alloc, *op, a, b)
        }
        Step::Three(op) => {
            let a = top(pile);
            let b = top(pile);
            let c = top(pile);
            three(alloc, *op, a, b, c)
        }
    }
}

/// The term that the heads spell, with terms put in for the variables.
pub(crate) fn built(alloc: Global, steps: &[Step], subst: &Subst) -> Result<Term, Memory>
    ensures { IfOk result (λ t. plain_term t ≡ term_of subst.now steps.now) }
{
    let mut pile = Vec::new(alloc);
    let mut left = steps.len();
    while left > 0 {
        left -= 1;
        let term = placed(alloc, &mut pile, &steps[left], subst)?;
        pile.push(term)?;
    }
    Ok(top(&mut pile))
}
