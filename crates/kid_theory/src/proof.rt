//! Whether the moves of a proof reach what a law says.
ghost use Rattle.std.specs.Prelude.{◌≡◌, IfOk, map};
ghost use Rattle.kid_kernel.specs.FactAnswers.{Begun};
ghost use Rattle.kid_kernel.specs.Held.{AreNames};
ghost use Rattle.kid_kernel.specs.IsTheory.{IsTheory};
ghost use Rattle.kid_kernel.specs.Key.{key};
ghost use Rattle.kid_kernel.specs.LawView.{plain_axiom, plain_conclusion};
ghost use Rattle.kid_kernel.specs.Moves.{begun};
ghost use Rattle.kid_kernel.specs.Placed.{top_scope};
ghost use Rattle.kid_kernel.specs.TheoryView.{plain_theory};
ghost use Rattle.kid_moves.specs.MoveView.{plain_move};
ghost use Rattle.kid_scope.specs.Holds as scope;
ghost use Rattle.kid_term.specs.PlainLaw.{equal};
ghost use Rattle.kid_term.specs.TermView.{plain_term};
ghost use Rattle.kid_theory.specs.Proof.{proof_names, proof_start, goal_of, all_stepped, proof_facts, is_proved};

use kid_kernel::{Axiom, Conclusion, Facts, Move, Moves, Theory, Why};
use kid_sorting::names::joined;
use kid_term::{Head, LogicOp, Op, Term, Terms};
use kid_value::{Memory, Names};
use std::alloc::Global;

/// That two terms are equal.
fn equation(alloc: Global, left: &Term, right: &Term) -> Result<Term, Memory>
    ensures { IfOk result (λ t. plain_term t ≡ goal_of (equal (plain_term left.now) (plain_term right.now))) }
{
    let mut sides = Terms::new(alloc);
    sides.push(left.copy(alloc)?)?;
    sides.push(right.copy(alloc)?)?;
    Ok(Term::App(Head::Op(Op::Logic(LogicOp::Eq)), sides))
}

/// What a proof of the conclusion is to reach.
fn goal_of(alloc: Global, conclusion: &Conclusion) -> Result<Term, Memory>
    ensures { IfOk result (λ t. plain_term t ≡ goal_of (plain_conclusion conclusion.now)) }
{
    match conclusion {
        Conclusion::Equal(left, right) => equation(alloc, left, right),
        Conclusion::Holds(term) => Ok(term.copy(alloc)?),
    }
}

/// The input condition, and then the law's conditions.
fn start_of(alloc: Global, theory: &Theory, law: &Axiom) -> Result<Terms, Memory>
    ensures { IfOk result (λ ts. ts ≡ proof_start (plain_theory theory.now) (plain_axiom law.now)) }
{
    let mut start = Terms::new(alloc);
    start.push(theory.spec.condition.copy(alloc)?)?;
    for condition in law.conditions.items() {
        start.push(condition.copy(alloc)?)?;
    }
    Ok(start)
}

/// The names of a proof and the facts that it begins with.
fn beginning(alloc: Global, theory: &Theory, law: &Axiom) -> Result<(Names, Terms), Memory>
    ensures { IfOk result (λ p. (p.0 ≡ proof_names (plain_theory theory.now) (plain_axiom law.now)) × (p.1 ≡ proof_start (plain_theory theory.now) (plain_axiom law.now))) }
{
    let names = joined(alloc, theory.signature.names(), &law.variables)?;
    let start = start_of(alloc, theory, law)?;
    Ok((names, start))
}

fn begin(alloc: Global, theory: &Theory, law: &Axiom) -> Result<Facts, Why>
    requires theory { IsTheory (plain_theory theory.now) }
    requires names { AreNames (plain_theory theory.now) (proof_names (plain_theory theory.now) (plain_axiom law.now)) }
    ensures { Begun result (begun (key (plain_theory theory.now)) theory.now.signature.definitions (proof_names (plain_theory theory.now) (plain_axiom law.now)) (proof_start (plain_theory theory.now) (plain_axiom law.now))) }
{
    match beginning(alloc, theory, law) {
        Ok((names, start)) => Facts::begin(alloc, theory, names, start),
        Err(_) => Err(Why::Memory),
    }
}

/// The facts after all moves.
fn step_all(alloc: Global, theory: &Theory, begun: Facts, moves: &[Move]) -> Result<Facts, Why>
    requires { key (plain_theory theory.now) ≡ begun.theory }
    ensures facts { Begun result (all_stepped (plain_theory theory.now) (map plain_move moves.now) begun) }
    ensures theory { IfOk result (λ f. key (plain_theory theory.now) ≡ f.theory) }
{
    let mut facts = begun;
    for step in moves {
        facts.step(alloc, theory, step)?;
    }
    Ok(facts)
}

fn proof_facts(alloc: Global, theory: &Theory, law: &Axiom, moves: &[Move]) -> Result<Facts, Why>
    requires theory { IsTheory (plain_theory theory.now) }
    requires names { AreNames (plain_theory theory.now) (proof_names (plain_theory theory.now) (plain_axiom law.now)) }
    ensures facts { Begun result (proof_facts (plain_theory theory.now) (plain_axiom law.now) (map plain_move moves.now)) }
    ensures theory { IfOk result (λ f. key (plain_theory theory.now) ≡ f.theory) }
{
    let facts = begin(alloc, theory, law)?;
    step_all(alloc, theory, facts, moves)
}

/// Whether the conclusion holds over the facts.
fn is_reached(
    alloc: Global,
    theory: &Theory,
    facts: &Facts,
    conclusion: &Conclusion,
) -> Result<bool, Memory>
    requires { key (plain_theory theory.now) ≡ facts.now.theory }
    ensures { IfOk result (λ b. b ≡ scope.holds theory.now.signature.definitions (top_scope facts.now.names facts.now.facts) (goal_of (plain_conclusion conclusion.now))) }
{
    let goal = goal_of(alloc, conclusion)?;
    facts.holds(alloc, theory, &goal)
}

/// Whether the moves prove the law from the input condition and the law's conditions, over a theory
/// that holds what stands before it: each applies, and after them the conclusion holds.
///
/// # Errors
///
/// Fails where memory is wanting.
#[tactic(auto, unfolding(crate::specs::Proof::is_proved))]
pub fn is_proved(alloc: Global, theory: &Theory, law: &Axiom, moves: &Moves) -> Result<bool, Memory>
    requires theory { IsTheory (plain_theory theory.now) }
    requires names { AreNames (plain_theory theory.now) (proof_names (plain_theory theory.now) (plain_axiom law.now)) }
    ensures { IfOk result (λ b. b ≡ is_proved (plain_theory theory.now) (plain_axiom law.now) moves.now) }
{
    match proof_facts(alloc, theory, law, moves.items()) {
        Ok(facts) => is_reached(alloc, theory, &facts, &law.conclusion),
        Err(Why::Memory) => Err(Memory),
        Err(_) => Ok(false),
    }
}
