//! What may be taken as true where a proof about a plan begins.
ghost use Rattle.std.specs.Prelude.{◌≡◌, ◌∷◌, ◌++◌, [], IfOk, OnOk, true, map};
ghost use Rattle.std.specs.Option.{option_map};
ghost use Rattle.kid_value.specs.NameView.{plain_name};
ghost use Rattle.kid_value.specs.SortView.{plain_sort};
ghost use Rattle.kid_term.specs.PlainSpec.{plain_spec};
ghost use Rattle.kid_term.specs.TermView.{plain_term};
ghost use Rattle.kid_search.specs.Contexts as spec;
ghost use Rattle.kid_search.specs.PiecesView.{plain_branch, plain_plan};
ghost use Rattle.kid_search.specs.PlanView.{plain_parameter};

use crate::building::on_name_term;
use crate::pieces::Branch;
use crate::plan::{Parameter, Plan};
use crate::spot::{Context, Spot};
use kid_term::{LogicOp, Op, SetOp, Spec, Term, Terms};
use kid_value::{Memory, Names, Sort, Text};
use std::alloc::Global;

/// The names and the facts at a place of a plan.
///
/// # Errors
///
/// Fails where memory is wanting.
pub fn context(alloc: Global, plan: &Plan, problem: &Spec, spot: Spot) -> Result<Context, Memory>
    requires { spec.has_spot (plain_plan plan.now) spot ≡ true }
    ensures names { IfOk result (λ c. c.names ≡ spec.context_names (plain_plan plan.now) (plain_spec problem.now) spot) }
    ensures facts { IfOk result (λ c. c.facts ≡ spec.context_facts (plain_plan plan.now) (plain_spec problem.now) spot) }
{
    let names = context_names(alloc, plan, problem, spot)?;
    let facts = context_facts(alloc, plan, problem, spot)?;
    Ok(Context { names, facts })
}

fn put_names(alloc: Global, names: &mut Names, more: &[(Text, Sort)]) -> Result<(), Memory>
    ensures { OnOk result (names.new ≡ names.old ++ map plain_name more.now) }
{
    for name in more {
        names.push(name.0.copy(alloc)?, name.1.copy(alloc)?)?;
    }
    Ok(())
}

fn put_terms(alloc: Global, terms: &mut Terms, more: &[Term]) -> Result<(), Memory>
    ensures { OnOk result (terms.new ≡ terms.old ++ map plain_term more.now) }
{
    for term in more {
        terms.push(term.copy(alloc)?)?;
    }
    Ok(())
}

fn put_term(alloc: Global, terms: &mut Terms, term: &Term) -> Result<(), Memory>
    ensures { OnOk result (terms.new ≡ terms.old ++ plain_term term.now ∷ []) }
{
    terms.push(term.copy(alloc)?)?;
    Ok(())
}

fn put_branch(alloc: Global, names: &mut Names, branch: &Option<Branch>) -> Result<(), Memory>
    ensures { OnOk result (names.new ≡ names.old ++ spec.branch_names (option_map plain_branch branch.now)) }
{
    match branch {
        None => Ok(()),
        Some(branch) => names.push(branch.name.copy(alloc)?, branch.sort.copy(alloc)?),
    }
}

fn put_pool(alloc: Global, terms: &mut Terms, branch: &Option<Branch>) -> Result<(), Memory>
    ensures { OnOk result (terms.new ≡ terms.old ++ spec.pool_facts (option_map plain_branch branch.now)) }
{
    match branch {
        None => Ok(()),
        Some(branch) => terms.push(on_name_term(
            alloc,
            Op::Set(SetOp::In),
            &branch.name,
            &branch.pool,
        )?),
    }
}

fn put_parameters(alloc: Global, names: &mut Names, parameters: &[Parameter]) -> Result<(), Memory>
    ensures { OnOk result (names.new ≡ names.old ++ spec.kept_names (map plain_parameter parameters.now)) }
{
    for parameter in parameters {
        names.push(parameter.name.copy(alloc)?, parameter.sort.copy(alloc)?)?;
    }
    Ok(())
}

fn put_kept(alloc: Global, terms: &mut Terms, parameters: &[Parameter]) -> Result<(), Memory>
    ensures { OnOk result (terms.new ≡ terms.old ++ spec.kept_facts (map plain_parameter parameters.now)) }
{
    for parameter in parameters {
        terms.push(on_name_term(
            alloc,
            Op::Logic(LogicOp::Eq),
            &parameter.name,
            &parameter.expression,
        )?)?;
    }
    Ok(())
}

fn context_names(alloc: Global, plan: &Plan, problem: &Spec, spot: Spot) -> Result<Names, Memory>
    ensures { IfOk result (λ ns. ns ≡ spec.context_names (plain_plan plan.now) (plain_spec problem.now) spot) }
{
    let mut names = Names::new(alloc);
    put_names(alloc, &mut names, problem.inputs.items())?;
    match spot {
        Spot::Start => Ok(names),
        Spot::Feasible => with_output(alloc, names, plan, problem),
        Spot::Kid(_) => with_branch(alloc, names, plan),
        Spot::Leaf => with_parameters(alloc, names, plan),
    }
}

/// The names, the components and the output.
fn with_output(
    alloc: Global,
    mut names: Names,
    plan: &Plan,
    problem: &Spec,
) -> Result<Names, Memory>
    ensures { IfOk result (λ ns. ns ≡ (names ++ plan.now.pieces.components) ++ (problem.now.output, plain_sort problem.now.sort) ∷ []) }
{
    put_names(alloc, &mut names, plan.pieces.components.items())?;
    names.push(problem.output.copy(alloc)?, problem.sort.copy(alloc)?)?;
    Ok(names)
}

/// The names, the components, the branch and the parameters.
fn with_branch(alloc: Global, mut names: Names, plan: &Plan) -> Result<Names, Memory>
    ensures { IfOk result (λ ns. ns ≡ ((names ++ plan.now.pieces.components) ++ spec.branch_names (option_map plain_branch plan.now.pieces.branch)) ++ spec.kept_names plan.now.parameters) }
{
    put_names(alloc, &mut names, plan.pieces.components.items())?;
    put_branch(alloc, &mut names, &plan.pieces.branch)?;
    put_parameters(alloc, &mut names, plan.parameters.items())?;
    Ok(names)
}

/// The names, the components and the parameters.
fn with_parameters(alloc: Global, mut names: Names, plan: &Plan) -> Result<Names, Memory>
    ensures { IfOk result (λ ns. ns ≡ (names ++ plan.now.pieces.components) ++ spec.kept_names plan.now.parameters) }
{
    put_names(alloc, &mut names, plan.pieces.components.items())?;
    put_parameters(alloc, &mut names, plan.parameters.items())?;
    Ok(names)
}

fn context_facts(alloc: Global, plan: &Plan, problem: &Spec, spot: Spot) -> Result<Terms, Memory>
    ensures { IfOk result (λ ts. ts ≡ spec.context_facts (plain_plan plan.now) (plain_spec problem.now) spot) }
{
    match spot {
        Spot::Feasible => feasible_facts(alloc, plan, problem),
        Spot::Start => start_facts(alloc, problem),
        Spot::Kid(_) => kid_facts(alloc, plan, problem),
        Spot::Leaf => leaf_facts(alloc, plan, problem),
    }
}

fn start_facts(alloc: Global, problem: &Spec) -> Result<Terms, Memory>
    ensures { IfOk result (λ ts. ts ≡ plain_term problem.now.condition ∷ []) }
{
    let mut facts = Terms::new(alloc);
    put_term(alloc, &mut facts, &problem.condition)?;
    Ok(facts)
}

fn feasible_facts(alloc: Global, plan: &Plan, problem: &Spec) -> Result<Terms, Memory>
    ensures { IfOk result (λ ts. ts ≡ ((plain_term problem.now.condition ∷ plain_term plan.now.pieces.inv ∷ []) ++ plan.now.pieces.sat) ++ plain_term problem.now.relation ∷ []) }
{
    let mut facts = Terms::new(alloc);
    put_term(alloc, &mut facts, &problem.condition)?;
    put_term(alloc, &mut facts, &plan.pieces.inv)?;
    put_terms(alloc, &mut facts, plan.pieces.sat.items())?;
    put_term(alloc, &mut facts, &problem.relation)?;
    Ok(facts)
}

fn kid_facts(alloc: Global, plan: &Plan, problem: &Spec) -> Result<Terms, Memory>
    ensures { IfOk result (λ ts. ts ≡ (((plain_term problem.now.condition ∷ plain_term plan.now.pieces.inv ∷ plain_term plan.now.pieces.kid_guard ∷ []) ++ spec.pool_facts (option_map plain_branch plan.now.pieces.branch)) ++ plan.now.filters) ++ spec.kept_facts plan.now.parameters) }
{
    let mut facts = guarded(alloc, plan, problem, &plan.pieces.kid_guard)?;
    put_pool(alloc, &mut facts, &plan.pieces.branch)?;
    put_terms(alloc, &mut facts, plan.filters.items())?;
    put_kept(alloc, &mut facts, plan.parameters.items())?;
    Ok(facts)
}

fn leaf_facts(alloc: Global, plan: &Plan, problem: &Spec) -> Result<Terms, Memory>
    ensures { IfOk result (λ ts. ts ≡ ((plain_term problem.now.condition ∷ plain_term plan.now.pieces.inv ∷ plain_term plan.now.pieces.leaf_guard ∷ []) ++ plan.now.filters) ++ spec.kept_facts plan.now.parameters) }
{
    let mut facts = guarded(alloc, plan, problem, &plan.pieces.leaf_guard)?;
    put_terms(alloc, &mut facts, plan.filters.items())?;
    put_kept(alloc, &mut facts, plan.parameters.items())?;
    Ok(facts)
}

/// The condition on the inputs, the invariant, and a guard.
fn guarded(alloc: Global, plan: &Plan, problem: &Spec, guard: &Term) -> Result<Terms, Memory>
    ensures { IfOk result (λ ts. ts ≡ plain_term problem.now.condition ∷ plain_term plan.now.pieces.inv ∷ plain_term guard.now ∷ []) }
{
    let mut facts = Terms::new(alloc);
    put_term(alloc, &mut facts, &problem.condition)?;
    put_term(alloc, &mut facts, &plan.pieces.inv)?;
    put_term(alloc, &mut facts, guard)?;
    Ok(facts)
}
