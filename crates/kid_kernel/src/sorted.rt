//! Laws whose terms have sorts over the inputs and the variables.
ghost use Rattle.std.specs.Prelude.{◌≡◌, ◌++◌, IfOk, map};
ghost use Rattle.std.specs.List.{list_all};
ghost use Rattle.kid_term.specs.DefView.{plain_def};
ghost use Rattle.kid_term.specs.PlainTerm.{term_row};
ghost use Rattle.kid_term.specs.Sorting.{sort_of};
ghost use Rattle.kid_term.specs.TermView.{plain_term};
ghost use Rattle.kid_kernel.specs.LawView.{plain_conclusion, plain_axiom};
ghost use Rattle.kid_kernel.specs.SortedLaw.{is_unbound, are_unbound, is_condition, have_common, is_sorted_conclusion, is_sorted_law, Sorts};

use crate::law::{Axiom, Conclusion};
use kid_sorting::judge::is_truth;
use kid_sorting::names::{are_allowed, joined};
use kid_sorting::{SortFault, sort_over};
use kid_term::{Def, Term};
use kid_value::{Memory, Names, Sort, join};
use std::alloc::Global;

/// Whether no binder stands in the term.
#[cycle(is_unbound)]
fn is_unbound(term: &Term) -> bool
    ensures { result ≡ is_unbound (plain_term term.now) }
{
    match term {
        Term::Var(_) | Term::Lit(_) => true,
        Term::App(_, args) => are_unbound(args.items()),
        Term::Bind(..) => false,
    }
}

#[cycle(is_unbound)]
fn are_unbound(terms: &[Term]) -> bool
    ensures { result ≡ are_unbound (term_row (map plain_term terms.now)) }
{
    for term in terms {
        if !is_unbound(term) {
            return false;
        }
    }
    true
}

/// What a law is judged against: the definitions, and the inputs with its variables.
#[derive(Clone, Copy)]
struct Context<'a> {
    definitions: &'a [Def],
    names: &'a Names,
}

fn is_condition(alloc: Global, context: &Context, term: &Term) -> Result<bool, Memory>
    ensures { IfOk result (λ b. b ≡ is_condition (map plain_def context.now.definitions.now) context.now.names.now (plain_term term.now)) }
{
    if !is_unbound(term) {
        return Ok(false);
    }
    is_truth(alloc, context.definitions, context.names.items(), term)
}

fn are_conditions(alloc: Global, context: &Context, terms: &[Term]) -> Result<bool, Memory>
    ensures { IfOk result (λ b. b ≡ list_all (is_condition (map plain_def context.now.definitions.now) context.now.names.now) (map plain_term terms.now)) }
{
    for term in terms {
        if !is_condition(alloc, context, term)? {
            return Ok(false);
        }
    }
    Ok(true)
}

/// The sort of a term, if it has one.
fn sort_in(alloc: Global, context: &Context, term: &Term) -> Result<Option<Sort>, Memory>
    ensures { IfOk result (λ o. Sorts o (sort_of (map plain_def context.now.definitions.now) context.now.names.now (plain_term term.now))) }
{
    match sort_over(alloc, context.definitions, context.names.items(), term) {
        Ok(sort) => Ok(Some(sort)),
        Err(SortFault::Memory) => Err(Memory),
        Err(_) => Ok(None),
    }
}

#[tactic(auto, using(crate::proofs::CommonSorts::common))]
fn have_common(alloc: Global, context: &Context, left: &Term, right: &Term) -> Result<bool, Memory>
    ensures { IfOk result (λ b. b ≡ have_common (sort_of (map plain_def context.now.definitions.now) context.now.names.now (plain_term left.now)) (sort_of (map plain_def context.now.definitions.now) context.now.names.now (plain_term right.now))) }
{
    let Some(left) = sort_in(alloc, context, left)? else {
        return Ok(false);
    };
    let Some(right) = sort_in(alloc, context, right)? else {
        return Ok(false);
    };
    Ok(join(alloc, &left, &right)?.is_some())
}

fn is_sorted_conclusion(
    alloc: Global,
    context: &Context,
    conclusion: &Conclusion,
) -> Result<bool, Memory>
    ensures { IfOk result (λ b. b ≡ is_sorted_conclusion (map plain_def context.now.definitions.now) context.now.names.now (plain_conclusion conclusion.now)) }
{
    match conclusion {
        Conclusion::Equal(left, right) => {
            if !is_unbound(left) || !is_unbound(right) {
                return Ok(false);
            }
            have_common(alloc, context, left, right)
        }
        Conclusion::Holds(condition) => is_condition(alloc, context, condition),
    }
}

/// Whether the variables of an axiom have allowed sorts, and its conditions and its conclusion hold no binder and have sorts over the
/// inputs and the variables: the conditions and the term of `Holds` are truth values, and the two terms of `Equal` have a common sort.
///
/// # Errors
///
/// Fails where memory is wanting.
pub fn is_sorted_axiom(
    alloc: Global,
    definitions: &[Def],
    inputs: &Names,
    law: &Axiom,
) -> Result<bool, Memory>
    ensures { IfOk result (λ b. b ≡ is_sorted_law (map plain_def definitions.now) inputs.now (plain_axiom law.now)) }
{
    if !are_allowed(&law.variables) {
        return Ok(false);
    }
    let names = joined(alloc, inputs, &law.variables)?;
    let context = Context {
        definitions,
        names: &names,
    };
    if !are_conditions(alloc, &context, law.conditions.items())? {
        return Ok(false);
    }
    is_sorted_conclusion(alloc, &context, &law.conclusion)
}
