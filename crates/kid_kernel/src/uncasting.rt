//! A cast that changes nothing is taken away.
ghost use Rattle.std.specs.Prelude.{◌≡◌, ◌∷◌, [], pos, cond, IfOk, Ok, map};
ghost use Rattle.kid_value.specs.PlainSort.{seqs};
ghost use Rattle.kid_value.specs.SortView.{plain_sort};
ghost use Rattle.kid_term.specs.PlainTerm.{app, cast, number, term_row};
ghost use Rattle.kid_term.specs.Sorting.{sort_of};
ghost use Rattle.kid_term.specs.TermView.{plain_term};
ghost use Rattle.kid_scope.specs.InstanceView.{InstanceGiven};
ghost use Rattle.kid_scope.specs.Instances.{no_match, just as just_given, provided};
ghost use Rattle.kid_scope.specs.Rewriting.{lies_within};
ghost use Rattle.kid_scope.specs.Uncasting as spec;

use crate::comparing::single;
use crate::judging::{is_within, sort_in};
use crate::scope::Scope;
use kid_scope::{Instance, Within};
use kid_term::{Head, Literal, NumberOp, Op, SeqOp, Term, Terms, Why};
use kid_value::{Memory, Sort, subsort};
use std::alloc::Global;

/// The term below a cast that changes nothing, under the conditions that it does not: that the
/// number lies in the interval, or that the sequence is not longer than its bound.
///
/// # Errors
///
/// `NoMatch` exactly where the term is no cast, or one that neither sorts nor such conditions show
/// to change nothing, and `Memory` where memory is wanting.
pub fn uncast(alloc: Global, scope: &Scope, term: &Term) -> Result<Instance, Why>
    ensures { InstanceGiven result (spec.uncast_in scope.now.definitions.now scope.now.names (plain_term term.now)) }
{
    match term {
        Term::App(Head::Cast(sort), args) => uncast_one(alloc, scope, sort, args.items()),
        _ => Err(Why::NoMatch),
    }
}

#[tactic(auto, using(crate::proofs::CastLemmas::one_part, crate::proofs::CastLemmas::no_part))]
fn uncast_one(alloc: Global, scope: &Scope, sort: &Sort, args: &[Term]) -> Result<Instance, Why>
    ensures { InstanceGiven result (spec.uncast_in scope.now.definitions.now scope.now.names (app (cast (plain_sort sort.now)) (term_row (map plain_term args.now)))) }
{
    match single(args) {
        Some(part) => uncast_from(alloc, scope, sort, part),
        None => Err(Why::NoMatch),
    }
}

fn uncast_from(alloc: Global, scope: &Scope, sort: &Sort, part: &Term) -> Result<Instance, Why>
    ensures { InstanceGiven result (spec.uncast_from (plain_sort sort.now) (plain_term part.now) (sort_of scope.now.definitions.now scope.now.names (plain_term part.now))) }
{
    match sort {
        Sort::Int { lo, hi } => between(alloc, lo, hi, part),
        Sort::Seq { item, bound } => from_items(alloc, scope, sort, item, *bound, part),
        _ => by_sorts(alloc, scope, sort, part),
    }
}

/// The term, provided that the number lies in the interval.
fn between(alloc: Global, lo: &i64, hi: &i64, part: &Term) -> Result<Instance, Why>
    ensures { InstanceGiven result (provided (spec.at_most (number lo.now) (plain_term part.now) ∷ spec.at_most (plain_term part.now) (number hi.now) ∷ []) (plain_term part.now)) }
{
    match both_bounds(alloc, lo, hi, part) {
        Ok(conditions) => under(alloc, conditions, part),
        Err(_) => Err(Why::Memory),
    }
}

fn both_bounds(alloc: Global, lo: &i64, hi: &i64, part: &Term) -> Result<Terms, Memory>
    ensures { IfOk result (λ ts. ts ≡ spec.at_most (number lo.now) (plain_term part.now) ∷ spec.at_most (plain_term part.now) (number hi.now) ∷ []) }
{
    let mut conditions = Terms::new(alloc);
    conditions.push(at_least(alloc, part, lo)?)?;
    conditions.push(at_most(alloc, part, hi)?)?;
    Ok(conditions)
}

fn at_least(alloc: Global, part: &Term, lo: &i64) -> Result<Term, Memory>
    ensures { IfOk result (λ t. plain_term t ≡ spec.at_most (number lo.now) (plain_term part.now)) }
{
    let mut sides = Terms::new(alloc);
    sides.push(Term::Lit(Literal::Int(*lo)))?;
    sides.push(part.copy(alloc)?)?;
    Ok(Term::App(Head::Op(Op::Number(NumberOp::Le)), sides))
}

fn at_most(alloc: Global, part: &Term, hi: &i64) -> Result<Term, Memory>
    ensures { IfOk result (λ t. plain_term t ≡ spec.at_most (plain_term part.now) (number hi.now)) }
{
    let mut sides = Terms::new(alloc);
    sides.push(part.copy(alloc)?)?;
    sides.push(Term::Lit(Literal::Int(*hi)))?;
    Ok(Term::App(Head::Op(Op::Number(NumberOp::Le)), sides))
}

/// The term below a cast to sequences.
fn from_items(
    alloc: Global,
    scope: &Scope,
    sort: &Sort,
    item: &Sort,
    bound: u32,
    part: &Term,
) -> Result<Instance, Why>
    requires { plain_sort sort.now ≡ seqs (plain_sort item.now) bound }
    ensures { InstanceGiven result (spec.uncast_from (seqs (plain_sort item.now) bound) (plain_term part.now) (sort_of scope.now.definitions.now scope.now.names (plain_term part.now))) }
{
    match sort_in(alloc, scope.definitions, scope.names.items(), part) {
        Ok(Some(found)) => from_found(alloc, sort, item, bound, &found, part),
        Ok(None) => Err(Why::NoMatch),
        Err(_) => Err(Why::Memory),
    }
}

fn from_found(
    alloc: Global,
    sort: &Sort,
    item: &Sort,
    bound: u32,
    found: &Sort,
    part: &Term,
) -> Result<Instance, Why>
    requires { plain_sort sort.now ≡ seqs (plain_sort item.now) bound }
    ensures { InstanceGiven result (spec.uncast_from (seqs (plain_sort item.now) bound) (plain_term part.now) (Ok (plain_sort found.now))) }
{
    match found {
        Sort::Seq {
            item: own,
            bound: _,
        } => if subsort(own, item) {
            shorter(alloc, bound, part)
        } else {
            Err(Why::NoMatch)
        },
        _ => if subsort(found, sort) {
            under(alloc, Terms::new(alloc), part)
        } else {
            Err(Why::NoMatch)
        },
    }
}

/// The term, provided that the sequence is not longer than the bound.
fn shorter(alloc: Global, bound: u32, part: &Term) -> Result<Instance, Why>
    ensures { InstanceGiven result (provided (spec.at_most (spec.length_of (plain_term part.now)) (number (pos bound)) ∷ []) (plain_term part.now)) }
{
    match length_bound(alloc, bound, part) {
        Ok(conditions) => under(alloc, conditions, part),
        Err(_) => Err(Why::Memory),
    }
}

fn length_bound(alloc: Global, bound: u32, part: &Term) -> Result<Terms, Memory>
    ensures { IfOk result (λ ts. ts ≡ spec.at_most (spec.length_of (plain_term part.now)) (number (pos bound)) ∷ []) }
{
    let length = length_of(alloc, part)?;
    let mut conditions = Terms::new(alloc);
    conditions.push(at_most(alloc, &length, &i64::from(bound))?)?;
    Ok(conditions)
}

fn length_of(alloc: Global, part: &Term) -> Result<Term, Memory>
    ensures { IfOk result (λ t. plain_term t ≡ spec.length_of (plain_term part.now)) }
{
    let mut args = Terms::new(alloc);
    args.push(part.copy(alloc)?)?;
    Ok(Term::App(Head::Op(Op::Seq(SeqOp::Len)), args))
}

/// The term, where its sort lies within the sort of the cast.
fn by_sorts(alloc: Global, scope: &Scope, sort: &Sort, part: &Term) -> Result<Instance, Why>
    ensures { InstanceGiven result (cond (lies_within (plain_sort sort.now) (sort_of scope.now.definitions.now scope.now.names (plain_term part.now))) (just_given (plain_term part.now)) no_match) }
{
    match is_within(alloc, scope.definitions, scope.names.items(), sort, part) {
        Ok(true) => under(alloc, Terms::new(alloc), part),
        Ok(false) => Err(Why::NoMatch),
        Err(_) => Err(Why::Memory),
    }
}

/// The term, under the conditions.
fn under(alloc: Global, conditions: Terms, part: &Term) -> Result<Instance, Why>
    ensures { InstanceGiven result (provided conditions (plain_term part.now)) }
{
    match part.copy(alloc) {
        Ok(term) => Ok(Instance {
            conditions,
            term,
            within: Within::new(alloc),
        }),
        Err(_) => Err(Why::Memory),
    }
}
