//! What the laws and the axioms of a theory make of terms.
ghost use Rattle.std.specs.Prelude.{◌≡◌, ◌++◌, IfOk, map, length};
ghost use Rattle.kid_value.specs.NameView.{plain_name};
ghost use Rattle.kid_laws.specs.Applied.{matched_terms};
ghost use Rattle.kid_term.specs.Simultaneous.{substituted};
ghost use Rattle.kid_term.specs.TermView.{plain_term};
ghost use Rattle.kid_scope.specs.InstanceView.{InstanceGiven, plain_instance};
ghost use Rattle.kid_scope.specs.LawInstances.{sorts_for};
ghost use Rattle.kid_scope.specs.LawRules as spec;
ghost use Rattle.kid_scope.specs.Unfolding.{paired};
ghost use Rattle.kid_kernel.specs.LawView.{plain_conclusion};
ghost use Rattle.kid_kernel.specs.StatedView.{plain_stated};

use crate::law::Conclusion;
use crate::stated::{Stated, find_law};
use crate::theory::Theory;
use kid_laws::matched_terms;
use kid_scope::{Instance, Within, paired};
use kid_term::{Subst, Term, Terms, Why};
use kid_value::{Memory, Sort, Text, Texts};
use std::alloc::Global;

fn names_of(alloc: Global, variables: &[(Text, Sort)]) -> Result<Texts, Memory>
    ensures { IfOk result (λ xs. xs ≡ spec.names_of (map plain_name variables.now)) }
{
    let mut names = Texts::new(alloc);
    for variable in variables {
        names.push(variable.0.copy(alloc)?)?;
    }
    Ok(names)
}

/// Whether a name of a term would be bound in one of these.
fn some_bound(pairs: &Subst, terms: &[Term]) -> bool
    ensures { result ≡ spec.some_bound pairs.now (map plain_term terms.now) }
{
    for term in terms {
        if term.captures_any(pairs) {
            return true;
        }
    }
    false
}

/// The term with the pairs' terms put in, none of whose names would be bound.
fn put_in(alloc: Global, pairs: &Subst, term: &Term) -> Result<Term, Memory>
    ensures { IfOk result (λ t. plain_term t ≡ substituted pairs.now (plain_term term.now)) }
{
    match term.substitute_all(alloc, pairs) {
        Ok(new) => Ok(new),
        Err(_) => Err(Memory),
    }
}

/// Each of the terms with the pairs' terms put in.
fn put_in_each(alloc: Global, pairs: &Subst, terms: &[Term]) -> Result<Terms, Memory>
    ensures { IfOk result (λ ts. ts ≡ map (substituted pairs.now) (map plain_term terms.now)) }
{
    let mut put = Terms::new(alloc);
    for term in terms {
        put.push(put_in(alloc, pairs, term)?)?;
    }
    Ok(put)
}

/// Each term with the sort of its variable.
fn sorts_for(alloc: Global, variables: &[(Text, Sort)], terms: &[Term]) -> Result<Within, Memory>
    requires { length terms.now ≡ length variables.now }
    ensures { IfOk result (λ w. w ≡ sorts_for (map plain_name variables.now) (map plain_term terms.now)) }
{
    let mut within = Within::new(alloc);
    for (i, term) in terms.iter().enumerate() {
        within.push(term.copy(alloc)?, variables[i].1.copy(alloc)?)?;
    }
    Ok(within)
}

fn put_together(
    alloc: Global,
    law: &Stated,
    pairs: &Subst,
    terms: &[Term],
    new: &Term,
) -> Result<Instance, Memory>
    requires { length terms.now ≡ length law.now.variables.now }
    ensures { IfOk result (λ n. plain_instance n ≡ record {
      conditions = map (substituted pairs.now) law.now.conditions.now;
      term = substituted pairs.now (plain_term new.now);
      within = sorts_for law.now.variables.now (map plain_term terms.now);
    }) }
{
    let conditions = put_in_each(alloc, pairs, law.conditions.items())?;
    let term = put_in(alloc, pairs, new)?;
    let within = sorts_for(alloc, law.variables.items(), terms)?;
    Ok(Instance {
        conditions,
        term,
        within,
    })
}

/// The conditions of the law and the term with the pairs' terms put in.
fn instance_of(
    alloc: Global,
    law: &Stated,
    pairs: &Subst,
    terms: &[Term],
    new: &Term,
) -> Result<Instance, Why>
    requires counted { length terms.now ≡ length law.now.variables.now }
    requires pairs { pairs.now ≡ paired law.now.variables.now (map plain_term terms.now) }
    ensures { InstanceGiven result (spec.put_in law.now.variables.now (map plain_term terms.now) law.now.conditions.now (plain_term new.now)) }
{
    if new.captures_any(pairs) || some_bound(pairs, law.conditions.items()) {
        return Err(Why::Capture);
    }
    match put_together(alloc, law, pairs, terms, new) {
        Ok(instance) => Ok(instance),
        Err(_) => Err(Why::Memory),
    }
}

/// The conditions of the law and the term with a term for each variable put in.
fn filled(alloc: Global, law: &Stated, terms: &[Term], new: &Term) -> Result<Instance, Why>
    requires { length terms.now ≡ length law.now.variables.now }
    ensures { InstanceGiven result (spec.put_in law.now.variables.now (map plain_term terms.now) law.now.conditions.now (plain_term new.now)) }
{
    match paired(alloc, law.variables.items(), terms) {
        Ok(pairs) => instance_of(alloc, law, &pairs, terms, new),
        Err(_) => Err(Why::Memory),
    }
}

/// A term for each variable, by which the side is the term.
fn terms_for(
    alloc: Global,
    variables: &[(Text, Sort)],
    side: &Term,
    args: &[Term],
    term: &Term,
) -> Result<Option<Terms>, Memory>
    ensures { IfOk result (λ o. o ≡ matched_terms (spec.names_of (map plain_name variables.now)) (plain_term side.now) (map plain_term args.now) (plain_term term.now)) }
{
    let names = names_of(alloc, variables)?;
    matched_terms(alloc, &names, side, args, term)
}

/// The instance of the law by which the first side is the term.
#[tactic(auto, using(crate::proofs::StatedLemmas::as_many))]
fn by_sides(
    alloc: Global,
    law: &Stated,
    from: &Term,
    to: &Term,
    args: &Terms,
    term: &Term,
) -> Result<Instance, Why>
    ensures { InstanceGiven result (spec.by_sides matched_terms (plain_stated law.now) (plain_term from.now) (plain_term to.now) args.now (plain_term term.now)) }
{
    match terms_for(alloc, law.variables.items(), from, args.items(), term) {
        Err(_) => Err(Why::Memory),
        Ok(None) => Err(Why::NoMatch),
        Ok(Some(terms)) => filled(alloc, law, terms.items(), to),
    }
}

fn by_conclusion(
    alloc: Global,
    law: &Stated,
    back: bool,
    args: &Terms,
    term: &Term,
) -> Result<Instance, Why>
    ensures { InstanceGiven result (spec.by_conclusion matched_terms back (plain_stated law.now) (plain_conclusion law.now.conclusion.now) args.now (plain_term term.now)) }
{
    match law.conclusion {
        Conclusion::Holds(_) => Err(Why::UnknownLaw),
        Conclusion::Equal(left, right) => if back {
            by_sides(alloc, law, right, left, args, term)
        } else {
            by_sides(alloc, law, left, right, args, term)
        },
    }
}

/// What the equation of the name makes of the term.
pub(crate) fn by_law(
    alloc: Global,
    theory: &Theory,
    name: &Text,
    back: bool,
    args: &Terms,
    term: &Term,
) -> Result<Instance, Why>
    ensures { InstanceGiven result (spec.by_named matched_terms back (spec.law_named name.now (theory.now.laws ++ theory.now.axioms)) args.now (plain_term term.now)) }
{
    match find_law(theory, name) {
        None => Err(Why::UnknownLaw),
        Some(law) => by_conclusion(alloc, &law, back, args, term),
    }
}

fn concluded_of(alloc: Global, law: &Stated, terms: &Terms) -> Result<Instance, Why>
    ensures { InstanceGiven result (spec.concluded_of (plain_stated law.now) (plain_conclusion law.now.conclusion.now) terms.now) }
{
    match law.conclusion {
        Conclusion::Equal(..) => Err(Why::UnknownLaw),
        Conclusion::Holds(condition) => {
            if terms.items().len() != law.variables.items().len() {
                return Err(Why::NoMatch);
            }
            filled(alloc, law, terms.items(), condition)
        }
    }
}

/// What the law of the name concludes of a term for each of its variables.
pub(crate) fn law_conclusion(
    alloc: Global,
    theory: &Theory,
    name: &Text,
    terms: &Terms,
) -> Result<Instance, Why>
    ensures { InstanceGiven result (spec.concluded_named (spec.law_named name.now (theory.now.laws ++ theory.now.axioms)) terms.now) }
{
    match find_law(theory, name) {
        None => Err(Why::UnknownLaw),
        Some(law) => concluded_of(alloc, &law, terms),
    }
}
