//! A term after a line, and what a rule concludes of terms.
ghost use Rattle.std.specs.Prelude.{◌≡◌, IfOk, map, true};
ghost use Rattle.kid_term.specs.Fitting.{AreSound};
ghost use Rattle.kid_term.specs.Sorting.{sort_of};
ghost use Rattle.kid_term.specs.TermView.{plain_term};
ghost use Rattle.kid_scope.specs.Holds.{has_a_sort};
ghost use Rattle.kid_laws.specs.Applied as table;
ghost use Rattle.kid_scope.specs.InstanceView.{InstanceGiven, TermGiven, plain_instance};
ghost use Rattle.kid_kernel.specs.Placed.{KeepsAt, Rewrote, top_scope};
ghost use Rattle.kid_moves.specs.RuleView.{plain_line, plain_rule};
ghost use Rattle.kid_kernel.specs.Rules as spec;
ghost use Rattle.kid_kernel.specs.ScopeView.{plain_scope};
ghost use Rattle.kid_kernel.specs.TheoryView.{plain_theory};

use crate::by_law::law_conclusion;
use crate::by_table::{provided, why_of_law};
use crate::conditions::licensed;
use crate::rewriting::{may_stand, rewrite_at};
use crate::scope::Scope;
use crate::theory::Theory;
use kid_moves::{Line, Rule};
use kid_scope::Instance;
use kid_term::names::copied;
use kid_term::{Term, Terms, Why};
use kid_value::{Memory, Names};
use std::alloc::Global;

/// The term after the line, or the old one with why the line is refused.
pub(crate) fn rewrite_line(
    alloc: Global,
    theory: &Theory,
    names: &Names,
    facts: &[Term],
    term: Term,
    line: &Line,
) -> Result<Term, (Term, Why)>
    requires sound { AreSound theory.now.signature.definitions }
    requires sorted { has_a_sort (sort_of theory.now.signature.definitions names.now (plain_term term)) ≡ true }
    ensures exact { Rewrote result (plain_term term) (spec.rewritten_by (plain_theory theory.now) (top_scope names.now (map plain_term facts.now)) (plain_line line.now) (plain_term term)) }
    ensures kept { IfOk result (λ new. KeepsAt (plain_theory theory.now) (top_scope names.now (map plain_term facts.now)) (plain_term term) (plain_term new)) }
{
    rewrite_at(alloc, theory, names, facts, term, &line.path, line)
}

/// What the implication of the number concludes.
fn by_implication(alloc: Global, number: u8, terms: &Terms) -> Result<Instance, Why>
    ensures { InstanceGiven result (spec.of_law (table.concluded_by number terms.now)) }
{
    match kid_laws::conclude(alloc, number, terms.items()) {
        Ok(found) => Ok(provided(alloc, found.conditions, found.term)),
        Err(fault) => Err(why_of_law(fault)),
    }
}

/// What the rule concludes, before its conditions are looked at.
fn conclusion_by(
    alloc: Global,
    theory: &Theory,
    rule: &Rule,
    terms: &Terms,
) -> Result<Instance, Why>
    ensures { InstanceGiven result (spec.conclusion_by (plain_theory theory.now) (plain_rule rule.now) terms.now) }
{
    match rule {
        Rule::Implication(n) => by_implication(alloc, *n, terms),
        Rule::Law(name) => law_conclusion(alloc, theory, name, terms),
        _ => Err(Why::UnknownLaw),
    }
}

/// The conclusion, where its conditions hold and it may stand.
fn licensed_conclusion(
    alloc: Global,
    scope: &Scope,
    names: &Names,
    found: Instance,
) -> Result<Term, Why>
    requires { AreSound scope.now.definitions.now }
    ensures { TermGiven result (spec.kept_conclusion scope.now.definitions.now (plain_scope scope.now) names.now (plain_instance found)) }
{
    match licensed(alloc, scope, found) {
        Err(why) => Err(why),
        Ok(new) => match may_stand(alloc, scope, names, &new.within, &new.term) {
            Ok(()) => Ok(new.term),
            Err(why) => Err(why),
        },
    }
}

/// The scope of a whole term over these names and facts.
///
/// # Errors
///
/// Fails where memory is wanting.
pub(crate) fn whole_scope<'a>(
    alloc: Global,
    theory: &'a Theory,
    names: &Names,
    facts: &'a [Term],
) -> Result<Scope<'a>, Memory>
    ensures scope { IfOk result (λ s. plain_scope s ≡ top_scope names.now (map plain_term facts.now)) }
    ensures definitions { IfOk result (λ s. s.definitions.now ≡ theory.now.signature.definitions) }
{
    let names = copied(alloc, names)?;
    Ok(Scope {
        definitions: theory.signature.defs(),
        names,
        facts,
        assumed: Terms::new(alloc),
    })
}

/// What the rule concludes of these terms.
///
/// # Errors
///
/// `UnknownLaw` where there is no such rule or it is no implication, `NoMatch` where it takes
/// another number of terms, `Capture` where a name of a term would be bound, `Condition` with the
/// number of the first condition that does not hold, `IllSorted` or `Limit` where the conclusion
/// has no sort or a term does not lie within its variable's, and `Memory` where memory is wanting.
pub(crate) fn concluded(
    alloc: Global,
    theory: &Theory,
    names: &Names,
    facts: &[Term],
    rule: &Rule,
    terms: &Terms,
) -> Result<Term, Why>
    requires { AreSound theory.now.signature.definitions }
    ensures { TermGiven result (spec.concluded (plain_theory theory.now) (top_scope names.now (map plain_term facts.now)) (plain_rule rule.now) terms.now) }
{
    match conclusion_by(alloc, theory, rule, terms) {
        Err(why) => Err(why),
        Ok(found) => match whole_scope(alloc, theory, names, facts) {
            Err(_) => Err(Why::Memory),
            Ok(scope) => licensed_conclusion(alloc, &scope, names, found),
        },
    }
}
