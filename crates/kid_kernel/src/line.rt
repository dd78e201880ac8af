//! What the rule of a line makes of a term.
ghost use Rattle.kid_term.specs.TermView.{plain_term};
ghost use Rattle.kid_scope.specs.InstanceView.{InstanceGiven};
ghost use Rattle.kid_kernel.specs.Placed.{IsPlaced};
ghost use Rattle.kid_moves.specs.RuleView.{plain_rule};
ghost use Rattle.kid_kernel.specs.Rules.{rule_of};
ghost use Rattle.kid_kernel.specs.ScopeView.{plain_scope};
ghost use Rattle.kid_kernel.specs.TheoryView.{plain_theory};

use crate::by_law::by_law;
use crate::by_place::{
    by_computing, by_fact, by_failing, by_folding, by_holding, by_uncasting, by_unfolding,
};
use crate::by_table::{by_binder, by_equation};
use crate::equal::Equal;
use crate::scope::Scope;
use crate::theory::Theory;
use kid_moves::{Line, Rule};
use kid_scope::Instance;
use kid_term::{Term, Terms, Why};
use std::alloc::Global;

/// What the rule makes of the term. An implication is no rule of a line.
fn instance_by(
    alloc: Global,
    theory: &Theory,
    scope: &Scope,
    line: &Line,
    term: &Term,
) -> Result<Instance, Why>
    requires { IsPlaced (plain_theory theory.now) scope.now (plain_term term.now) }
    ensures { InstanceGiven result (rule_of (plain_rule line.now.rule) line.now.back line.now.args (plain_theory theory.now) (plain_scope scope.now) (plain_term term.now)) }
{
    let back = line.back;
    let args = &line.args;
    match &line.rule {
        Rule::Equation(n) => by_equation(alloc, *n, back, args, term),
        Rule::Implication(_) => Err(Why::UnknownLaw),
        Rule::Binder(n) => by_binder(alloc, *n, back, args, term),
        Rule::Law(name) => by_law(alloc, theory, name, back, args, term),
        Rule::Unfold => by_unfolding(alloc, theory, scope, back, args, term),
        Rule::Fold(name) => by_folding(alloc, theory, name, back, args, term),
        Rule::Compute => by_computing(alloc, theory, scope, back, args, term),
        Rule::UseFact(k) => by_fact(alloc, scope, *k, back, args, term),
        Rule::Holds => by_holding(alloc, theory, scope, back, args, term),
        Rule::Fails => by_failing(alloc, theory, scope, back, args, term),
        Rule::Uncast => by_uncasting(alloc, theory, scope, back, args, term),
    }
}

impl Equal for Line {
    ghost use Rattle.kid_moves.specs.RuleView.{plain_rule};
    ghost use Rattle.kid_kernel.specs.Rules.{rule_of};
    ghost use Rattle.kid_kernel.specs.RulesKeep.{rules_keep};

    ghost rewrites = { λ line. rule_of (plain_rule line.rule) line.back line.args };

    ghost keeps = { λ line. rules_keep (plain_rule line.rule) line.back line.args };

    fn instance(
        &self,
        alloc: Global,
        theory: &Theory,
        scope: &Scope,
        term: &Term,
    ) -> Result<Instance, Why> {
        instance_by(alloc, theory, scope, self, term)
    }
}
