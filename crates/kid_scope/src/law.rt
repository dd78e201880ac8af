//! Laws of scopes and rewritings, each the contract of a function that does nothing.
ghost use Rattle.kid_scope.specs.Examples.{ScopeExamples, RewritingExamples};
ghost use Rattle.kid_scope.specs.RuleExamples.{RuleExamples};
ghost use Rattle.kid_scope.specs.LawInstances.{LawsOfTheoriesHold};
ghost use Rattle.kid_scope.specs.Laws.{HeldAreTrue, LawRulesKeepValues, PlaceRulesKeepValues, RewritingsKeepValues, TermwiseRulesKeepValues};

/// A condition that holds is true wherever what may be used is true.
pub fn held_are_true()
    ensures { HeldAreTrue }
{}

/// A term that is rewritten by a rule that keeps the value has the value of the old one wherever
/// the scope is met.
pub fn rewritings_keep_values()
    ensures { RewritingsKeepValues }
{}

/// The rules for calls, values, facts and casts keep the value, in each direction.
pub fn place_rules_keep_values()
    ensures { PlaceRulesKeepValues }
{}

/// A rule that looks at the term alone keeps the value in each scope, where it does so in each
/// environment that fits.
pub fn termwise_rules_keep_values()
    ensures { TermwiseRulesKeepValues }
{}

/// What a law or an axiom of a theory says is true of the terms that are put in for its variables,
/// where these have the variables' sorts and the conditions are true.
pub fn laws_of_theories_hold()
    ensures { LawsOfTheoriesHold }
{}

/// The rules by laws and axioms of a theory keep the value, and what such a law concludes of terms
/// is true.
pub fn law_rules_keep_values()
    ensures { LawRulesKeepValues }
{}

/// Scopes and conditions by example.
pub fn scopes_by_example()
    ensures { ScopeExamples }
{}

/// Rewritings by example, and their refusals in order.
pub fn rewritings_by_example()
    ensures { RewritingExamples }
{}

/// The rules for calls, values, facts and casts by example.
pub fn place_rules_by_example()
    ensures { RuleExamples }
{}
