//! Terms rewritten over facts.
ghost use Rattle.std.specs.Prelude.{◌≡◌, IfOk, true};
ghost use Rattle.kid_term.specs.Sorting.{sort_of};
ghost use Rattle.kid_term.specs.TermView.{plain_term};
ghost use Rattle.kid_scope.specs.Holds.{has_a_sort};
ghost use Rattle.kid_moves.specs.RuleView.{plain_line};
ghost use Rattle.kid_kernel.specs.Key.{key};
ghost use Rattle.kid_kernel.specs.Keeping.{KeepsOver};
ghost use Rattle.kid_kernel.specs.Placed.{Rewrote, top_scope};
ghost use Rattle.kid_kernel.specs.Rules.{rewritten_by};
ghost use Rattle.kid_kernel.specs.TheoryView.{plain_theory};

use crate::concluding::rewrite_line;
use crate::facts::Facts;
use crate::theory::Theory;
use kid_moves::Line;
use kid_term::{Term, Why};
use std::alloc::Global;

/// The term with the subterm at the line's path rewritten by its rule. The theory is the one that
/// the facts were begun with, and the term has a sort over their names.
///
/// # Errors
///
/// Gives the old term back with the first refusal: `NoPath` where the path is not there;
/// `UnknownLaw` where there is no such rule, or it is an implication or a law that is no equation;
/// `NoMatch` where the subterm is no instance, the number of arguments is another, the rule has no
/// such direction, or there is no such fact; `Capture` where a name would be bound; `Condition` with
/// the number of the first condition that does not hold; `IllSorted` or `Limit` where the whole new
/// term has no sort, or a term does not lie within its variable's. And `Memory` where memory is
/// wanting.
pub fn rewrite(
    alloc: Global,
    theory: &Theory,
    facts: &Facts,
    term: Term,
    line: &Line,
) -> Result<Term, (Term, Why)>
    requires theory { key (plain_theory theory.now) ≡ facts.now.theory }
    requires sorted { has_a_sort (sort_of theory.now.signature.definitions facts.now.names (plain_term term)) ≡ true }
    ensures exact { Rewrote result (plain_term term) (rewritten_by (plain_theory theory.now) (top_scope facts.now.names facts.now.facts) (plain_line line.now) (plain_term term)) }
    // The new term has the old one's value at all good inputs where the start is true.
    ensures kept { IfOk result (λ new. KeepsOver (plain_theory theory.now) facts.now.names facts.now.start (plain_term term) (plain_term new)) }
{
    facts.follow(theory);
    rewrite_line(alloc, theory, facts.names(), facts.items(), term, line)
}
