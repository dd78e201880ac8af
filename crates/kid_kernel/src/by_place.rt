//! Rules that look at definitions, values, facts and sorts.
ghost use Rattle.std.specs.Prelude.{◌≡◌};
ghost use Rattle.kid_term.specs.TermView.{plain_term};
ghost use Rattle.kid_scope.specs.InstanceView.{InstanceGiven};
ghost use Rattle.kid_scope.specs.Settling as settling;
ghost use Rattle.kid_scope.specs.Uncasting as uncasting;
ghost use Rattle.kid_scope.specs.Unfolding as calls;
ghost use Rattle.kid_scope.specs.Using as facts;
ghost use Rattle.kid_kernel.specs.Placed.{IsPlaced};
ghost use Rattle.kid_kernel.specs.ScopeView.{plain_scope};
ghost use Rattle.kid_kernel.specs.TheoryView.{plain_theory};

use crate::arguments::forth_alone;
use crate::scope::Scope;
use crate::settling::{compute, fail, hold};
use crate::theory::Theory;
use crate::uncasting::uncast;
use kid_scope::{Instance, fold_call, unfold_call, use_fact};
use kid_term::{Term, Terms, Why};
use kid_value::Text;
use std::alloc::Global;

/// The body of the definition that the term calls.
#[tactic(auto, using(crate::proofs::ArgumentLemmas::forth_alone_said))]
pub(crate) fn by_unfolding(
    alloc: Global,
    theory: &Theory,
    scope: &Scope,
    back: bool,
    args: &Terms,
    term: &Term,
) -> Result<Instance, Why>
    requires { IsPlaced (plain_theory theory.now) scope.now (plain_term term.now) }
    ensures { InstanceGiven result (calls.unfold_call back args.now (plain_theory theory.now) (plain_scope scope.now) (plain_term term.now)) }
{
    if !forth_alone(back, args) {
        return Err(Why::NoMatch);
    }
    unfold_call(alloc, theory.signature.defs(), term)
}

/// The term of the term's value.
#[tactic(auto, using(crate::proofs::ArgumentLemmas::forth_alone_said))]
pub(crate) fn by_computing(
    alloc: Global,
    theory: &Theory,
    scope: &Scope,
    back: bool,
    args: &Terms,
    term: &Term,
) -> Result<Instance, Why>
    requires { IsPlaced (plain_theory theory.now) scope.now (plain_term term.now) }
    ensures { InstanceGiven result (settling.compute back args.now (plain_theory theory.now) (plain_scope scope.now) (plain_term term.now)) }
{
    if !forth_alone(back, args) {
        return Err(Why::NoMatch);
    }
    compute(alloc, scope, term)
}

/// True, where the term holds.
#[tactic(auto, using(crate::proofs::ArgumentLemmas::forth_alone_said))]
pub(crate) fn by_holding(
    alloc: Global,
    theory: &Theory,
    scope: &Scope,
    back: bool,
    args: &Terms,
    term: &Term,
) -> Result<Instance, Why>
    requires { IsPlaced (plain_theory theory.now) scope.now (plain_term term.now) }
    ensures { InstanceGiven result (settling.holds back args.now (plain_theory theory.now) (plain_scope scope.now) (plain_term term.now)) }
{
    if !forth_alone(back, args) {
        return Err(Why::NoMatch);
    }
    hold(alloc, scope, term)
}

/// False, where the term's negation holds.
#[tactic(auto, using(crate::proofs::ArgumentLemmas::forth_alone_said))]
pub(crate) fn by_failing(
    alloc: Global,
    theory: &Theory,
    scope: &Scope,
    back: bool,
    args: &Terms,
    term: &Term,
) -> Result<Instance, Why>
    requires { IsPlaced (plain_theory theory.now) scope.now (plain_term term.now) }
    ensures { InstanceGiven result (settling.fails back args.now (plain_theory theory.now) (plain_scope scope.now) (plain_term term.now)) }
{
    if !forth_alone(back, args) {
        return Err(Why::NoMatch);
    }
    fail(alloc, scope, term)
}

/// The term below a cast that changes nothing.
#[tactic(auto, using(crate::proofs::ArgumentLemmas::forth_alone_said))]
pub(crate) fn by_uncasting(
    alloc: Global,
    theory: &Theory,
    scope: &Scope,
    back: bool,
    args: &Terms,
    term: &Term,
) -> Result<Instance, Why>
    requires { IsPlaced (plain_theory theory.now) scope.now (plain_term term.now) }
    ensures { InstanceGiven result (uncasting.uncast back args.now (plain_theory theory.now) (plain_scope scope.now) (plain_term term.now)) }
{
    if !forth_alone(back, args) {
        return Err(Why::NoMatch);
    }
    uncast(alloc, scope, term)
}

/// The call of a definition, where the term is the body that it opens to.
pub(crate) fn by_folding(
    alloc: Global,
    theory: &Theory,
    name: &Text,
    back: bool,
    args: &Terms,
    term: &Term,
) -> Result<Instance, Why>
    ensures { InstanceGiven result (calls.fold_by name.now back args.now theory.now.signature.definitions (plain_term term.now)) }
{
    fold_call(alloc, theory.signature.defs(), name, back, args, term)
}

/// What the fact of the number makes of the term.
pub(crate) fn by_fact(
    alloc: Global,
    scope: &Scope,
    number: u32,
    back: bool,
    args: &Terms,
    term: &Term,
) -> Result<Instance, Why>
    ensures { InstanceGiven result (facts.use_alone number back args.now (plain_scope scope.now).facts (plain_term term.now)) }
{
    if !args.items().is_empty() {
        return Err(Why::NoMatch);
    }
    use_fact(alloc, scope.facts, number, back, term)
}
