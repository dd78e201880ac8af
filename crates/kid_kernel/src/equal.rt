//! Rules that put a term of the same value in another's place.
ghost use Rattle.kid_term.specs.TermView.{plain_term};
ghost use Rattle.kid_scope.specs.InstanceView.{InstanceGiven};
ghost use Rattle.kid_scope.specs.Rewriting.{Rule, KeepsValue};
ghost use Rattle.kid_kernel.specs.Placed.{IsPlaced};
ghost use Rattle.kid_kernel.specs.ScopeView.{plain_scope};
ghost use Rattle.kid_kernel.specs.TheoryView.{plain_theory};

use crate::scope::Scope;
use crate::theory::Theory;
use kid_scope::Instance;
use kid_term::{Term, Why};
use std::alloc::Global;

/// A rule by which a term is rewritten to one of the same value.
pub trait Equal {
    /// What the rule makes of a term in a scope, or why there is no instance.
    ghost rewrites: { Self → Rule };

    /// What the rule makes of the term.
    ///
    /// # Errors
    ///
    /// The refusal of the rule, and `Memory` where memory is wanting.
    fn instance(
        &self,
        alloc: Global,
        theory: &Theory,
        scope: &Scope,
        term: &Term,
    ) -> Result<Instance, Why>
        requires { IsPlaced (plain_theory theory.now) scope.now (plain_term term.now) }
        ensures { InstanceGiven result (rewrites self.now (plain_theory theory.now) (plain_scope scope.now) (plain_term term.now)) };

    /// The new term has the old one's value wherever what may be used there is true.
    ghost keeps: { (rule : Self) → KeepsValue (rewrites rule) };
}
