//! The conditions of an instance.
ghost use Rattle.std.specs.Prelude.{map};
ghost use Rattle.kid_term.specs.Fitting.{AreSound};
ghost use Rattle.kid_term.specs.TermView.{plain_term};
ghost use Rattle.kid_scope.specs.Holds.{holds};
ghost use Rattle.kid_scope.specs.InstanceView.{InstanceGiven, plain_instance};
ghost use Rattle.kid_scope.specs.Rewriting.{unmet, licensed};
ghost use Rattle.kid_kernel.specs.Judging.{Judges};
ghost use Rattle.kid_kernel.specs.ScopeView.{plain_scope};

use crate::holding::holds;
use crate::scope::Scope;
use kid_scope::Instance;
use kid_term::{Term, Why};
use std::alloc::Global;

/// That each condition holds, where the first has this number.
fn are_met(alloc: Global, scope: &Scope, conditions: &[Term], number: u32) -> Result<(), Why>
    requires { AreSound scope.now.definitions.now }
    ensures { Judges result (unmet (holds scope.now.definitions.now (plain_scope scope.now)) number (map plain_term conditions.now)) }
{
    let Some((condition, rest)) = conditions.split_first() else {
        return Ok(());
    };
    match holds(alloc, scope, condition) {
        Err(_) => Err(Why::Memory),
        Ok(false) => Err(Why::Condition(number)),
        Ok(true) => match number.checked_add(1) {
            None => Err(Why::Memory),
            Some(next) => are_met(alloc, scope, rest, next),
        },
    }
}

/// The instance, where its conditions hold.
///
/// # Errors
///
/// `Condition` with the number of the first condition that does not hold, counted from 1, and
/// `Memory` where memory is wanting.
pub(crate) fn licensed(alloc: Global, scope: &Scope, new: Instance) -> Result<Instance, Why>
    requires { AreSound scope.now.definitions.now }
    ensures { InstanceGiven result (licensed scope.now.definitions.now (plain_scope scope.now) (plain_instance new)) }
{
    match are_met(alloc, scope, new.conditions.items(), 1) {
        Ok(()) => Ok(new),
        Err(why) => Err(why),
    }
}
