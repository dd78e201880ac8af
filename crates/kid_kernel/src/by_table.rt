//! Equations and binder rules by their numbers.
ghost use Rattle.std.specs.Prelude.{◌≡◌, Ok};
ghost use Rattle.kid_term.specs.TermView.{plain_term};
ghost use Rattle.kid_laws.specs.Applied.{applied_by};
ghost use Rattle.kid_binders.specs.Rules.{bound_by};
ghost use Rattle.kid_scope.specs.InstanceView.{InstanceGiven, plain_instance};
ghost use Rattle.kid_scope.specs.Instances as spec;
ghost use Rattle.kid_kernel.specs.Rules.{why_of_law, why_of_binder, of_law, of_binder, of_binder_number};

use kid_binders::RuleFault;
use kid_laws::ApplyFault;
use kid_scope::{Instance, Within};
use kid_term::{Term, Terms, Why};
use std::alloc::Global;

/// The new term under conditions.
pub(crate) fn provided(alloc: Global, conditions: Terms, term: Term) -> Instance
    ensures { Ok (plain_instance result) ≡ spec.provided conditions (plain_term term) }
{
    Instance {
        conditions,
        term,
        within: Within::new(alloc),
    }
}

pub(crate) fn why_of_law(fault: ApplyFault) -> Why
    ensures { result ≡ why_of_law fault }
{
    match fault {
        ApplyFault::NoLaw => Why::UnknownLaw,
        ApplyFault::NoMatch => Why::NoMatch,
        ApplyFault::Memory => Why::Memory,
    }
}

fn why_of_binder(fault: RuleFault) -> Why
    ensures { result ≡ why_of_binder fault }
{
    match fault {
        RuleFault::NoMatch => Why::NoMatch,
        RuleFault::Capture => Why::Capture,
        RuleFault::Memory => Why::Memory,
    }
}

/// What the equation of the number makes of the term.
pub(crate) fn by_equation(
    alloc: Global,
    number: u8,
    back: bool,
    args: &Terms,
    term: &Term,
) -> Result<Instance, Why>
    ensures { InstanceGiven result (of_law (applied_by number back args.now (plain_term term.now))) }
{
    match kid_laws::apply(alloc, number, back, term, args.items()) {
        Ok(found) => Ok(provided(alloc, found.conditions, found.term)),
        Err(fault) => Err(why_of_law(fault)),
    }
}

fn by_binder_rule(
    alloc: Global,
    number: u8,
    back: bool,
    args: &Terms,
    term: &Term,
) -> Result<Instance, Why>
    ensures { InstanceGiven result (of_binder (bound_by number back args.now (plain_term term.now))) }
{
    match kid_binders::apply(alloc, number, back, term, args) {
        Ok(found) => Ok(provided(alloc, found.conditions, found.term)),
        Err(fault) => Err(why_of_binder(fault)),
    }
}

/// What the binder rule of the number makes of the term.
pub(crate) fn by_binder(
    alloc: Global,
    number: u8,
    back: bool,
    args: &Terms,
    term: &Term,
) -> Result<Instance, Why>
    ensures { InstanceGiven result (of_binder_number number (bound_by number back args.now (plain_term term.now))) }
{
    if number >= 1 && number <= 18 {
        by_binder_rule(alloc, number, back, args, term)
    } else {
        Err(Why::UnknownLaw)
    }
}
