//! The rules by their numbers.
ghost use Rattle.std.specs.Prelude.{IfOk, map};
ghost use Rattle.kid_term.specs.TermView.{plain_term};
ghost use Rattle.kid_binders.specs.Laws.{KeepsValue};
ghost use Rattle.kid_binders.specs.Outcome.{Gives, plain_bound};
ghost use Rattle.kid_binders.specs.Rules as spec;

use crate::bodies::{b8, b8_back, b9, b9_back, b10, b10_back};
use crate::bound::{Bound, RuleFault};
use crate::gathered::{b13, b14, b17, b17_back};
use crate::instances::{b4, b5, b16, b18};
use crate::naming::b1;
use crate::parted::{b6, b6_back, b7, b7_back, b12, b12_back};
use crate::settled::{b2, b3, b11, b15};
use kid_term::{Term, Terms};
use std::alloc::Global;

/// The rules that take an argument.
fn given(alloc: Global, rule: u8, arg: &Term, term: &Term) -> Result<Bound, RuleFault>
    ensures { Gives result (spec.given rule (plain_term arg.now) (plain_term term.now)) }
{
    if rule == 1 {
        b1(alloc, arg, term)
    } else if rule == 12 {
        b12(alloc, arg, term)
    } else if rule == 18 {
        b18(alloc, arg, term)
    } else {
        Err(RuleFault::NoMatch)
    }
}

/// The rules that have a direction back.
fn turned(alloc: Global, rule: u8, term: &Term) -> Result<Bound, RuleFault>
    ensures { Gives result (spec.turned rule (plain_term term.now)) }
{
    if rule == 6 {
        b6_back(alloc, term)
    } else if rule == 7 {
        b7_back(alloc, term)
    } else if rule == 8 {
        b8_back(alloc, term)
    } else if rule == 9 {
        b9_back(alloc, term)
    } else if rule == 10 {
        b10_back(alloc, term)
    } else if rule == 12 {
        b12_back(alloc, term)
    } else if rule == 17 {
        b17_back(alloc, term)
    } else {
        Err(RuleFault::NoMatch)
    }
}

/// The rules that take no argument.
fn forth(alloc: Global, rule: u8, term: &Term) -> Result<Bound, RuleFault>
    ensures { Gives result (spec.forth rule (plain_term term.now)) }
{
    match rule {
        2 => b2(alloc, term),
        3 => b3(alloc, term),
        4 => b4(alloc, term),
        5 => b5(alloc, term),
        6 => b6(alloc, term),
        7 => b7(alloc, term),
        8 => b8(alloc, term),
        9 => b9(alloc, term),
        10 => b10(alloc, term),
        11 => b11(alloc, term),
        13 => b13(alloc, term),
        14 => b14(alloc, term),
        15 => b15(alloc, term),
        16 => b16(alloc, term),
        17 => b17(alloc, term),
        _ => Err(RuleFault::NoMatch),
    }
}

#[tactic(auto, using(crate::proofs::Arguments::too_many))]
fn applied(
    alloc: Global,
    rule: u8,
    back: bool,
    term: &Term,
    args: &[Term],
) -> Result<Bound, RuleFault>
    ensures { Gives result (spec.bound_by rule back (map plain_term args.now) (plain_term term.now)) }
{
    match args {
        [] => if back {
            turned(alloc, rule, term)
        } else {
            forth(alloc, rule, term)
        },
        [arg] => if back {
            Err(RuleFault::NoMatch)
        } else {
            given(alloc, rule, arg, term)
        },
        _ => Err(RuleFault::NoMatch),
    }
}

/// What the binder rule of the number makes of the term, from right to left where `back` is true.
/// Its conditions are numbered from 1 in the order of the list.
///
/// # Errors
///
/// `NoMatch` exactly where there is no such rule or direction, the rule takes another number of
/// arguments, or the term (or for rule 1 the argument) is no instance; else `Capture`, where a name
/// that stands free would be bound; and `Memory` where memory is wanting.
#[tactic(auto, using(crate::proofs::Arguments::outcome_true))]
pub fn apply(
    alloc: Global,
    rule: u8,
    back: bool,
    term: &Term,
    args: &Terms,
) -> Result<Bound, RuleFault>
    ensures outcome { Gives result (spec.bound_by rule back args.now (plain_term term.now)) }
    // Where both terms have a sort and the conditions are true, the new term has the old one's value.
    ensures value { IfOk result (λ b. KeepsValue (plain_term term.now) (plain_bound b)) }
{
    applied(alloc, rule, back, term, args.items())
}
