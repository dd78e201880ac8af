//! Binders over the empty set, and one whose body is true: b2, b3, b11 and b15.
ghost use Rattle.kid_term.specs.TermView.{plain_term};
ghost use Rattle.kid_binders.specs.Outcome.{Gives};
ghost use Rattle.kid_binders.specs.Settled as spec;

use crate::bound::{Bound, RuleFault};
use crate::build::made;
use crate::shape::{is_empty, is_true};
use kid_term::{Binder, Literal, Term};
use std::alloc::Global;

pub(crate) fn b2(alloc: Global, term: &Term) -> Result<Bound, RuleFault>
    ensures { Gives result (spec.b2 (plain_term term.now)) }
{
    match term {
        Term::Bind(Binder::All, _, s, _) => if is_empty(s.get()) {
            Ok(made(alloc, Term::Lit(Literal::Bool(true))))
        } else {
            Err(RuleFault::NoMatch)
        },
        _ => Err(RuleFault::NoMatch),
    }
}

pub(crate) fn b3(alloc: Global, term: &Term) -> Result<Bound, RuleFault>
    ensures { Gives result (spec.b3 (plain_term term.now)) }
{
    match term {
        Term::Bind(Binder::Some, _, s, _) => if is_empty(s.get()) {
            Ok(made(alloc, Term::Lit(Literal::Bool(false))))
        } else {
            Err(RuleFault::NoMatch)
        },
        _ => Err(RuleFault::NoMatch),
    }
}

pub(crate) fn b11(alloc: Global, term: &Term) -> Result<Bound, RuleFault>
    ensures { Gives result (spec.b11 (plain_term term.now)) }
{
    match term {
        Term::Bind(Binder::All, _, _, p) => if is_true(p.get()) {
            Ok(made(alloc, Term::Lit(Literal::Bool(true))))
        } else {
            Err(RuleFault::NoMatch)
        },
        _ => Err(RuleFault::NoMatch),
    }
}

pub(crate) fn b15(alloc: Global, term: &Term) -> Result<Bound, RuleFault>
    ensures { Gives result (spec.b15 (plain_term term.now)) }
{
    match term {
        Term::Bind(Binder::SumOf, _, s, _) => if is_empty(s.get()) {
            Ok(made(alloc, Term::Lit(Literal::Int(0))))
        } else {
            Err(RuleFault::NoMatch)
        },
        _ => Err(RuleFault::NoMatch),
    }
}
