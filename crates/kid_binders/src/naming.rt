//! A binder under another name: b1.
ghost use Rattle.std.specs.Prelude.{◌≡◌, IfOk, Ok};
ghost use Rattle.kid_term.specs.Renaming.{renamed};
ghost use Rattle.kid_term.specs.TermView.{plain_term};
ghost use Rattle.kid_binders.specs.Naming as spec;
ghost use Rattle.kid_binders.specs.Outcome.{Gives};

use crate::bound::{Bound, RuleFault};
use crate::build::made;
use kid_term::Term;
use kid_value::{Memory, Text};
use std::alloc::Global;

fn with_name(alloc: Global, y: &Text, term: &Term) -> Result<Term, Memory>
    ensures { IfOk result (λ t. renamed y.now (plain_term term.now) ≡ Ok (plain_term t)) }
{
    let name = y.copy(alloc)?;
    let copy = term.copy(alloc)?;
    match copy.rename(alloc, name) {
        Ok(new) => Ok(new),
        Err(_) => Err(Memory),
    }
}

fn b1_of(alloc: Global, y: &Text, term: &Term) -> Result<Bound, RuleFault>
    ensures { Gives result (spec.of_renamed (renamed y.now (plain_term term.now))) }
{
    match term {
        Term::Bind(_, _, _, body) => if body.get().mentions(y) || body.get().binds(y) {
            Err(RuleFault::Capture)
        } else {
            match with_name(alloc, y, term) {
                Ok(new) => Ok(made(alloc, new)),
                Err(_) => Err(RuleFault::Memory),
            }
        },
        _ => Err(RuleFault::NoMatch),
    }
}

pub(crate) fn b1(alloc: Global, arg: &Term, term: &Term) -> Result<Bound, RuleFault>
    ensures { Gives result (spec.b1 (plain_term arg.now) (plain_term term.now)) }
{
    match arg {
        Term::Var(y) => b1_of(alloc, y, term),
        _ => Err(RuleFault::NoMatch),
    }
}
