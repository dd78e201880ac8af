//! Another name for a binder.
ghost use Rattle.std.specs.Prelude.{◌≡◌, IfOk, IfErr, map};
ghost use Rattle.kid_term.specs.TermView.{plain_term};
ghost use Rattle.kid_term.specs.PlainTerm.{term_row, var};
ghost use Rattle.kid_term.specs.Substitution.{replaced};
ghost use Rattle.kid_term.specs.Eval.{Env, Calls, eval};
ghost use Rattle.kid_term.specs.Renaming as spec;

use crate::substitute::is_same;
use crate::{BoxedTerm, Term};
use kid_value::{Memory, Text};
use std::alloc::Global;
use thiserror::Error;

/// Why a binder keeps its name.
#[derive(Clone, Copy, Debug, PartialEq, Eq, Error)]
pub enum RenameFault {
    /// The term is no binder.
    #[error("the term is no binder")]
    NoBinder,
    /// The new name stands in the body, free or bound.
    #[error("a name would be captured")]
    Capture,
    #[error("out of memory")]
    Memory,
}

impl Term {
    /// Whether a binder in the term has the name. Takes no memory.
    #[cycle(binds)]
    pub fn binds(&self, x: &Text) -> bool
        ensures { result ≡ spec.binds x.now (plain_term self.now) }
    {
        match self {
            Term::Var(_) | Term::Lit(_) => false,
            Term::App(_, args) => some_bind(&args.items, x),
            Term::Bind(_, y, set, body) => is_same(x, y)
                || set.inner.binds(x)
                || body.inner.binds(x),
        }
    }

    /// The binder with another name, and the name's places in its body with it.
    ///
    /// # Errors
    ///
    /// Gives the term back with `NoBinder` where it is no binder, with `Capture` where the new
    /// name stands in its body, free or bound, and with `Memory` where memory is wanting.
    pub fn rename(self, alloc: Global, to: Text) -> Result<Term, (Term, RenameFault)>
        ensures renamed { IfOk result (λ t. spec.renamed to (plain_term self) ≡ Ok (plain_term t)) }
        ensures same { IfErr result (λ p. plain_term p.0 ≡ plain_term self) }
        ensures refused { IfErr result (λ p. spec.IsRefusalOf (spec.renamed to (plain_term self)) p.1) }
        // The term keeps its value.
        ensures value { IfOk result (λ t. (calls : Calls) (env : Env) → eval calls env (plain_term t) ≡ eval calls env (plain_term self)) }
    {
        self.renamed(alloc, to)
    }

    fn renamed(self, alloc: Global, to: Text) -> Result<Term, (Term, RenameFault)>
        ensures renamed { IfOk result (λ t. spec.renamed to (plain_term self) ≡ Ok (plain_term t)) }
        ensures same { IfErr result (λ p. plain_term p.0 ≡ plain_term self) }
        ensures refused { IfErr result (λ p. spec.IsRefusalOf (spec.renamed to (plain_term self)) p.1) }
    {
        match self {
            Term::Bind(binder, x, set, body) => {
                if body.inner.mentions(&to) || body.inner.binds(&to) {
                    return Err((Term::Bind(binder, x, set, body), RenameFault::Capture));
                }
                match renamed_body(alloc, &x, &to, &body) {
                    Ok(made) => Ok(Term::Bind(binder, to, set, made)),
                    Err(_) => Err((Term::Bind(binder, x, set, body), RenameFault::Memory)),
                }
            }
            other => Err((other, RenameFault::NoBinder)),
        }
    }
}

/// The body with the new name in each free place of the old one.
fn renamed_body(alloc: Global, x: &Text, to: &Text, body: &BoxedTerm) -> Result<BoxedTerm, Memory>
    ensures { IfOk result (λ b. b ≡ replaced x.now (var to.now) body.now) }
{
    let name = to.copy(alloc)?;
    let made = body.inner.replaced(alloc, x, &Term::Var(name))?;
    BoxedTerm::new(alloc, made)
}

#[cycle(binds)]
fn some_bind(terms: &[Term], x: &Text) -> bool
    ensures { result ≡ spec.some_bind x.now (term_row (map plain_term terms.now)) }
{
    for t in terms {
        if t.binds(x) {
            return true;
        }
    }
    false
}
