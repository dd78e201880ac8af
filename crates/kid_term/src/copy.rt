//! Copies of terms.
ghost use Rattle.std.specs.Prelude.{◌≡◌, IfOk, map};
ghost use Rattle.kid_term.specs.TermView.{plain_term, plain_head, plain_literal};

use crate::{BoxedTerm, Head, Literal, Term, Terms};
use kid_value::Memory;
use std::alloc::Global;

impl Head {
    /// An equal head.
    ///
    /// # Errors
    ///
    /// Fails where memory is wanting.
    pub fn copy(&self, alloc: Global) -> Result<Head, Memory>
        ensures { IfOk result (λ h. plain_head h ≡ plain_head self.now) }
    {
        match self {
            Head::Op(op) => Ok(Head::Op(*op)),
            Head::Call(name) => Ok(Head::Call(name.copy(alloc)?)),
            Head::Cast(sort) => Ok(Head::Cast(sort.copy(alloc)?)),
        }
    }
}

impl Literal {
    /// An equal literal.
    ///
    /// # Errors
    ///
    /// Fails where memory is wanting.
    pub fn copy(&self, alloc: Global) -> Result<Literal, Memory>
        ensures { IfOk result (λ l. plain_literal l ≡ plain_literal self.now) }
    {
        match self {
            Literal::Int(n) => Ok(Literal::Int(*n)),
            Literal::Bool(b) => Ok(Literal::Bool(*b)),
            Literal::Tag(name) => Ok(Literal::Tag(name.copy(alloc)?)),
        }
    }
}

impl Term {
    /// An equal term.
    ///
    /// # Errors
    ///
    /// Fails where memory is wanting.
    #[cycle(copy)]
    pub fn copy(&self, alloc: Global) -> Result<Term, Memory>
        ensures { IfOk result (λ t. plain_term t ≡ plain_term self.now) }
    {
        match self {
            Term::Var(x) => Ok(Term::Var(x.copy(alloc)?)),
            Term::Lit(l) => Ok(Term::Lit(l.copy(alloc)?)),
            Term::App(head, args) => {
                let head = head.copy(alloc)?;
                let items = copy_all(alloc, &args.items)?;
                Ok(Term::App(head, Terms { items }))
            }
            Term::Bind(binder, x, set, body) => {
                let name = x.copy(alloc)?;
                let set = set.inner.copy(alloc)?;
                let body = body.inner.copy(alloc)?;
                Ok(Term::Bind(
                    *binder,
                    name,
                    BoxedTerm {
                        inner: Box::new(alloc, set)?,
                    },
                    BoxedTerm {
                        inner: Box::new(alloc, body)?,
                    },
                ))
            }
        }
    }
}

#[cycle(copy)]
fn copy_all(alloc: Global, terms: &[Term]) -> Result<Vec<Term>, Memory>
    ensures { IfOk result (λ v. map plain_term v.items ≡ map plain_term terms.now) }
{
    let mut copies = Vec::new(alloc);
    for t in terms {
        copies.push(t.copy(alloc)?)?;
    }
    Ok(copies)
}
