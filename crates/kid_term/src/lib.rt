//! Terms.
#![tactic(auto)]

ghost use Rattle.std.specs.Prelude.{◌≡◌, ◌∷◌, ◌++◌, [], IfOk, OnOk, OnErr, map, length};
ghost use Rattle.kid_term.specs.TermView.{plain_term};

use kid_value::{Memory, Sort, Text};
use std::alloc::Global;
use std::marker::Model;

pub mod call_depth;
mod closed;
mod copy;
pub mod definition;
mod equality;
pub mod law;
pub mod names;
pub mod operator;
pub mod path;
mod place;
mod quotation;
mod refine_form;
pub mod rename;
mod size;
mod spec;
mod subst;
pub mod substitute;
mod substitute_all;
mod why;
mod word;

pub use call_depth::{CallDepths, MAX_CALL_DEPTH};
pub use definition::{Def, Defs};
pub use equality::same;
pub use operator::{Binder, LogicOp, MapOp, NumberOp, Op, PairOp, SeqOp, SetOp, WordOp};
pub use path::Path;
pub use quotation::quote;
pub use refine_form::RefineForm;
pub use rename::RenameFault;
pub use spec::Spec;
pub use subst::Subst;
pub use substitute::SubstFault;
pub use why::Why;

/// A number, a truth value, or the name that is a tag.
#[derive(Debug, Drop)]
pub enum Literal {
    Int(i64),
    Bool(bool),
    Tag(Text),
}

/// What is applied: an operator, a definition by its name, or a cast to a sort.
#[derive(Drop)]
pub enum Head {
    Op(Op),
    Call(Text),
    Cast(Sort),
}

/// A term: a name, a literal, an application, or a binder with its name, its set and its body.
#[cycle(term)]
#[derive(Drop)]
pub enum Term {
    Var(Text),
    Lit(Literal),
    App(Head, Terms),
    Bind(Binder, Text, BoxedTerm, BoxedTerm),
}

/// A term in a box of its own.
#[cycle(term)]
#[derive(Drop)]
pub struct BoxedTerm {
    inner: Box<Term>,
}

/// Terms in a row.
#[cycle(term)]
#[derive(Drop)]
pub struct Terms {
    items: Vec<Term>,
}

impl Model for BoxedTerm {
    ghost use Rattle.kid_term.specs.PlainTerm.{PlainTerm, depth};
    ghost use Rattle.kid_term.specs.TermCode.{coded_term};

    ghost Value = { PlainTerm };

    ghost coded = { coded_term };

    ghost use Rattle.kid_term.specs.TermView.{plain_term};

    ghost view = { λ t. plain_term t.inner.value };

    ghost size = { depth };

    ghost use Rattle.kid_term.specs.TermFalls.{deep-le-depth};
    ghost use Rattle.std.proofs.Common.{arith};

    ghost size_decreases = { λ a h. omega (arith, deep-le-depth a.inner.value) };
}

impl Model for Terms {
    ghost use Rattle.std.specs.Prelude.{List, map};
    ghost use Rattle.kid_term.specs.PlainTerm.{PlainTerm};
    ghost use Rattle.kid_term.specs.TermCode.{coded_terms, list_depth};

    ghost Value = { List PlainTerm };

    ghost coded = { coded_terms };

    ghost use Rattle.kid_term.specs.TermView.{plain_term};

    ghost view = { λ t. map plain_term t.items.items };

    ghost size = { list_depth };

    ghost use Rattle.kid_term.specs.TermFalls.{most_le-depths};
    ghost use Rattle.std.proofs.Common.{arith};

    ghost size_decreases = { λ a h. omega (arith, most_le-depths a.items.items) };
}

impl BoxedTerm {
    /// The term in a box of its own.
    ///
    /// # Errors
    ///
    /// Fails where memory is wanting.
    pub fn new(alloc: Global, term: Term) -> Result<BoxedTerm, Memory>
        ensures { IfOk result (λ b. b ≡ plain_term term) }
    {
        Ok(BoxedTerm {
            inner: Box::new(alloc, term)?,
        })
    }

    /// The term in the box.
    pub fn get(&self) -> &Term
        ensures { plain_term result.now ≡ self.now }
    {
        &self.inner
    }
}

impl Terms {
    /// No terms. Takes no memory.
    pub fn new(alloc: Global) -> Terms
        ensures { result ≡ [] }
    {
        Terms {
            items: Vec::new(alloc),
        }
    }

    /// These terms. Takes no memory.
    pub fn from_vec(terms: Vec<Term>) -> Terms
        ensures { result ≡ map plain_term terms.items }
    {
        Terms { items: terms }
    }

    /// Its terms. Takes no memory.
    pub fn into_vec(self) -> Vec<Term>
        ensures { map plain_term result.items ≡ self }
    {
        self.items
    }

    /// Adds a term at the end.
    ///
    /// # Errors
    ///
    /// Fails where memory is wanting, and then changes nothing.
    pub fn push(&mut self, term: Term) -> Result<(), Memory>
        ensures ok { OnOk result (self.new ≡ self.old ++ plain_term term ∷ []) }
        ensures err { OnErr result (self.new ≡ self.old) }
    {
        self.items.push(term)?;
        Ok(())
    }

    /// How many terms there are.
    pub fn len(&self) -> usize
        ensures { result ≡ length self.now }
    {
        self.items.len()
    }

    /// The terms in their order.
    pub fn items(&self) -> &[Term]
        ensures { map plain_term result.now ≡ self.now }
    {
        self.items.as_slice()
    }
}
