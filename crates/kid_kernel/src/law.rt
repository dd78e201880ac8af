//! Laws, which are proved, and axioms, which are not.
ghost use Rattle.std.specs.Prelude.{◌≡◌, ◌∷◌, ◌++◌, [], OnOk, OnErr, map};
ghost use Rattle.kid_kernel.specs.LawView.{plain_law, plain_axiom};

use kid_term::{Term, Terms};
use kid_value::{Memory, Names, Text};
use std::alloc::Global;
use std::marker::Model;

/// What a law says where its conditions are true: two terms have the same value, or one is true.
#[derive(Drop)]
pub enum Conclusion {
    Equal(Term, Term),
    Holds(Term),
}

/// A law over the inputs and its variables, for which there is a proof.
#[derive(Drop)]
pub struct Law {
    pub name: Text,
    pub variables: Names,
    pub conditions: Terms,
    pub conclusion: Conclusion,
}

/// A law over the inputs and its variables that is taken as true.
#[derive(Drop)]
pub struct Axiom {
    pub name: Text,
    pub variables: Names,
    pub conditions: Terms,
    pub conclusion: Conclusion,
}

/// Laws in the order in which they were declared.
#[derive(Drop)]
pub struct Laws {
    items: Vec<Law>,
}

/// Axioms in the order in which they were declared.
#[derive(Drop)]
pub struct Axioms {
    items: Vec<Axiom>,
}

impl Model for Laws {
    ghost use Rattle.std.specs.Prelude.{List, map};
    ghost use Rattle.kid_term.specs.PlainLaw.{PlainLaw};
    ghost use Rattle.kid_kernel.specs.LawCode.{coded_laws};

    ghost Value = { List PlainLaw };

    ghost coded = { coded_laws };

    ghost use Rattle.kid_kernel.specs.LawView.{plain_law};

    ghost view = { λ l. map plain_law l.items.items };
}

impl Model for Axioms {
    ghost use Rattle.std.specs.Prelude.{List, map};
    ghost use Rattle.kid_term.specs.PlainLaw.{PlainLaw};
    ghost use Rattle.kid_kernel.specs.LawCode.{coded_laws};

    ghost Value = { List PlainLaw };

    ghost coded = { coded_laws };

    ghost use Rattle.kid_kernel.specs.LawView.{plain_axiom};

    ghost view = { λ a. map plain_axiom a.items.items };
}

impl Laws {
    /// No laws. Takes no memory.
    pub fn new(alloc: Global) -> Laws
        ensures { result ≡ [] }
    {
        Laws {
            items: Vec::new(alloc),
        }
    }

    /// Adds a law after the others.
    ///
    /// # Errors
    ///
    /// Fails where memory is wanting, and then changes nothing.
    pub fn push(&mut self, law: Law) -> Result<(), Memory>
        ensures ok { OnOk result (self.new ≡ self.old ++ plain_law law ∷ []) }
        ensures err { OnErr result (self.new ≡ self.old) }
    {
        self.items.push(law)?;
        Ok(())
    }

    /// The laws in their order.
    pub fn items(&self) -> &[Law]
        ensures { map plain_law result.now ≡ self.now }
    {
        self.items.as_slice()
    }
}

impl Axioms {
    /// No axioms. Takes no memory.
    pub fn new(alloc: Global) -> Axioms
        ensures { result ≡ [] }
    {
        Axioms {
            items: Vec::new(alloc),
        }
    }

    /// Adds an axiom after the others.
    ///
    /// # Errors
    ///
    /// Fails where memory is wanting, and then changes nothing.
    pub fn push(&mut self, assumed: Axiom) -> Result<(), Memory>
        ensures ok { OnOk result (self.new ≡ self.old ++ plain_axiom assumed ∷ []) }
        ensures err { OnErr result (self.new ≡ self.old) }
    {
        self.items.push(assumed)?;
        Ok(())
    }

    /// The axioms in their order.
    pub fn items(&self) -> &[Axiom]
        ensures { map plain_axiom result.now ≡ self.now }
    {
        self.items.as_slice()
    }
}
