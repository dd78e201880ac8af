//! Axioms, and laws with the moves of their proofs.
ghost use Rattle.std.specs.Prelude.{◌≡◌, ◌∷◌, ◌++◌, [], OnOk, OnErr, map};
ghost use Rattle.kid_kernel.specs.LawView.{plain_law, plain_axiom};
ghost use Rattle.kid_theory.specs.Claims.{law_of};
ghost use Rattle.kid_theory.specs.ClaimView.{plain_claim};

use kid_kernel::{Axiom, Law, Moves};
use kid_value::{Memory, Names, Text};
use std::alloc::Global;
use std::marker::Model;

/// What a form claims: an axiom, or a law with the moves that prove it.
#[derive(Drop)]
pub enum Claim {
    Assumed(Axiom),
    Proved(Law, Moves),
}

/// Claims in the order of their forms.
#[derive(Drop)]
pub struct Claims {
    items: Vec<Claim>,
}

impl Model for Claims {
    ghost use Rattle.std.specs.Prelude.{List, map};
    ghost use Rattle.kid_theory.specs.Claims.{PlainClaim};
    ghost use Rattle.kid_theory.specs.ClaimCode.{coded_claims};

    ghost Value = { List PlainClaim };

    ghost coded = { coded_claims };

    ghost use Rattle.kid_theory.specs.ClaimView.{plain_claim};

    ghost view = { λ c. map plain_claim c.items.items };
}

impl Claim {
    /// The name of the law or axiom.
    pub fn name(&self) -> &Text
        ensures { result.now ≡ (law_of (plain_claim self.now)).name }
    {
        match self {
            Claim::Assumed(law) => &law.name,
            Claim::Proved(law, _) => &law.name,
        }
    }

    /// Its variables with their sorts.
    pub fn variables(&self) -> &Names
        ensures { result.now ≡ (law_of (plain_claim self.now)).variables }
    {
        match self {
            Claim::Assumed(law) => &law.variables,
            Claim::Proved(law, _) => &law.variables,
        }
    }
}

impl Claims {
    /// No claims. Takes no memory.
    pub fn new(alloc: Global) -> Claims
        ensures { result ≡ [] }
    {
        Claims {
            items: Vec::new(alloc),
        }
    }

    /// Adds a claim after the others.
    ///
    /// # Errors
    ///
    /// Fails where memory is wanting, and then changes nothing.
    pub fn push(&mut self, claim: Claim) -> Result<(), Memory>
        ensures ok { OnOk result (self.new ≡ self.old ++ plain_claim claim ∷ []) }
        ensures err { OnErr result (self.new ≡ self.old) }
    {
        self.items.push(claim)?;
        Ok(())
    }

    /// The claims in their order, without copies.
    pub fn into_vec(self) -> Vec<Claim>
        ensures { map plain_claim result.items ≡ self }
    {
        self.items
    }
}
