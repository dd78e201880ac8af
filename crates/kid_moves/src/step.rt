//! The moves of a proof.
ghost use Rattle.std.specs.Prelude.{◌≡◌, ◌∷◌, ◌++◌, [], OnOk, OnErr, map};
ghost use Rattle.kid_moves.specs.MoveView.{plain_move};

use crate::rule::{Lines, Rule};
use kid_term::Terms;
use kid_value::Memory;
use std::alloc::Global;
use std::marker::Model;

/// A step that adds one fact: a part of a conjunction, the conjunction of two facts, a fact again,
/// what a rule concludes of terms, or a fact after some rewritings. Facts are told by their
/// numbers, counted from 1.
#[derive(Drop)]
pub enum Move {
    Left(u32),
    Right(u32),
    Join(u32, u32),
    Again(u32),
    Have(Rule, Terms),
    Copy(u32, Lines),
}

/// Moves in the order in which they add facts.
#[derive(Drop)]
pub struct Moves {
    items: Vec<Move>,
}

impl Model for Moves {
    ghost use Rattle.std.specs.Prelude.{List, map};
    ghost use Rattle.kid_moves.specs.PlainRule.{PlainMove};
    ghost use Rattle.kid_moves.specs.RuleCode.{coded_moves};

    ghost Value = { List PlainMove };

    ghost coded = { coded_moves };

    ghost use Rattle.kid_moves.specs.MoveView.{plain_move};

    ghost view = { λ m. map plain_move m.items.items };
}

impl Moves {
    /// No moves. Takes no memory.
    pub fn new(alloc: Global) -> Moves
        ensures { result ≡ [] }
    {
        Moves {
            items: Vec::new(alloc),
        }
    }

    /// Adds a move after the others.
    ///
    /// # Errors
    ///
    /// Fails where memory is wanting, and then changes nothing.
    pub fn push(&mut self, step: Move) -> Result<(), Memory>
        ensures ok { OnOk result (self.new ≡ self.old ++ plain_move step ∷ []) }
        ensures err { OnErr result (self.new ≡ self.old) }
    {
        self.items.push(step)?;
        Ok(())
    }

    /// The moves in their order.
    pub fn items(&self) -> &[Move]
        ensures { map plain_move result.now ≡ self.now }
    {
        self.items.as_slice()
    }
}
