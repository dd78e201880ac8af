//! Rules, and the lines of a rewriting.
ghost use Rattle.std.specs.Prelude.{◌≡◌, ◌∷◌, ◌++◌, [], OnOk, OnErr, map};
ghost use Rattle.kid_moves.specs.RuleView.{plain_line};

use kid_term::{Path, Terms};
use kid_value::{Memory, Text};
use std::alloc::Global;
use std::marker::Model;

/// A rule: an equation, an implication or a binder rule by its number, a law of the theory by its
/// name, a call of a definition opened or closed, the value of a term, a fact by its number, a
/// condition that holds or fails, or a cast that changes nothing.
#[derive(Drop)]
pub enum Rule {
    Equation(u8),
    Implication(u8),
    Binder(u8),
    Law(Text),
    Unfold,
    Fold(Text),
    Compute,
    UseFact(u32),
    Holds,
    Fails,
    Uncast,
}

/// A rewriting of the subterm at a path by a rule, from right to left where `back` is true, with
/// terms for the variables that the subterm leaves open.
#[derive(Drop)]
pub struct Line {
    pub path: Path,
    pub back: bool,
    pub rule: Rule,
    pub args: Terms,
}

/// Lines in the order in which they rewrite.
#[derive(Drop)]
pub struct Lines {
    items: Vec<Line>,
}

impl Model for Lines {
    ghost use Rattle.std.specs.Prelude.{List, map};
    ghost use Rattle.kid_moves.specs.PlainRule.{PlainLine};
    ghost use Rattle.kid_moves.specs.RuleCode.{coded_lines};

    ghost Value = { List PlainLine };

    ghost coded = { coded_lines };

    ghost use Rattle.kid_moves.specs.RuleView.{plain_line};

    ghost view = { λ l. map plain_line l.items.items };
}

impl Lines {
    /// No lines. Takes no memory.
    pub fn new(alloc: Global) -> Lines
        ensures { result ≡ [] }
    {
        Lines {
            items: Vec::new(alloc),
        }
    }

    /// Adds a line after the others.
    ///
    /// # Errors
    ///
    /// Fails where memory is wanting, and then changes nothing.
    pub fn push(&mut self, line: Line) -> Result<(), Memory>
        ensures ok { OnOk result (self.new ≡ self.old ++ plain_line line ∷ []) }
        ensures err { OnErr result (self.new ≡ self.old) }
    {
        self.items.push(line)?;
        Ok(())
    }

    /// The lines in their order.
    pub fn items(&self) -> &[Line]
        ensures { map plain_line result.now ≡ self.now }
    {
        self.items.as_slice()
    }
}
