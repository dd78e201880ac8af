//! Facts, of which each follows from those at the start.
ghost use Rattle.std.specs.Prelude.{◌≡◌, IfOk, length, map, option_map};
ghost use Rattle.kid_term.specs.TermView.{plain_term};
ghost use Rattle.kid_scope.specs.Holds.{holds as holds_in};
ghost use Rattle.kid_scope.specs.Using.{fact_at as fact_of};
ghost use Rattle.kid_kernel.specs.FactAnswers.{Begun, Stepped};
ghost use Rattle.kid_kernel.specs.Held.{AreNames, Held};
ghost use Rattle.kid_kernel.specs.IsTheory.{IsTheory};
ghost use Rattle.kid_kernel.specs.Key.{key};
ghost use Rattle.kid_moves.specs.MoveView.{plain_move};
ghost use Rattle.kid_kernel.specs.Moves.{begun, stepped};
ghost use Rattle.kid_kernel.specs.Placed.{top_scope};
ghost use Rattle.kid_kernel.specs.TheoryView.{plain_theory};

use crate::concluding::whole_scope;
use crate::holding::holds;
use crate::moving::moved;
use crate::parts::pushed;
use crate::start::are_truths;
use crate::theory::Theory;
use boxcar::tag::{self, Tag};
use kid_moves::Move;
use kid_scope::{copied, fact_at};
use kid_term::{Term, Terms, Why, names};
use kid_value::{Memory, Names};
use std::alloc::Global;
use std::marker::Model;

/// Which theory a tag was made with.
struct OfTheory;

impl tag::Names<Theory> for OfTheory {
    ghost numbers = { λ t. key (plain_theory t) };
}

/// The theory that another tag was made with.
struct OfTag;

impl tag::Names<Tag> for OfTag {
    ghost numbers = { λ t. t.numbers };
}

/// Facts over a theory and names, numbered from 1. Those at the start are taken as true, and each
/// other one follows from them at all good inputs.
#[derive(Drop)]
pub struct Facts {
    tag: Tag,
    names: Names,
    starts: usize,
    items: Terms,
}

impl Model for Facts {
    ghost use Rattle.std.specs.Prelude.{◌≤◌, ◌<◌, ◌^◌, take, length};
    ghost use Rattle.kid_kernel.specs.PlainFacts.{PlainFacts, coded_facts};

    ghost Value = { PlainFacts };

    ghost coded = { coded_facts };

    ghost use Rattle.kid_kernel.specs.Held.{HeldOver};

    ghost view = { λ f. record { theory = f.tag.numbers; names = f.names; start = take f.starts f.items; facts = f.items } };

    ghost invariant = { λ f. HeldOver f.tag.numbers f.names (take f.starts f.items) f.items × (f.starts ≤ length f.items) × (length f.items < 2 ^ 32) };
}

impl Facts {
    /// The facts that are taken as true.
    ///
    /// # Errors
    ///
    /// Of the first term that is no truth value's: `Limit` where it is too large or too deep, and
    /// else `IllSorted`. `Memory` where memory is wanting or there are too many terms to number.
    pub fn begin(alloc: Global, theory: &Theory, names: Names, start: Terms) -> Result<Facts, Why>
        requires theory { IsTheory (plain_theory theory.now) }
        requires names { AreNames (plain_theory theory.now) names }
        ensures { Begun result (begun (key (plain_theory theory.now)) theory.now.signature.definitions names start) }
    {
        are_truths(alloc, theory, &names, start.items())?;
        let starts = start.len();
        if starts > u32::MAX as usize {
            return Err(Why::Memory);
        }
        Ok(Facts {
            tag: Tag::of::<Theory, OfTheory>(theory),
            names,
            starts,
            items: start,
        })
    }

    /// How many facts there are. Takes no memory.
    pub fn count(&self) -> u32
        ensures { result ≡ length self.now.facts }
    {
        self.items.len() as u32
    }

    /// The names. Takes no memory.
    pub fn names(&self) -> &Names
        ensures { result.now ≡ self.now.names }
    {
        &self.names
    }

    /// The facts in their order. Takes no memory.
    pub fn items(&self) -> &[Term]
        ensures { map plain_term result.now ≡ self.now.facts }
    {
        self.items.items()
    }

    /// The fact of a number, or none exactly where it is 0 or greater than the count. Takes no
    /// memory.
    pub fn fact(&self, k: u32) -> Option<&Term>
        ensures { option_map (λ t. plain_term t.now) result ≡ fact_of self.now.facts k }
    {
        fact_at(self.items.items(), k)
    }

    /// What the facts keep: where the proved laws of the theory hold at all good inputs, each fact
    /// follows from the start. Does nothing.
    pub fn follow(&self, theory: &Theory)
        requires { key (plain_theory theory.now) ≡ self.now.theory }
        ensures { Held (plain_theory theory.now) self.now.names self.now.start self.now.facts }
    {
        let _ = &self.items;
        let _ = theory;
    }

    /// Whether the condition holds over the facts.
    ///
    /// # Errors
    ///
    /// Fails where memory is wanting.
    pub fn holds(&self, alloc: Global, theory: &Theory, condition: &Term) -> Result<bool, Memory>
        requires { key (plain_theory theory.now) ≡ self.now.theory }
        ensures { IfOk result (λ b. b ≡ holds_in theory.now.signature.definitions (top_scope self.now.names self.now.facts) (plain_term condition.now)) }
    {
        let scope = whole_scope(alloc, theory, &self.names, self.items.items())?;
        holds(alloc, &scope, condition)
    }

    /// Adds the fact of a move.
    ///
    /// # Errors
    ///
    /// The refusal of the move, and `Memory` where memory is wanting or no number is left. Nothing
    /// is changed then.
    pub fn step(&mut self, alloc: Global, theory: &Theory, step: &Move) -> Result<(), Why>
        requires { key (plain_theory theory.now) ≡ self.old.theory }
        ensures { Stepped result self.old self.new (stepped (plain_theory theory.now) self.old (plain_move step.now)) }
    {
        let fact = moved(alloc, theory, &self.names, self.items.items(), step)?;
        pushed(&mut self.items, fact)
    }

    /// The same facts.
    ///
    /// # Errors
    ///
    /// Fails where memory is wanting.
    pub fn copy(&self, alloc: Global) -> Result<Facts, Memory>
        ensures { IfOk result (λ f. f ≡ self.now) }
    {
        Ok(Facts {
            tag: Tag::of::<Tag, OfTag>(&self.tag),
            names: names::copied(alloc, &self.names)?,
            starts: self.starts,
            items: copied(alloc, &self.items)?,
        })
    }
}
