//! The pieces that a search theory has for a problem.
ghost use Rattle.std.specs.Prelude.{◌≡◌, ◌∷◌, ◌++◌, [], OnOk, OnErr};

use kid_term::{Term, Terms};
use kid_value::{Memory, Names, Sort, Text};
use std::alloc::Global;
use std::marker::Model;

/// What each kid is made for: each member of the pool, under this name. The sort is that of the members.
#[derive(Drop)]
pub struct Branch {
    pub name: Text,
    pub sort: Sort,
    pub pool: Term,
}

/// Lists of terms, one for each kid.
#[derive(Drop)]
pub struct TermLists {
    items: Vec<Terms>,
}

/// The terms of a search theory for a problem, over the inputs and the components. The goal sees the inputs and the output, the
/// terms of `sat` see the output too, and those of the kids the name of the branch.
#[derive(Drop)]
pub struct Pieces {
    pub components: Names,
    pub start: Terms,
    pub inv: Term,
    pub sat: Terms,
    pub goal: Term,
    pub leaf_guard: Term,
    pub leaf: Term,
    pub kid_guard: Term,
    pub branch: Option<Branch>,
    pub kids: TermLists,
    /// Falls from a descriptor to its kids. Nothing evaluates it.
    pub measure: Term,
}

impl Model for TermLists {
    ghost use Rattle.std.specs.Prelude.{List};
    ghost use Rattle.std.specs.Coded.{coded_list};
    ghost use Rattle.kid_term.specs.PlainTerm.{PlainTerm};
    ghost use Rattle.kid_term.specs.TermCode.{coded_terms};

    ghost Value = { List (List PlainTerm) };

    ghost coded = { coded_list coded_terms };

    ghost view = { λ t. t.items.items };
}

impl TermLists {
    /// No lists. Takes no memory.
    pub fn new(alloc: Global) -> TermLists
        ensures { result ≡ [] }
    {
        TermLists {
            items: Vec::new(alloc),
        }
    }

    /// These lists. Takes no memory.
    pub fn from_vec(lists: Vec<Terms>) -> TermLists
        ensures { result ≡ lists.items }
    {
        TermLists { items: lists }
    }

    /// Its lists. Takes no memory.
    pub fn into_vec(self) -> Vec<Terms>
        ensures { result.items ≡ self }
    {
        self.items
    }

    /// Adds a list at the end.
    ///
    /// # Errors
    ///
    /// Fails where memory is wanting, and then changes nothing.
    pub fn push(&mut self, terms: Terms) -> Result<(), Memory>
        ensures ok { OnOk result (self.new ≡ self.old ++ terms ∷ []) }
        ensures err { OnErr result (self.new ≡ self.old) }
    {
        self.items.push(terms)?;
        Ok(())
    }

    /// The lists in their order.
    pub fn items(&self) -> &[Terms]
        ensures { result.now ≡ self.now }
    {
        self.items.as_slice()
    }
}
