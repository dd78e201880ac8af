//! Plans of searches.
ghost use Rattle.std.specs.Prelude.{◌≡◌, ◌∷◌, ◌++◌, [], OnOk, OnErr, map};
ghost use Rattle.kid_search.specs.PlanView.{plain_cut, plain_parameter};

use crate::cut_kind::CutKind;
use crate::pieces::{Pieces, TermLists};
use kid_term::{Term, Terms};
use kid_value::{Memory, Sort, Text};
use std::alloc::Global;
use std::marker::Model;

/// A cut, and the term by whose value it changes a descriptor.
#[derive(Drop)]
pub struct Cut {
    pub kind: CutKind,
    pub term: Term,
}

/// Cuts in the order in which they are made.
#[derive(Drop)]
pub struct Cuts {
    items: Vec<Cut>,
}

/// A maintained parameter: the expression whose value it has, and the terms that give this value at the start and at each kid.
#[derive(Drop)]
pub struct Parameter {
    pub name: Text,
    pub sort: Sort,
    pub expression: Term,
    pub start: Term,
    pub kids: Terms,
}

/// Maintained parameters in the order in which they were made.
#[derive(Drop)]
pub struct Parameters {
    items: Vec<Parameter>,
}

/// The pieces, what prunes the search, and the terms by which a program does it: the tests of the start, the leaf and each kid, the
/// arguments of each kid's call after the cuts, and the maintained parameters.
#[derive(Drop)]
pub struct Plan {
    pub pieces: Pieces,
    pub cuts: Cuts,
    pub filters: Terms,
    pub start_test: Term,
    pub leaf_test: Term,
    pub kid_tests: Terms,
    pub calls: TermLists,
    pub parameters: Parameters,
}

impl Model for Cuts {
    ghost use Rattle.std.specs.Prelude.{List, map};
    ghost use Rattle.kid_search.specs.PlainPlan.{PlainCut};
    ghost use Rattle.kid_search.specs.PlanCode.{coded_cuts};

    ghost Value = { List PlainCut };

    ghost coded = { coded_cuts };

    ghost use Rattle.kid_search.specs.PlanView.{plain_cut};

    ghost view = { λ c. map plain_cut c.items.items };
}

impl Model for Parameters {
    ghost use Rattle.std.specs.Prelude.{List, map};
    ghost use Rattle.kid_search.specs.PlainPlan.{PlainParameter};
    ghost use Rattle.kid_search.specs.PlanCode.{coded_parameters};

    ghost Value = { List PlainParameter };

    ghost coded = { coded_parameters };

    ghost use Rattle.kid_search.specs.PlanView.{plain_parameter};

    ghost view = { λ p. map plain_parameter p.items.items };
}

impl Cuts {
    /// No cuts. Takes no memory.
    pub fn new(alloc: Global) -> Cuts
        ensures { result ≡ [] }
    {
        Cuts {
            items: Vec::new(alloc),
        }
    }

    /// These cuts. Takes no memory.
    pub fn from_vec(cuts: Vec<Cut>) -> Cuts
        ensures { result ≡ map plain_cut cuts.items }
    {
        Cuts { items: cuts }
    }

    /// Its cuts. Takes no memory.
    pub fn into_vec(self) -> Vec<Cut>
        ensures { map plain_cut result.items ≡ self }
    {
        self.items
    }

    /// Adds a cut after the others.
    ///
    /// # Errors
    ///
    /// Fails where memory is wanting, and then changes nothing.
    pub fn push(&mut self, cut: Cut) -> Result<(), Memory>
        ensures ok { OnOk result (self.new ≡ self.old ++ plain_cut cut ∷ []) }
        ensures err { OnErr result (self.new ≡ self.old) }
    {
        self.items.push(cut)?;
        Ok(())
    }

    /// The cuts in their order.
    pub fn items(&self) -> &[Cut]
        ensures { map plain_cut result.now ≡ self.now }
    {
        self.items.as_slice()
    }
}

impl Parameters {
    /// No parameters. Takes no memory.
    pub fn new(alloc: Global) -> Parameters
        ensures { result ≡ [] }
    {
        Parameters {
            items: Vec::new(alloc),
        }
    }

    /// These parameters. Takes no memory.
    pub fn from_vec(parameters: Vec<Parameter>) -> Parameters
        ensures { result ≡ map plain_parameter parameters.items }
    {
        Parameters { items: parameters }
    }

    /// Its parameters. Takes no memory.
    pub fn into_vec(self) -> Vec<Parameter>
        ensures { map plain_parameter result.items ≡ self }
    {
        self.items
    }

    /// Adds a parameter after the others.
    ///
    /// # Errors
    ///
    /// Fails where memory is wanting, and then changes nothing.
    pub fn push(&mut self, parameter: Parameter) -> Result<(), Memory>
        ensures ok { OnOk result (self.new ≡ self.old ++ plain_parameter parameter ∷ []) }
        ensures err { OnErr result (self.new ≡ self.old) }
    {
        self.items.push(parameter)?;
        Ok(())
    }

    /// The parameters in their order.
    pub fn items(&self) -> &[Parameter]
        ensures { map plain_parameter result.now ≡ self.now }
    {
        self.items.as_slice()
    }
}
