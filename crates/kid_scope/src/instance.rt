//! Instances of rules.
ghost use Rattle.std.specs.Prelude.{◌≡◌, ◌∷◌, ◌++◌, [], IfOk, OnOk, OnErr, Ok, map};
ghost use Rattle.kid_value.specs.SortView.{plain_sort};
ghost use Rattle.kid_term.specs.TermView.{plain_term};
ghost use Rattle.kid_scope.specs.InstanceView.{plain_part, plain_instance};
ghost use Rattle.kid_scope.specs.Instances as spec;

use kid_term::{Term, Terms};
use kid_value::{Memory, Sort};
use std::alloc::Global;
use std::marker::Model;

/// Terms with the sorts that theirs must lie within.
#[derive(Drop)]
pub struct Within {
    items: Vec<(Term, Sort)>,
}

impl Model for Within {
    ghost use Rattle.std.specs.Prelude.{List, map};
    ghost use Rattle.std.specs.Coded.{coded_list, coded×};
    ghost use Rattle.kid_value.specs.PlainSort.{PlainSort};
    ghost use Rattle.kid_value.specs.SortCode.{coded_sort};
    ghost use Rattle.kid_term.specs.PlainTerm.{PlainTerm};
    ghost use Rattle.kid_term.specs.TermCode.{coded_term};

    ghost Value = { List (PlainTerm × PlainSort) };

    ghost coded = { coded_list (coded× coded_term coded_sort) };

    ghost use Rattle.kid_scope.specs.InstanceView.{plain_part};

    ghost view = { λ w. map plain_part w.items.items };
}

/// What a rule puts in a term's place: the conditions that must hold, the new term, and terms with
/// the sorts that theirs must lie within.
#[derive(Drop)]
pub struct Instance {
    pub conditions: Terms,
    pub term: Term,
    pub within: Within,
}

impl Within {
    /// No terms. Takes no memory.
    pub fn new(alloc: Global) -> Within
        ensures { result ≡ [] }
    {
        Within {
            items: Vec::new(alloc),
        }
    }

    /// Adds a term with a sort at the end.
    ///
    /// # Errors
    ///
    /// Fails where memory is wanting, and then changes nothing.
    pub fn push(&mut self, term: Term, sort: Sort) -> Result<(), Memory>
        ensures ok { OnOk result (self.new ≡ self.old ++ (plain_term term, plain_sort sort) ∷ []) }
        ensures err { OnErr result (self.new ≡ self.old) }
    {
        self.items.push((term, sort))?;
        Ok(())
    }

    /// The terms with their sorts, in their order.
    pub fn items(&self) -> &[(Term, Sort)]
        ensures { map plain_part result.now ≡ self.now }
    {
        self.items.as_slice()
    }
}

/// The new term, under no condition. Takes no memory.
pub fn just(alloc: Global, term: Term) -> Instance
    ensures { Ok (plain_instance result) ≡ spec.just (plain_term term) }
{
    Instance {
        conditions: Terms::new(alloc),
        term,
        within: Within::new(alloc),
    }
}
