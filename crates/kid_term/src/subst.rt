ghost use Rattle.std.specs.Prelude.{◌≡◌, ◌∷◌, ◌++◌, [], OnOk, OnErr, map, option_map};
ghost use Rattle.kid_term.specs.TermView.{plain_term};
ghost use Rattle.kid_term.specs.Simultaneous.{term_at};
ghost use Rattle.kid_term.specs.SubstView.{plain_pair};

use crate::Term;
use crate::substitute::is_same;
use kid_value::{Memory, Text};
use std::alloc::Global;
use std::marker::Model;

/// Names with their terms, of which the first for a name counts.
#[derive(Drop)]
pub struct Subst {
    items: Vec<(Text, Term)>,
}

impl Model for Subst {
    ghost use Rattle.std.specs.Prelude.{map};
    ghost use Rattle.std.specs.Coded.{coded_list, coded×};
    ghost use Rattle.kid_term.specs.TermCode.{coded_name, coded_term};
    ghost use Rattle.kid_term.specs.Simultaneous as spec;

    ghost Value = { spec.Subst };

    ghost coded = { coded_list (coded× coded_name coded_term) };

    ghost use Rattle.kid_term.specs.SubstView.{plain_pair};

    ghost view = { λ s. map plain_pair s.items.items };
}

impl Subst {
    /// No names. Takes no memory.
    pub fn new(alloc: Global) -> Subst
        ensures { result ≡ [] }
    {
        Subst {
            items: Vec::new(alloc),
        }
    }

    /// These names with their terms. Takes no memory.
    pub fn from_vec(pairs: Vec<(Text, Term)>) -> Subst
        ensures { result ≡ map plain_pair pairs.items }
    {
        Subst { items: pairs }
    }

    /// Its names with their terms. Takes no memory.
    pub fn into_vec(self) -> Vec<(Text, Term)>
        ensures { map plain_pair result.items ≡ self }
    {
        self.items
    }

    /// Adds a name with its term after the others.
    ///
    /// # Errors
    ///
    /// Fails where memory is wanting, and then changes nothing.
    pub fn push(&mut self, name: Text, term: Term) -> Result<(), Memory>
        ensures ok { OnOk result (self.new ≡ self.old ++ (name, plain_term term) ∷ []) }
        ensures err { OnErr result (self.new ≡ self.old) }
    {
        self.items.push((name, term))?;
        Ok(())
    }

    /// The names with their terms, in their order.
    pub fn items(&self) -> &[(Text, Term)]
        ensures { map plain_pair result.now ≡ self.now }
    {
        self.items.as_slice()
    }

    /// The term that the name has.
    pub fn get(&self, x: &Text) -> Option<&Term>
        ensures { option_map (λ t. plain_term t.now) result ≡ term_at x.now self.now }
    {
        found(self.items(), x)
    }
}

/// The first term for the name.
pub(crate) fn found<'a>(items: &'a [(Text, Term)], x: &Text) -> Option<&'a Term>
    ensures { option_map (λ t. plain_term t.now) result ≡ term_at x.now (map plain_pair items.now) }
{
    for item in items {
        if is_same(x, &item.0) {
            return Some(&item.1);
        }
    }
    None
}
