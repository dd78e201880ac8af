ghost use Rattle.std.specs.Prelude.{◌≡◌, ◌∷◌, ◌++◌, OnOk, OnErr, map, []};
ghost use Rattle.kid_value.specs.NameView.{plain_name};
ghost use Rattle.kid_value.specs.SortView.{plain_sort};

use crate::memory::Memory;
use crate::sort::Sort;
use crate::text::Text;
use std::alloc::Global;
use std::marker::Model;

/// Names with their sorts.
#[derive(Drop)]
pub struct Names {
    items: Vec<(Text, Sort)>,
}

impl Model for Names {
    ghost use Rattle.std.specs.Prelude.{List, map, ℕ};
    ghost use Rattle.std.specs.Coded.{coded_list, coded×, coded_ℕ};
    ghost use Rattle.kid_value.specs.PlainSort.{PlainSort};
    ghost use Rattle.kid_value.specs.SortCode.{coded_sort};

    ghost Value = { List (List ℕ × PlainSort) };

    ghost coded = { coded_list (coded× (coded_list coded_ℕ) coded_sort) };

    ghost use Rattle.kid_value.specs.NameView.{plain_name};

    ghost view = { λ n. map plain_name n.items.items };
}

impl Names {
    /// The empty list. It takes no memory.
    pub fn new(alloc: Global) -> Names
        ensures { result ≡ [] }
    {
        Names {
            items: Vec::new(alloc),
        }
    }

    /// The list of these names with their sorts. It takes no memory.
    pub fn from_vec(items: Vec<(Text, Sort)>) -> Names
        ensures { result ≡ map plain_name items.items }
    {
        Names { items }
    }

    /// The names with their sorts in their order, without copies.
    pub fn into_vec(self) -> Vec<(Text, Sort)>
        ensures { map plain_name result.items ≡ self }
    {
        self.items
    }

    /// Adds a name with its sort at the end. Where memory is wanting the list stays as it was.
    pub fn push(&mut self, name: Text, sort: Sort) -> Result<(), Memory>
        ensures ok { OnOk result (self.new ≡ self.old ++ (name, plain_sort sort) ∷ []) }
        ensures err { OnErr result (self.new ≡ self.old) }
    {
        self.items.push((name, sort))?;
        Ok(())
    }

    /// The names with their sorts, in their order.
    pub fn items(&self) -> &[(Text, Sort)]
        ensures { map plain_name result.now ≡ self.now }
    {
        self.items.as_slice()
    }
}
