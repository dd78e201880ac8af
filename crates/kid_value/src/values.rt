ghost use Rattle.std.specs.Prelude.{◌≡◌, ◌∷◌, ◌++◌, OnOk, OnErr, map, [], length};
ghost use Rattle.kid_value.specs.Canonical.{IsCanonical};
ghost use Rattle.kid_value.specs.PlainValue.{seq, row};
ghost use Rattle.kid_value.specs.ValueView.{plain};

use crate::memory::Memory;
use crate::value::Value;
use std::alloc::Global;
use std::marker::Model;

/// Values in their order, as the items of a sequence.
#[cycle(value)]
#[derive(Drop)]
pub struct Values {
    pub(crate) items: Vec<Value>,
}

impl Model for Values {
    ghost use Rattle.std.specs.Prelude.{List, map};
    ghost use Rattle.kid_value.specs.PlainValue.{PlainValue, seq, row};
    ghost use Rattle.kid_value.specs.Heights.{list_height};
    ghost use Rattle.kid_value.specs.ValueCode.{coded_values};

    ghost Value = { List PlainValue };

    ghost coded = { coded_values };

    ghost use Rattle.kid_value.specs.ValueView.{plain};

    ghost view = { λ v. map plain v.items.items };

    ghost use Rattle.kid_value.specs.Canonical.{IsCanonical};

    ghost invariant = { λ v. IsCanonical (seq (row (map plain v.items.items))) };

    ghost size = { list_height };

    ghost use Rattle.kid_value.specs.ValueFalls.{most_le-heights};
    ghost use Rattle.std.proofs.Common.{arith};

    ghost size_decreases = { λ a h. omega (arith, most_le-heights a.items.items) };
}

impl Values {
    /// The empty list. It takes no memory.
    pub fn new(alloc: Global) -> Values
        ensures { result ≡ [] }
    {
        Values {
            items: Vec::new(alloc),
        }
    }

    /// Adds a value at the end. Where memory is wanting the list stays as it was.
    pub fn push(&mut self, v: Value) -> Result<(), Memory>
        ensures ok { OnOk result (self.new ≡ self.old ++ plain v ∷ []) }
        ensures err { OnErr result (self.new ≡ self.old) }
    {
        v.canonical();
        self.items.push(v)?;
        Ok(())
    }

    /// The values in their order, without copies.
    pub fn into_vec(self) -> Vec<Value>
        ensures items { map plain result.items ≡ self }
        ensures canonical { IsCanonical (seq (row self)) }
    {
        self.items
    }

    /// The number of values.
    pub fn len(&self) -> usize
        ensures { result ≡ length self.now }
    {
        self.items.len()
    }

    /// The values in their order.
    pub fn items(&self) -> &[Value]
        ensures items { map plain result.now ≡ self.now }
        ensures canonical { IsCanonical (seq (row self.now)) }
    {
        self.items.as_slice()
    }
}
