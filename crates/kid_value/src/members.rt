ghost use Rattle.std.specs.Prelude.{◌≡◌, ◌||◌, OnOk, OnErr, MatchResult, map, []};
ghost use Rattle.kid_value.specs.Canonical.{IsCanonical};
ghost use Rattle.kid_value.specs.PlainValue.{PlainValue, set, row};
ghost use Rattle.kid_value.specs.ValueSet.{put, Ascends, IsThere, StandsAt, is_member, value_eq};
ghost use Rattle.kid_value.specs.ValueView.{plain};

use crate::memory::Memory;
use crate::order::compare;
use crate::value::Value;
use crate::values::Values;
use std::alloc::Global;
use std::cmp::Ordering;
use std::marker::Model;

/// The members of a set, which ascend.
#[cycle(value)]
#[derive(Drop)]
pub struct Members {
    pub(crate) items: Vec<Value>,
}

impl Model for Members {
    ghost use Rattle.std.specs.Prelude.{List, map};
    ghost use Rattle.kid_value.specs.PlainValue.{PlainValue, set, row};
    ghost use Rattle.kid_value.specs.Heights.{list_height};
    ghost use Rattle.kid_value.specs.ValueCode.{coded_values};

    ghost Value = { List PlainValue };

    ghost coded = { coded_values };

    ghost use Rattle.kid_value.specs.ValueView.{plain};

    ghost view = { λ v. map plain v.items.items };

    ghost use Rattle.kid_value.specs.Canonical.{IsCanonical};

    ghost invariant = { λ v. IsCanonical (set (row (map plain v.items.items))) };

    ghost size = { list_height };

    ghost use Rattle.kid_value.specs.ValueFalls.{most_le-heights};
    ghost use Rattle.std.proofs.Common.{arith};

    ghost size_decreases = { λ a h. omega (arith, most_le-heights a.items.items) };
}

impl Members {
    /// The empty set. It takes no memory.
    pub fn new(alloc: Global) -> Members
        ensures { result ≡ [] }
    {
        Members {
            items: Vec::new(alloc),
        }
    }

    /// The set of values that ascend.
    pub fn from_ascending(values: Values) -> Members
        requires { Ascends values }
        ensures { result ≡ values }
    {
        Members {
            items: values.items,
        }
    }

    /// The members, ascending, without copies.
    pub fn into_vec(self) -> Vec<Value>
        ensures items { map plain result.items ≡ self }
        ensures ascends { Ascends self }
        ensures canonical { IsCanonical (set (row self)) }
    {
        self.items
    }

    /// Adds a member, and changes nothing where it is there already. Where memory is wanting the set stays as it was.
    pub fn put(&mut self, v: Value) -> Result<(), Memory>
        ensures ok { OnOk result (self.new ≡ put (plain v) self.old) }
        ensures members { OnOk result ((x : PlainValue) → is_member x self.new ≡ (value_eq x (plain v) || is_member x self.old)) }
        ensures err { OnErr result (self.new ≡ self.old) }
    {
        v.canonical();
        match place_of(self.items.as_slice(), &v) {
            Ok(_) => Ok(()),
            Err(at) => {
                self.items.insert(at, v)?;
                Ok(())
            }
        }
    }

    /// Whether the set has a value.
    pub fn contains(&self, v: &Value) -> bool
        ensures { result ≡ is_member (plain v.now) self.now }
    {
        place_of(self.items.as_slice(), v).is_ok()
    }

    /// The members, ascending.
    pub fn items(&self) -> &[Value]
        ensures items { map plain result.now ≡ self.now }
        ensures ascends { Ascends self.now }
        ensures canonical { IsCanonical (set (row self.now)) }
    {
        self.items.as_slice()
    }
}

/// The place of a value among ascending ones, or where it would stand.
fn place_of(items: &[Value], v: &Value) -> Result<usize, usize>
    requires { Ascends (map plain items.now) }
    ensures { MatchResult result (λ _. IsThere (plain v.now) (map plain items.now)) (λ at. StandsAt (plain v.now) (map plain items.now) at) }
{
    let mut low = 0;
    let mut high = items.len();
    while low < high {
        let middle = low + (high - low) / 2;
        match compare(v, &items[middle]) {
            Ordering::Less => high = middle,
            Ordering::Equal => return Ok(middle),
            Ordering::Greater => low = middle + 1,
        }
    }
    Err(low)
}
