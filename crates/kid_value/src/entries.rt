ghost use Rattle.std.specs.Prelude.{◌≡◌, ◌≤◌, OnOk, OnErr, MatchResult, MatchOption, Option, Some, None, map, [], ◌∷◌, ◌++◌, length, slice_get, set, ◌<◌, vec_len, if◌then◌else◌};
ghost use Rattle.kid_value.specs.Canonical.{IsCanonical};
ghost use Rattle.kid_value.specs.PlainValue.{PlainValue, map_of, table};
ghost use Rattle.kid_value.specs.ValueMap.{put_entry, lookup, keys, HoldsKey, KeyStandsAt};
ghost use Rattle.kid_value.specs.ValueSet.{Ascends, value_eq};
ghost use Rattle.kid_value.specs.ValueView.{plain, plain_entry};

use crate::memory::Memory;
use crate::order::compare;
use crate::value::Value;
use std::alloc::Global;
use std::cmp::Ordering;
use std::marker::Model;

/// The entries of a map, which ascend by their keys.
#[cycle(value)]
#[derive(Drop)]
pub struct Entries {
    pub(crate) items: Vec<(Value, Value)>,
}

impl Model for Entries {
    ghost use Rattle.std.specs.Prelude.{List, map};
    ghost use Rattle.kid_value.specs.PlainValue.{PlainValue, map_of, table};
    ghost use Rattle.kid_value.specs.Heights.{entries_height};
    ghost use Rattle.kid_value.specs.ValueCode.{coded_entries};

    ghost Value = { List (PlainValue × PlainValue) };

    ghost coded = { coded_entries };

    ghost use Rattle.kid_value.specs.ValueView.{plain_entry};

    ghost view = { λ v. map plain_entry v.items.items };

    ghost use Rattle.kid_value.specs.Canonical.{IsCanonical};

    ghost invariant = { λ v. IsCanonical (map_of (table (map plain_entry v.items.items))) };

    ghost size = { entries_height };

    ghost use Rattle.kid_value.specs.ValueFalls.{most_le-entry_heights};
    ghost use Rattle.std.proofs.Common.{arith};

    ghost size_decreases = { λ a h. omega (arith, most_le-entry_heights a.items.items) };
}

impl Entries {
    /// The empty map. It takes no memory.
    pub fn new(alloc: Global) -> Entries
        ensures { result ≡ [] }
    {
        Entries {
            items: Vec::new(alloc),
        }
    }

    /// The keys with their values, ascending by the keys, without copies.
    pub fn into_vec(self) -> Vec<(Value, Value)>
        ensures items { map plain_entry result.items ≡ self }
        ensures ascends { Ascends (keys self) }
        ensures canonical { IsCanonical (map_of (table self)) }
    {
        self.items
    }

    /// Sets the value of a key. Where memory is wanting the map stays as it was.
    pub fn put(&mut self, k: Value, v: Value) -> Result<(), Memory>
        ensures ok { OnOk result (self.new ≡ put_entry (plain k) (plain v) self.old) }
        ensures values { OnOk result ((x : PlainValue) → lookup x self.new ≡ (if value_eq x (plain k) then Some (plain v) else lookup x self.old)) }
        ensures err { OnErr result (self.new ≡ self.old) }
    {
        k.canonical();
        v.canonical();
        match place_of_key(self.items.as_slice(), &k) {
            Ok(at) => {
                set_entry(&mut self.items, at, (k, v));
                Ok(())
            }
            Err(at) => {
                self.items.insert(at, (k, v))?;
                Ok(())
            }
        }
    }

    /// Adds an entry whose key is after the others. Where memory is wanting the map stays as it was.
    pub fn push(&mut self, k: Value, v: Value) -> Result<(), Memory>
        requires { Ascends (keys self.old ++ plain k ∷ []) }
        ensures ok { OnOk result (self.new ≡ self.old ++ (plain k, plain v) ∷ []) }
        ensures err { OnErr result (self.new ≡ self.old) }
    {
        k.canonical();
        v.canonical();
        self.items.push((k, v))?;
        Ok(())
    }

    /// The value of a key, or `None` where the map lacks the key.
    pub fn get(&self, k: &Value) -> Option<&Value>
        ensures { MatchOption result (lookup (plain k.now) self.now ≡ None) (λ v. lookup (plain k.now) self.now ≡ Some (plain v.now)) }
    {
        match place_of_key(self.items.as_slice(), k) {
            Ok(at) => Some(&self.items[at].1),
            Err(_) => None,
        }
    }

    /// The number of keys.
    pub fn len(&self) -> usize
        ensures { result ≡ length self.now }
    {
        self.items.len()
    }

    /// The key and value at a place, counted from 0, or `None` where the place is not less than the length.
    pub fn entry(&self, place: usize) -> Option<(&Value, &Value)>
        ensures { MatchOption result (length self.now ≤ place) (λ e. slice_get self.now place ≡ Some (plain e.0.now, plain e.1.now)) }
    {
        match self.items.get(place) {
            None => None,
            Some(e) => Some((&e.0, &e.1)),
        }
    }

    /// The keys with their values, ascending by the keys.
    pub fn items(&self) -> &[(Value, Value)]
        ensures items { map plain_entry result.now ≡ self.now }
        ensures ascends { Ascends (keys self.now) }
        ensures canonical { IsCanonical (map_of (table self.now)) }
    {
        self.items.as_slice()
    }
}

fn set_entry(entries: &mut Vec<(Value, Value)>, at: usize, entry: (Value, Value))
    requires { at < vec_len entries.old }
    ensures { entries.new.items ≡ set entries.old.items at entry }
{
    entries[at] = entry;
}

/// The place of a key among entries that ascend by their keys, or where it would stand.
fn place_of_key(items: &[(Value, Value)], k: &Value) -> Result<usize, usize>
    requires { Ascends (keys (map plain_entry items.now)) }
    ensures { MatchResult result (λ at. HoldsKey (plain k.now) (map plain_entry items.now) at) (λ at. KeyStandsAt (plain k.now) (map plain_entry items.now) at) }
{
    let mut low = 0;
    let mut high = items.len();
    while low < high {
        let middle = low + (high - low) / 2;
        match compare(k, &items[middle].0) {
            Ordering::Less => high = middle,
            Ordering::Equal => return Ok(middle),
            Ordering::Greater => low = middle + 1,
        }
    }
    Err(low)
}
