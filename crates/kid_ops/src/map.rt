//! The operators on maps. Where an argument is of another kind than the operator takes, the
//! answer is false.
ghost use Rattle.std.specs.Prelude.{◌≡◌, IfOk, map as mapped, unwrap_or};
ghost use Rattle.std.specs.Option.{option_map};
ghost use Rattle.std.specs.List.{list_all};
ghost use Rattle.kid_value.specs.PlainValue.{bool};
ghost use Rattle.kid_value.specs.Rows.Map as rows;
ghost use Rattle.kid_value.specs.ValueMap.{lookup, keys};
ghost use Rattle.kid_value.specs.ValueSet.{Ascends, set_of};
ghost use Rattle.kid_value.specs.ValueView.{plain, plain_entry};
ghost use Rattle.kid_ops.specs.Parts.{key_of, held_by, without_key, filled, narrowed};

use crate::set::inter;
use kid_value::{Entries, Members, Memory, Value, Values, cmp};
use std::alloc::Global;

/// The map without keys. It takes no memory.
pub fn map(alloc: Global) -> Value
    ensures { plain result ≡ rows.empty_map }
{
    Value::Map(Entries::new(alloc))
}

/// The set of the keys.
#[tactic(auto, using(kid_value::proofs::RowLemmas::entries_table))]
pub fn dom(alloc: Global, m: &Value) -> Result<Value, Memory>
    ensures { IfOk result (λ v. plain v ≡ rows.dom (plain m.now)) }
{
    match m {
        Value::Map(entries) => {
            let members = keys_of(alloc, entries)?;
            Ok(Value::Set(members))
        }
        _ => Ok(Value::Bool(false)),
    }
}

fn keys_of(alloc: Global, entries: &Entries) -> Result<Members, Memory>
    ensures { IfOk result (λ m. m ≡ keys entries.now) }
{
    let keys = copied_keys(alloc, entries.items())?;
    Ok(Members::from_ascending(keys))
}

fn copied_keys(alloc: Global, entries: &[(Value, Value)]) -> Result<Values, Memory>
    ensures { IfOk result (λ v. v ≡ mapped key_of entries.now) }
{
    let mut copies = Values::new(alloc);
    for e in entries {
        copies.push(e.0.copy(alloc)?)?;
    }
    Ok(copies)
}

/// The set of the values that the keys have.
#[tactic(auto, using(kid_value::proofs::RowLemmas::entries_table, crate::proofs::EntryViews::held_values))]
pub fn ran(alloc: Global, m: &Value) -> Result<Value, Memory>
    ensures { IfOk result (λ v. plain v ≡ rows.ran (plain m.now)) }
{
    match m {
        Value::Map(entries) => {
            let members = values_held(alloc, entries.items())?;
            Ok(Value::Set(members))
        }
        _ => Ok(Value::Bool(false)),
    }
}

fn values_held(alloc: Global, entries: &[(Value, Value)]) -> Result<Members, Memory>
    ensures { IfOk result (λ m. m ≡ set_of (mapped held_by entries.now)) }
{
    let mut members = Members::new(alloc);
    let mut left = entries;
    while let Some((last, earlier)) = left.split_last() {
        members.put(last.1.copy(alloc)?)?;
        left = earlier;
    }
    Ok(members)
}

/// The value of a key, or `d` where the map lacks the key.
#[tactic(auto, using(kid_value::proofs::RowLemmas::entries_table))]
pub fn get(alloc: Global, m: &Value, x: &Value, d: &Value) -> Result<Value, Memory>
    ensures { IfOk result (λ v. plain v ≡ rows.get (plain m.now) (plain x.now) (plain d.now)) }
{
    match m {
        Value::Map(entries) => value_or(entries, x, d).copy(alloc),
        _ => Ok(Value::Bool(false)),
    }
}

fn value_or<'a>(entries: &'a Entries, x: &Value, d: &'a Value) -> &'a Value
    ensures { plain result.now ≡ unwrap_or (lookup (plain x.now) entries.now) (plain d.now) }
{
    match entries.get(x) {
        Some(v) => v,
        None => d,
    }
}

/// The map with the value at the key.
#[tactic(auto, using(kid_value::proofs::RowLemmas::entries_table))]
pub fn put(alloc: Global, m: &Value, x: &Value, y: &Value) -> Result<Value, Memory>
    ensures { IfOk result (λ v. plain v ≡ rows.put (plain m.now) (plain x.now) (plain y.now)) }
{
    match m.copy(alloc)? {
        Value::Map(mut entries) => {
            let key = x.copy(alloc)?;
            let value = y.copy(alloc)?;
            entries.put(key, value)?;
            Ok(Value::Map(entries))
        }
        _ => Ok(Value::Bool(false)),
    }
}

/// The map without a key.
#[tactic(auto, using(kid_value::proofs::RowLemmas::entries_table))]
pub fn drop(alloc: Global, m: &Value, x: &Value) -> Result<Value, Memory>
    ensures { IfOk result (λ v. plain v ≡ rows.drop (plain m.now) (plain x.now)) }
{
    match m {
        Value::Map(entries) => {
            let others = entries_but(alloc, entries.items(), x)?;
            Ok(Value::Map(others))
        }
        _ => Ok(Value::Bool(false)),
    }
}

fn entries_but(alloc: Global, entries: &[(Value, Value)], x: &Value) -> Result<Entries, Memory>
    requires { Ascends (keys (mapped plain_entry entries.now)) }
    ensures { IfOk result (λ e. e ≡ without_key (plain x.now) (mapped plain_entry entries.now)) }
{
    let mut others = Entries::new(alloc);
    for e in entries {
        if !cmp(&e.0, x).is_eq() {
            let value = e.1.copy(alloc)?;
            others.push(e.0.copy(alloc)?, value)?;
        }
    }
    Ok(others)
}

/// The map that has the one value at each member of the set.
#[tactic(auto, using(kid_value::proofs::RowLemmas::items_row))]
pub fn fill(alloc: Global, s: &Value, x: &Value) -> Result<Value, Memory>
    ensures { IfOk result (λ v. plain v ≡ rows.fill (plain s.now) (plain x.now)) }
{
    match s {
        Value::Set(members) => {
            let entries = entries_with(alloc, members.items(), x)?;
            Ok(Value::Map(entries))
        }
        _ => Ok(Value::Bool(false)),
    }
}

fn entries_with(alloc: Global, keys: &[Value], x: &Value) -> Result<Entries, Memory>
    requires { Ascends (mapped plain keys.now) }
    ensures { IfOk result (λ e. e ≡ filled (plain x.now) (mapped plain keys.now)) }
{
    let mut entries = Entries::new(alloc);
    for k in keys {
        let value = x.copy(alloc)?;
        entries.push(k.copy(alloc)?, value)?;
    }
    Ok(entries)
}

/// Whether the second map has each key of the first, with an equal value.
#[tactic(auto, using(kid_value::proofs::RowLemmas::entries_table))]
pub fn submap(m: &Value, n: &Value) -> bool
    ensures { bool result ≡ rows.submap (plain m.now) (plain n.now) }
{
    match (m, n) {
        (Value::Map(first), Value::Map(second)) => each_in(first.items(), second),
        _ => false,
    }
}

fn each_in(entries: &[(Value, Value)], map: &Entries) -> bool
    ensures { result ≡ list_all (λ e. rows.has_value (lookup e.0 map.now) e.1) (mapped plain_entry entries.now) }
{
    for e in entries {
        if !is_value(map.get(&e.0), &e.1) {
            return false;
        }
    }
    true
}

fn is_value(found: Option<&Value>, v: &Value) -> bool
    ensures { result ≡ rows.has_value (option_map (λ w. plain w.now) found.entry) (plain v.now) }
{
    match found {
        None => false,
        Some(w) => cmp(w, v).is_eq(),
    }
}

/// Whether the first map has, at each key of the second, a member of the set that the second has
/// there.
#[tactic(auto, using(kid_value::proofs::RowLemmas::entries_table))]
pub fn fits(m: &Value, n: &Value) -> bool
    ensures { bool result ≡ rows.fits (plain m.now) (plain n.now) }
{
    match (m, n) {
        (Value::Map(first), Value::Map(second)) => each_allows(second.items(), first),
        _ => false,
    }
}

fn each_allows(entries: &[(Value, Value)], map: &Entries) -> bool
    ensures { result ≡ list_all (λ e. rows.has_value_in (lookup e.0 map.now) e.1) (mapped plain_entry entries.now) }
{
    for e in entries {
        if !is_allowed(map.get(&e.0), &e.1) {
            return false;
        }
    }
    true
}

#[tactic(auto, using(kid_value::proofs::RowLemmas::items_row))]
fn is_allowed(found: Option<&Value>, set: &Value) -> bool
    ensures { result ≡ rows.has_value_in (option_map (λ w. plain w.now) found.entry) (plain set.now) }
{
    match (found, set) {
        (Some(v), Value::Set(members)) => members.contains(v),
        _ => false,
    }
}

/// The first map, with each set cut down to the members of the set that the second map has at the
/// key, where it has one.
#[tactic(auto, using(kid_value::proofs::RowLemmas::entries_table))]
pub fn narrow(alloc: Global, m: &Value, n: &Value) -> Result<Value, Memory>
    ensures { IfOk result (λ v. plain v ≡ rows.narrow (plain m.now) (plain n.now)) }
{
    match (m, n) {
        (Value::Map(first), Value::Map(second)) => {
            let entries = narrowed_by(alloc, first.items(), second)?;
            Ok(Value::Map(entries))
        }
        _ => Ok(Value::Bool(false)),
    }
}

fn narrowed_by(alloc: Global, entries: &[(Value, Value)], map: &Entries) -> Result<Entries, Memory>
    requires { Ascends (keys (mapped plain_entry entries.now)) }
    ensures { IfOk result (λ e. e ≡ narrowed map.now (mapped plain_entry entries.now)) }
{
    let mut cut = Entries::new(alloc);
    for e in entries {
        let value = cut_down(alloc, &e.1, map.get(&e.0))?;
        cut.push(e.0.copy(alloc)?, value)?;
    }
    Ok(cut)
}

#[tactic(auto, using(crate::proofs::EntryViews::cut_down_inter))]
fn cut_down(alloc: Global, v: &Value, bound: Option<&Value>) -> Result<Value, Memory>
    ensures { IfOk result (λ r. plain r ≡ rows.cut_down (plain v.now) (option_map (λ w. plain w.now) bound.entry)) }
{
    match bound {
        None => v.copy(alloc),
        Some(w) => inter(alloc, v, w),
    }
}
