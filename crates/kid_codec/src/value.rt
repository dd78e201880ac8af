ghost use Rattle.std.specs.Prelude.{◌≡◌, true, IfOk, option_map};
ghost use Rattle.kid_sexp.specs.Tree.{plain as plain_tree, plains};
ghost use Rattle.kid_value.specs.SortOrder.{both};
ghost use Rattle.kid_value.specs.PlainSort.{has_sort};
ghost use Rattle.kid_value.specs.PlainValue.{PlainValue, pair};
ghost use Rattle.kid_value.specs.SortView.{plain_sort};
ghost use Rattle.kid_value.specs.ValueSet.{set_of};
ghost use Rattle.kid_value.specs.ValueView.{plain, plain_entry};
ghost use Rattle.kid_codec.specs.Reading.{Gives, Finds};
ghost use Rattle.kid_codec.specs.SpelledValue.{Spells, TellsValue, IsReadAs};
ghost use Rattle.kid_codec.specs.ValueSpelling.{atom_value, with_entry, distinct_entries, value_of_parts, spelled_value, spelled_list, spelled_pair, spelled_values, spelled_entry, key_and_value, spelled_entries, is_spelled_value, value_reading};

use crate::fault::CodecFault;
use crate::number::number_of;
use crate::parts::couple;
use crate::tree_name::tag_name;
use kid_sexp::Tree;
use kid_value::{Entries, Members, Sort, Text, Value, Values, has_sort};
use std::alloc::Global;

fn atom_value(alloc: Global, word: &Text) -> Result<Value, CodecFault>
    ensures { Finds plain result (atom_value word.now) }
{
    if word.is(b"true") {
        return Ok(Value::Bool(true));
    }
    if word.is(b"false") {
        return Ok(Value::Bool(false));
    }
    if let Some(name) = tag_name(word.as_slice()) {
        return Ok(Value::Tag(Text::from_slice(alloc, name)?));
    }
    match number_of(word.as_slice()) {
        Some(n) => Ok(Value::Int(n)),
        None => Err(CodecFault::Form),
    }
}

#[cycle(spelled_value)]
fn spelled_value(alloc: Global, tree: &Tree) -> Result<Value, CodecFault>
    ensures { Finds plain result (spelled_value (plain_tree tree.now)) }
{
    match tree {
        Tree::Atom(word) => atom_value(alloc, word),
        Tree::List(trees) => value_of_list(alloc, trees.as_slice()),
    }
}

#[cycle(spelled_value)]
fn value_of_list(alloc: Global, trees: &[Tree]) -> Result<Value, CodecFault>
    ensures { Finds plain result (spelled_list (plains trees.now)) }
{
    match trees.split_first() {
        Some((Tree::Atom(word), parts)) => value_of_parts(alloc, word, parts),
        _ => Err(CodecFault::Form),
    }
}

#[cycle(spelled_value)]
fn value_of_parts(alloc: Global, word: &Text, parts: &[Tree]) -> Result<Value, CodecFault>
    ensures { Finds plain result (value_of_parts word.now (spelled_pair (plains parts.now)) (spelled_values (plains parts.now)) (spelled_entries (plains parts.now))) }
{
    if word.is(b"pair") {
        return pair_from(alloc, parts);
    }
    if word.is(b"set") {
        return Ok(Value::Set(members_from(alloc, parts)?));
    }
    if word.is(b"seq") {
        return Ok(Value::Seq(values_from(alloc, parts)?));
    }
    if word.is(b"map") {
        return Ok(Value::Map(entries_from(alloc, parts)?));
    }
    Err(CodecFault::Form)
}

#[cycle(spelled_value)]
fn pair_of(alloc: Global, first: &Tree, second: &Tree) -> Result<Value, CodecFault>
    ensures { Finds plain result (both pair (spelled_value (plain_tree first.now)) (spelled_value (plain_tree second.now))) }
{
    let first = spelled_value(alloc, first)?;
    let second = spelled_value(alloc, second)?;
    Ok(Value::pair(alloc, first, second)?)
}

#[cycle(spelled_value)]
#[tactic(auto, using(crate::proofs::Lengths::lengths))]
fn pair_from(alloc: Global, trees: &[Tree]) -> Result<Value, CodecFault>
    ensures { Finds plain result (spelled_pair (plains trees.now)) }
{
    match couple(trees) {
        Some((first, second)) => pair_of(alloc, first, second),
        None => Err(CodecFault::Form),
    }
}

#[cycle(spelled_value)]
fn values_from(alloc: Global, trees: &[Tree]) -> Result<Values, CodecFault>
    ensures { Finds (λ vs. vs) result (spelled_values (plains trees.now)) }
{
    let mut values = Values::new(alloc);
    for tree in trees {
        values.push(spelled_value(alloc, tree)?)?;
    }
    Ok(values)
}

/// The set of the values that trees spell, in any order and with repeats.
#[cycle(spelled_value)]
fn members_from(alloc: Global, trees: &[Tree]) -> Result<Members, CodecFault>
    ensures { Finds (λ vs. vs) result (option_map set_of (spelled_values (plains trees.now))) }
{
    let mut members = Members::new(alloc);
    for tree in trees {
        members.put(spelled_value(alloc, tree)?)?;
    }
    Ok(members)
}

#[cycle(spelled_value)]
fn entry_of(alloc: Global, key: &Tree, value: &Tree) -> Result<(Value, Value), CodecFault>
    ensures { Finds plain_entry result (both (λ k v. (k, v)) (spelled_value (plain_tree key.now)) (spelled_value (plain_tree value.now))) }
{
    let key = spelled_value(alloc, key)?;
    let value = spelled_value(alloc, value)?;
    Ok((key, value))
}

#[cycle(spelled_value)]
#[tactic(auto, using(crate::proofs::Lengths::lengths))]
fn entry_from(alloc: Global, trees: &[Tree]) -> Result<(Value, Value), CodecFault>
    ensures { Finds plain_entry result (key_and_value (plains trees.now)) }
{
    match couple(trees) {
        Some((key, value)) => entry_of(alloc, key, value),
        None => Err(CodecFault::Form),
    }
}

#[cycle(spelled_value)]
fn spelled_entry(alloc: Global, tree: &Tree) -> Result<(Value, Value), CodecFault>
    ensures { Finds plain_entry result (spelled_entry (plain_tree tree.now)) }
{
    match tree {
        Tree::Atom(_) => Err(CodecFault::Form),
        Tree::List(trees) => entry_from(alloc, trees.as_slice()),
    }
}

/// Adds an entry. `Form`: its key is there already.
fn add_entry(entries: &mut Entries, entry: (Value, Value)) -> Result<(), CodecFault>
    ensures { Finds (λ _. entries.new) result (with_entry entries.old (plain_entry entry)) }
{
    let (key, value) = entry;
    let known = entries.items().len();
    entries.put(key, value)?;
    if entries.len() == known {
        return Err(CodecFault::Form);
    }
    Ok(())
}

/// The map of the entries that trees spell, in any order, of which no two have one key.
#[cycle(spelled_value)]
fn entries_from(alloc: Global, trees: &[Tree]) -> Result<Entries, CodecFault>
    ensures { Finds (λ es. es) result (distinct_entries (spelled_entries (plains trees.now))) }
{
    let mut entries = Entries::new(alloc);
    for tree in trees {
        let entry = spelled_entry(alloc, tree)?;
        add_entry(&mut entries, entry)?;
    }
    Ok(entries)
}

/// What is read, if it is of the sort.
fn value_in_sort(alloc: Global, tree: &Tree, sort: &Sort) -> Result<Value, CodecFault>
    ensures { Gives plain result (value_reading (plain_sort sort.now) (plain_tree tree.now)) }
{
    let value = spelled_value(alloc, tree)?;
    if has_sort(&value, sort) {
        Ok(value)
    } else {
        Err(CodecFault::Form)
    }
}

/// The value of a sort that a tree spells: a number, `true`, `false`, a tag as `'red`, `(pair a b)`, `(set a ..)`, `(seq a ..)`
/// or `(map (k v) ..)`. Members and entries may stand in any order, and a member may be repeated.
///
/// # Errors
///
/// `Form`: the tree spells no value of the sort. A map with a key twice is none. `Memory`: memory is wanting.
pub fn value_of(alloc: Global, tree: &Tree, sort: &Sort) -> Result<Value, CodecFault>
    ensures reading { Gives plain result (value_reading (plain_sort sort.now) (plain_tree tree.now)) }
    ensures spelled { IfOk result (λ v. is_spelled_value (plain v) ≡ true) }
    // By what the tree spells, which no step of a reader defines.
    ensures told { TellsValue (plain_sort sort.now) (plain_tree tree.now) result }
    ensures read { (v : PlainValue) → Spells (plain_tree tree.now) v → has_sort (plain_sort sort.now) v ≡ true → IsReadAs v result }
{
    value_in_sort(alloc, tree, sort)
}
