//! The operators on words and rows. A word stands for a set of the numbers from `lo` on by its
//! bits, and a row for a map of such keys by its items. Where an argument is of another kind than
//! the operator takes, the answer is false.
ghost use Rattle.std.specs.Prelude.{◌≡◌, ◌-ℤ◌, ◌^◌, ◌<◌, ◌≤◌, IfOk, MatchOption, None, Some, length, map, pos, set, true, unwrap_or};
ghost use Rattle.std.specs.List.{range_with_len};
ghost use Rattle.kid_value.specs.Contents.{IsSet};
ghost use Rattle.kid_value.specs.SortLimits.{in_limits};
ghost use Rattle.kid_value.specs.PlainValue.{int, bool};
ghost use Rattle.kid_value.specs.Rows.Kinds.{natural as natural_of};
ghost use Rattle.kid_value.specs.Rows.Parts.{number_of};
ghost use Rattle.kid_value.specs.Rows.Word as rows;
ghost use Rattle.kid_value.specs.ValueMap.{lookup};
ghost use Rattle.kid_value.specs.ValueView.{plain};
ghost use Rattle.kid_value.specs.ValueSet.{is_member};
ghost use Rattle.kid_ops.specs.Bits.{first_place};
ghost use Rattle.kid_ops.specs.RowItems.{value_of_row, row_with};
ghost use Rattle.kid_ops.specs.Kinds.{item_count};

use crate::seq::{copied, copy_onto, natural};
use crate::set::first_or;
use kid_value::{Entries, Members, Memory, Value, Values};
use std::alloc::Global;

/// The bits that one of two words has.
pub fn wor(r: i64, s: i64) -> i64
    ensures { int result ≡ rows.wor (int r) (int s) }
{
    lowest_bits(natural(r) | natural(s), 62)
}

/// The bits that both words have.
pub fn wand(r: i64, s: i64) -> i64
    ensures { int result ≡ rows.wand (int r) (int s) }
{
    lowest_bits(natural(r) & natural(s), 62)
}

/// The bits of the first word that the second lacks.
pub fn wnot(r: i64, s: i64) -> i64
    ensures { int result ≡ rows.wnot (int r) (int s) }
{
    lowest_bits(natural(r) & !natural(s), 62)
}

fn lowest_bits(bits: usize, size: usize) -> i64
    requires { size ≤ 62 }
    ensures { result ≡ pos (rows.word_of (rows.has_bit bits) size) }
{
    (bits & ((1 << size) - 1)) as i64
}

/// The number of bits of a word.
pub fn wcard(r: i64) -> i64
    ensures { int result ≡ rows.wcard (int r) }
{
    count_bits(natural(r), 62) as i64
}

fn count_bits(word: usize, size: usize) -> usize
    ensures count { result ≡ length (rows.bits_below size word) }
    ensures most { result ≤ size }
{
    let mut count = 0;
    for i in 0..size {
        if has_bit(word, i) {
            count += 1;
        }
    }
    count
}

/// Whether the set that the word stands for has `a`.
pub fn win(lo: i64, a: i64, r: i64) -> bool
    ensures { bool result ≡ rows.win (int lo) (int a) (int r) }
{
    match place_above(a, lo) {
        None => false,
        Some(place) => has_bit(natural(r), place),
    }
}

/// How far `a` is above `lo`, or `None` where it is below.
fn place_above(a: i64, lo: i64) -> Option<usize>
    ensures { result ≡ rows.place_above (a -ℤ lo) }
{
    if a < lo {
        None
    } else {
        Some(a.abs_diff(lo) as usize)
    }
}

fn has_bit(word: usize, place: usize) -> bool
    ensures { result ≡ rows.has_bit word place }
{
    if place >= 64 {
        return false;
    }
    (word >> place) & 1 == 1
}

/// The least number of the set that the word stands for, or `d` where it is empty. It asks that
/// `lo` lies within the limits.
pub fn wleast(lo: i64, d: i64, r: i64) -> i64
    requires { in_limits lo ≡ true }
    ensures { int result ≡ rows.wleast (int lo) (int d) (int r) }
{
    match lowest_bit(natural(r), 62) {
        None => d,
        Some(place) => number_at(lo, place),
    }
}

/// The lowest bit below a place that the word has.
fn lowest_bit(word: usize, size: usize) -> Option<usize>
    ensures bit { result ≡ first_place (rows.bits_below size word) }
    ensures below { MatchOption result (Unit {0}) (λ i. i < size) }
{
    for i in 0..size {
        if has_bit(word, i) {
            return Some(i);
        }
    }
    None
}

/// The number that stands at a bit or an item.
fn number_at(lo: i64, place: usize) -> i64
    requires limits { in_limits lo ≡ true }
    requires place { place < 2 ^ 62 }
    ensures { int result ≡ rows.key_at lo place }
{
    lo + place as i64
}

/// The word of the set's numbers among the `k` from `lo` on. It asks that `lo` lies within the
/// limits.
pub fn wenc(lo: i64, k: i64, s: &Value) -> i64
    requires kind { IsSet (plain s.now) }
    requires limits { in_limits lo ≡ true }
    requires small { in_limits (number_of (rows.wenc (int lo) (int k) (plain s.now))) ≡ true }
    ensures { int result ≡ rows.wenc (int lo) (int k) (plain s.now) }
{
    match s {
        Value::Set(members) => word_for(members, lo, natural(k)),
        _ => 0,
    }
}

fn word_for(members: &Members, lo: i64, size: usize) -> i64
    requires limits { in_limits lo ≡ true }
    requires small { rows.word_of (λ i. is_member (rows.key_at lo i) members.now) size ≤ 2 ^ 62 }
    ensures { result ≡ pos (rows.word_of (λ i. is_member (rows.key_at lo i) members.now) size) }
{
    bits_for(members, lo, size.min(63)) as i64
}

fn bits_for(members: &Members, lo: i64, size: usize) -> usize
    requires limits { in_limits lo ≡ true }
    requires size { size ≤ 63 }
    ensures { result ≡ rows.word_of (λ i. is_member (rows.key_at lo i) members.now) size }
{
    let mut word = 0;
    for i in 0..size {
        if members.contains(&Value::Int(number_at(lo, i))) {
            word += 1 << i;
        }
    }
    word
}

/// The set that the lowest `k` bits of a word stand for. It asks that `lo` lies within the limits.
pub fn wdec(alloc: Global, lo: i64, k: i64, r: i64) -> Result<Value, Memory>
    requires { in_limits lo ≡ true }
    ensures { IfOk result (λ v. plain v ≡ rows.wdec (int lo) (int k) (int r)) }
{
    let members = numbers_of(alloc, lo, natural(k), natural(r))?;
    Ok(Value::Set(members))
}

fn numbers_of(alloc: Global, lo: i64, size: usize, word: usize) -> Result<Members, Memory>
    requires limits { in_limits lo ≡ true }
    requires word { word < 2 ^ 63 }
    ensures { IfOk result (λ m. m ≡ map (rows.key_at lo) (rows.bits_below size word)) }
{
    let values = numbers_below(alloc, lo, size.min(63), word)?;
    Ok(Members::from_ascending(values))
}

fn numbers_below(alloc: Global, lo: i64, size: usize, word: usize) -> Result<Values, Memory>
    requires limits { in_limits lo ≡ true }
    requires size { size ≤ 63 }
    ensures { IfOk result (λ v. v ≡ map (rows.key_at lo) (rows.bits_below size word)) }
{
    let mut values = Values::new(alloc);
    for i in 0..size {
        if has_bit(word, i) {
            values.push(Value::Int(number_at(lo, i)))?;
        }
    }
    Ok(values)
}

/// The row of the values that the map has at the `n` numbers from `lo` on. It asks that `lo` and
/// `n` lie within the limits.
#[tactic(auto, using(kid_value::proofs::RowLemmas::entries_table))]
pub fn renc(alloc: Global, lo: i64, n: i64, m: &Value) -> Result<Value, Memory>
    requires first { in_limits lo ≡ true }
    requires count { in_limits n ≡ true }
    ensures { IfOk result (λ v. plain v ≡ rows.renc (int lo) (int n) (plain m.now)) }
{
    match m {
        Value::Map(entries) => {
            let items = row_of(alloc, lo, natural(n), entries)?;
            Ok(Value::Seq(items))
        }
        _ => Ok(Value::Bool(false)),
    }
}

fn row_of(alloc: Global, lo: i64, size: usize, entries: &Entries) -> Result<Values, Memory>
    requires limits { in_limits lo ≡ true }
    requires size { size ≤ 2 ^ 62 }
    ensures { IfOk result (λ v. v ≡ map (λ i. rows.row_item (lookup (rows.key_at lo i) entries.now)) (range_with_len 0 size)) }
{
    let mut items = Values::new(alloc);
    for i in 0..size {
        items.push(row_item(alloc, entries, &Value::Int(number_at(lo, i)))?)?;
    }
    Ok(items)
}

/// The item of a row for a key of a map.
fn row_item(alloc: Global, entries: &Entries, key: &Value) -> Result<Value, Memory>
    ensures { IfOk result (λ v. plain v ≡ rows.row_item (lookup (plain key.now) entries.now)) }
{
    let mut item = Values::new(alloc);
    match entries.get(key) {
        None => Ok(Value::Seq(item)),
        Some(v) => {
            item.push(v.copy(alloc)?)?;
            Ok(Value::Seq(item))
        }
    }
}

/// The map of the row's values by their keys. It asks that `lo` lies within the limits, and that
/// there are at most 2^62 items.
#[tactic(auto, using(kid_value::proofs::RowLemmas::items_row))]
pub fn rdec(alloc: Global, lo: i64, row: &Value) -> Result<Value, Memory>
    requires first { in_limits lo ≡ true }
    requires count { item_count (plain row.now) ≤ 2 ^ 62 }
    ensures { IfOk result (λ v. plain v ≡ rows.rdec (int lo) (plain row.now)) }
{
    match row {
        Value::Seq(items) => {
            let entries = entries_of(alloc, lo, items.items())?;
            Ok(Value::Map(entries))
        }
        _ => Ok(Value::Bool(false)),
    }
}

fn entries_of(alloc: Global, lo: i64, items: &[Value]) -> Result<Entries, Memory>
    requires first { in_limits lo ≡ true }
    requires count { length items.now ≤ 2 ^ 62 }
    ensures { IfOk result (λ e. e ≡ rows.row_entries lo (map plain items.now)) }
{
    let mut entries = Entries::new(alloc);
    for (i, item) in items.iter().enumerate() {
        if let Some(v) = value_held(item) {
            let value = v.copy(alloc)?;
            entries.push(Value::Int(number_at(lo, i)), value)?;
        }
    }
    Ok(entries)
}

fn value_held(item: &Value) -> Option<&Value>
    ensures { MatchOption result (rows.item_value (plain item.now) ≡ None) (λ v. rows.item_value (plain item.now) ≡ Some (plain v.now)) }
{
    match item {
        Value::Seq(values) => values.items().first(),
        _ => None,
    }
}

/// The value that a row has at the key `a`, or `d` where it has none.
#[tactic(auto, using(kid_value::proofs::RowLemmas::items_row))]
pub fn rget(alloc: Global, lo: i64, row: &Value, a: i64, d: &Value) -> Result<Value, Memory>
    ensures { IfOk result (λ v. plain v ≡ rows.rget (int lo) (plain row.now) (int a) (plain d.now)) }
{
    match row {
        Value::Seq(items) => value_at(items.items(), place_above(a, lo), d).copy(alloc),
        _ => Ok(Value::Bool(false)),
    }
}

fn value_at<'a>(items: &'a [Value], place: Option<usize>, d: &'a Value) -> &'a Value
    ensures { plain result.now ≡ value_of_row (map plain items.now) place (plain d.now) }
{
    match place {
        None => d,
        Some(place) => match items.get(place) {
            None => d,
            Some(item) => value_in(item, d),
        },
    }
}

#[tactic(auto, using(kid_value::proofs::RowLemmas::items_row))]
fn value_in<'a>(item: &'a Value, d: &'a Value) -> &'a Value
    ensures { plain result.now ≡ unwrap_or (rows.item_value (plain item.now)) (plain d.now) }
{
    match item {
        Value::Seq(values) => first_or(values.items(), d),
        _ => d,
    }
}

/// The row with the value at the key `a`, and the same row where it has no such key.
pub fn rput(alloc: Global, lo: i64, row: &Value, a: i64, x: &Value) -> Result<Value, Memory>
    ensures { IfOk result (λ v. plain v ≡ rows.rput (int lo) (plain row.now) (int a) (plain x.now)) }
{
    let mut item = Values::new(alloc);
    item.push(x.copy(alloc)?)?;
    with_item(alloc, row, place_above(a, lo), Value::Seq(item))
}

/// The row without a value at the key `a`.
pub fn rdrop(alloc: Global, lo: i64, row: &Value, a: i64) -> Result<Value, Memory>
    ensures { IfOk result (λ v. plain v ≡ rows.rdrop (int lo) (plain row.now) (int a)) }
{
    let item = Values::new(alloc);
    with_item(alloc, row, place_above(a, lo), Value::Seq(item))
}

#[tactic(auto, using(kid_value::proofs::RowLemmas::items_row))]
fn with_item(alloc: Global, row: &Value, place: Option<usize>, item: Value) -> Result<Value, Memory>
    ensures { IfOk result (λ v. plain v ≡ row_with (plain row.now) place (plain item)) }
{
    match row {
        Value::Seq(items) => {
            let items = replaced(alloc, items.items(), place, item)?;
            Ok(Value::Seq(items))
        }
        _ => Ok(Value::Bool(false)),
    }
}

/// The items with another at a place, where there is such a place.
fn replaced(
    alloc: Global,
    items: &[Value],
    place: Option<usize>,
    item: Value,
) -> Result<Values, Memory>
    ensures { IfOk result (λ v. v ≡ rows.item_set (map plain items.now) place (plain item)) }
{
    match place {
        Some(place) if place < items.len() => exchanged(alloc, items, place, item),
        _ => copied(alloc, items),
    }
}

fn exchanged(alloc: Global, items: &[Value], place: usize, item: Value) -> Result<Values, Memory>
    requires { place < length items.now }
    ensures { IfOk result (λ v. v ≡ set (map plain items.now) place (plain item)) }
{
    let mut values = copied(alloc, &items[..place])?;
    values.push(item)?;
    copy_onto(alloc, &mut values, &items[place + 1..])?;
    Ok(values)
}
