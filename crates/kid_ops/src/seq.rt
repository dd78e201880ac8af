//! The operators on sequences, whose places count from 1. Where an argument is of another kind
//! than the operator takes, the answer is false.
ghost use Rattle.std.specs.Prelude.{◌≡◌, ◌++◌, IfOk, OnOk, map, drop};
ghost use Rattle.kid_value.specs.Contents.{IsSequence};
ghost use Rattle.kid_value.specs.PlainValue.{int, bool};
ghost use Rattle.kid_value.specs.Rows.Kinds.{natural as natural_of};
ghost use Rattle.kid_value.specs.Rows.Seq as rows;
ghost use Rattle.kid_value.specs.ValueView.{plain};
ghost use Rattle.kid_ops.specs.Items.{item_from_one};
ghost use Rattle.kid_ops.specs.Sums.{HasSmallSums};

use crate::set::{count, members_among, total_of};
use kid_value::{Memory, Value, Values, cmp};
use std::alloc::Global;

/// The sequence of the values.
pub fn seq(alloc: Global, values: &Values) -> Result<Value, Memory>
    ensures { IfOk result (λ v. plain v ≡ rows.sequence_of_values values.now) }
{
    let items = copied(alloc, values.items())?;
    Ok(Value::Seq(items))
}

pub(crate) fn copied(alloc: Global, values: &[Value]) -> Result<Values, Memory>
    ensures { IfOk result (λ v. v ≡ map plain values.now) }
{
    let mut copies = Values::new(alloc);
    copy_onto(alloc, &mut copies, values)?;
    Ok(copies)
}

/// Adds copies of the values at the end. Where memory is wanting, some may have been added.
pub(crate) fn copy_onto(alloc: Global, copies: &mut Values, values: &[Value]) -> Result<(), Memory>
    ensures { OnOk result (copies.new ≡ copies.old ++ map plain values.now) }
{
    for v in values {
        copies.push(v.copy(alloc)?)?;
    }
    Ok(())
}

/// The number of items of a sequence.
#[tactic(auto, using(kid_value::proofs::RowLemmas::items_row))]
pub fn len(s: &Value) -> i64
    requires { IsSequence (plain s.now) }
    ensures { int result ≡ rows.len (plain s.now) }
{
    match s {
        Value::Seq(items) => count(items.items()),
        _ => 0,
    }
}

/// The item at a place, or `d` where the sequence has no such place.
#[tactic(auto, using(kid_value::proofs::RowLemmas::items_row, crate::proofs::ItemLemmas::item_at_natural))]
pub fn at(alloc: Global, s: &Value, place: i64, d: &Value) -> Result<Value, Memory>
    ensures { IfOk result (λ v. plain v ≡ rows.at (plain s.now) (int place) (plain d.now)) }
{
    match s {
        Value::Seq(items) => item_or(items.items(), natural(place), d).copy(alloc),
        _ => Ok(Value::Bool(false)),
    }
}

fn item_or<'a>(items: &'a [Value], place: usize, d: &'a Value) -> &'a Value
    ensures { plain result.now ≡ item_from_one (map plain items.now) place (plain d.now) }
{
    if place == 0 {
        return d;
    }
    match items.get(place - 1) {
        Some(item) => item,
        None => d,
    }
}

/// The sequence with one more item at its end.
#[tactic(auto, using(kid_value::proofs::RowLemmas::items_row))]
pub fn snoc(alloc: Global, s: &Value, x: &Value) -> Result<Value, Memory>
    ensures { IfOk result (λ v. plain v ≡ rows.snoc (plain s.now) (plain x.now)) }
{
    match s.copy(alloc)? {
        Value::Seq(mut items) => {
            items.push(x.copy(alloc)?)?;
            Ok(Value::Seq(items))
        }
        _ => Ok(Value::Bool(false)),
    }
}

/// The sequence without its first `count` items, and the whole where the count is negative.
#[tactic(auto, using(kid_value::proofs::RowLemmas::items_row))]
pub fn rest(alloc: Global, s: &Value, count: i64) -> Result<Value, Memory>
    ensures { IfOk result (λ v. plain v ≡ rows.rest (plain s.now) (int count)) }
{
    match s {
        Value::Seq(items) => {
            let items = copied_after(alloc, items, natural(count))?;
            Ok(Value::Seq(items))
        }
        _ => Ok(Value::Bool(false)),
    }
}

/// The number, and 0 for a negative one.
pub(crate) fn natural(n: i64) -> usize
    ensures { result ≡ natural_of n }
{
    if n < 0 { 0 } else { n as usize }
}

fn copied_after(alloc: Global, values: &Values, count: usize) -> Result<Values, Memory>
    ensures { IfOk result (λ v. v ≡ drop count values.now) }
{
    copied(alloc, after(values.items(), count))
}

fn after(values: &[Value], count: usize) -> &[Value]
    ensures { result.now ≡ drop count values.now }
{
    if count < values.len() {
        &values[count..]
    } else {
        &[]
    }
}

/// The set of the items.
#[tactic(auto, using(kid_value::proofs::RowLemmas::items_row))]
pub fn items(alloc: Global, s: &Value) -> Result<Value, Memory>
    ensures { IfOk result (λ v. plain v ≡ rows.items (plain s.now)) }
{
    match s {
        Value::Seq(items) => {
            let members = members_among(alloc, items.items())?;
            Ok(Value::Set(members))
        }
        _ => Ok(Value::Bool(false)),
    }
}

/// The sum of the items of a sequence, of which each that is no integer counts as 0.
#[tactic(auto, using(kid_value::proofs::RowLemmas::items_row))]
pub fn total(s: &Value) -> i64
    requires kind { IsSequence (plain s.now) }
    requires small { HasSmallSums (plain s.now) }
    ensures { int result ≡ rows.total (plain s.now) }
{
    match s {
        Value::Seq(items) => total_of(items.items()),
        _ => 0,
    }
}

/// Whether the second sequence begins with the first.
#[tactic(auto, using(kid_value::proofs::RowLemmas::items_row))]
pub fn prefix(s: &Value, t: &Value) -> bool
    ensures { bool result ≡ rows.prefix (plain s.now) (plain t.now) }
{
    match (s, t) {
        (Value::Seq(xs), Value::Seq(ys)) => begins_with(ys.items(), xs.items()),
        _ => false,
    }
}

fn begins_with(values: &[Value], start: &[Value]) -> bool
    ensures { result ≡ rows.is_prefix (map plain start.now) (map plain values.now) }
{
    let mut left = values;
    for x in start {
        let Some((first, later)) = left.split_first() else {
            return false;
        };
        if !cmp(x, first).is_eq() {
            return false;
        }
        left = later;
    }
    true
}
