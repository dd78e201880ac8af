//! The operators on sets. Where an argument is of another kind than the operator takes, the
//! answer is false.
ghost use Rattle.std.specs.Prelude.{◌≡◌, ◌+ℤ◌, IfOk, length, map, pos, true};
ghost use Rattle.kid_value.specs.Contents.{IsSet};
ghost use Rattle.kid_value.specs.SortLimits.{in_limits};
ghost use Rattle.kid_value.specs.SortCount.{interval_count};
ghost use Rattle.kid_value.specs.PlainValue.{int, bool};
ghost use Rattle.kid_value.specs.Rows.Parts.{number_of, total};
ghost use Rattle.kid_value.specs.Rows.Set as rows;
ghost use Rattle.kid_value.specs.Rows.Sums.{sums_small};
ghost use Rattle.kid_value.specs.ValueSet as lists;
ghost use Rattle.kid_value.specs.ValueSet.{Ascends, set_of};
ghost use Rattle.kid_value.specs.ValueView.{plain};
ghost use Rattle.kid_ops.specs.Chosen.{chosen};
ghost use Rattle.kid_ops.specs.Sums.{HasSmallSums};

use crate::merge;
use kid_value::{Members, Memory, Value, Values};
use std::alloc::Global;
use std::slice;

/// The set of the values.
pub fn set(alloc: Global, values: &Values) -> Result<Value, Memory>
    ensures { IfOk result (λ v. plain v ≡ rows.set_of_values values.now) }
{
    let members = members_among(alloc, values.items())?;
    Ok(Value::Set(members))
}

/// The set of the values in any order.
pub(crate) fn members_among(alloc: Global, values: &[Value]) -> Result<Members, Memory>
    ensures { IfOk result (λ m. m ≡ set_of (map plain values.now)) }
{
    let mut members = Members::new(alloc);
    let mut left = values;
    while let Some((last, earlier)) = left.split_last() {
        members.put(last.copy(alloc)?)?;
        left = earlier;
    }
    Ok(members)
}

/// Whether the set has the value.
#[tactic(auto, using(kid_value::proofs::RowLemmas::items_row))]
pub fn member(x: &Value, s: &Value) -> bool
    ensures { bool result ≡ rows.member (plain x.now) (plain s.now) }
{
    match s {
        Value::Set(members) => members.contains(x),
        _ => false,
    }
}

/// Whether each member of the first set is in the second.
#[tactic(auto, using(kid_value::proofs::RowLemmas::items_row))]
pub fn subset(s: &Value, t: &Value) -> bool
    ensures { bool result ≡ rows.subset (plain s.now) (plain t.now) }
{
    match (s, t) {
        (Value::Set(xs), Value::Set(ys)) => merge::is_subset(xs.items(), ys.items()),
        _ => false,
    }
}

/// The members of either set.
#[tactic(auto, using(kid_value::proofs::RowLemmas::items_row))]
pub fn union(alloc: Global, s: &Value, t: &Value) -> Result<Value, Memory>
    ensures { IfOk result (λ v. plain v ≡ rows.union (plain s.now) (plain t.now)) }
{
    match (s, t) {
        (Value::Set(xs), Value::Set(ys)) => {
            let members = either(alloc, xs, ys)?;
            Ok(Value::Set(members))
        }
        _ => Ok(Value::Bool(false)),
    }
}

fn either(alloc: Global, xs: &Members, ys: &Members) -> Result<Members, Memory>
    ensures { IfOk result (λ m. m ≡ lists.union xs.now ys.now) }
{
    let values = merge::merge(alloc, xs.items(), ys.items())?;
    Ok(Members::from_ascending(values))
}

/// The set with one more member.
#[tactic(auto, using(kid_value::proofs::RowLemmas::items_row))]
pub fn with(alloc: Global, x: &Value, s: &Value) -> Result<Value, Memory>
    ensures { IfOk result (λ v. plain v ≡ rows.with (plain x.now) (plain s.now)) }
{
    match s.copy(alloc)? {
        Value::Set(mut members) => {
            members.put(x.copy(alloc)?)?;
            Ok(Value::Set(members))
        }
        _ => Ok(Value::Bool(false)),
    }
}

/// The members that both sets have.
#[tactic(auto, using(kid_value::proofs::RowLemmas::items_row))]
pub fn inter(alloc: Global, s: &Value, t: &Value) -> Result<Value, Memory>
    ensures { IfOk result (λ v. plain v ≡ rows.inter (plain s.now) (plain t.now)) }
{
    match (s, t) {
        (Value::Set(xs), Value::Set(ys)) => {
            let members = chosen_members(alloc, xs, ys.items(), true)?;
            Ok(Value::Set(members))
        }
        _ => Ok(Value::Bool(false)),
    }
}

/// The members of the first set that the second lacks.
#[tactic(auto, using(kid_value::proofs::RowLemmas::items_row))]
pub fn diff(alloc: Global, s: &Value, t: &Value) -> Result<Value, Memory>
    ensures { IfOk result (λ v. plain v ≡ rows.diff (plain s.now) (plain t.now)) }
{
    match (s, t) {
        (Value::Set(xs), Value::Set(ys)) => {
            let members = chosen_members(alloc, xs, ys.items(), false)?;
            Ok(Value::Set(members))
        }
        _ => Ok(Value::Bool(false)),
    }
}

/// The set without a member.
#[tactic(auto, using(kid_value::proofs::RowLemmas::items_row, crate::proofs::MergeLemmas::chosen_others))]
pub fn without(alloc: Global, x: &Value, s: &Value) -> Result<Value, Memory>
    ensures { IfOk result (λ v. plain v ≡ rows.without (plain x.now) (plain s.now)) }
{
    match s {
        Value::Set(members) => {
            let members = chosen_members(alloc, members, slice::from_ref(x), false)?;
            Ok(Value::Set(members))
        }
        _ => Ok(Value::Bool(false)),
    }
}

/// The members that are among ascending values, or, where `present` is false, those that are not.
fn chosen_members(
    alloc: Global,
    members: &Members,
    values: &[Value],
    present: bool,
) -> Result<Members, Memory>
    requires { Ascends (map plain values.now) }
    ensures { IfOk result (λ m. m ≡ chosen present members.now (map plain values.now)) }
{
    let values = merge::choose(alloc, members.items(), values, present)?;
    Ok(Members::from_ascending(values))
}

/// The set of the numbers from `a` to `b`.
pub fn range(alloc: Global, a: i64, b: i64) -> Result<Value, Memory>
    ensures { IfOk result (λ v. plain v ≡ rows.range (int a) (int b)) }
{
    let values = numbers(alloc, a, b)?;
    Ok(Value::Set(Members::from_ascending(values)))
}

fn numbers(alloc: Global, a: i64, b: i64) -> Result<Values, Memory>
    ensures { IfOk result (λ v. v ≡ rows.numbers a (interval_count a b)) }
{
    let mut values = Values::new(alloc);
    for n in a..=b {
        values.push(Value::Int(n))?;
    }
    Ok(values)
}

/// The number of members of a set.
#[tactic(auto, using(kid_value::proofs::RowLemmas::items_row))]
pub fn card(s: &Value) -> i64
    requires { IsSet (plain s.now) }
    ensures { int result ≡ rows.card (plain s.now) }
{
    match s {
        Value::Set(members) => count(members.items()),
        _ => 0,
    }
}

pub(crate) fn count(values: &[Value]) -> i64
    ensures { result ≡ pos (length (map plain values.now)) }
{
    values.len() as i64
}

/// The sum of the members of a set, of which each that is no integer counts as 0.
#[tactic(auto, using(kid_value::proofs::RowLemmas::items_row))]
pub fn sum(s: &Value) -> i64
    requires kind { IsSet (plain s.now) }
    requires small { HasSmallSums (plain s.now) }
    ensures { int result ≡ rows.sum (plain s.now) }
{
    match s {
        Value::Set(members) => total_of(members.items()),
        _ => 0,
    }
}

/// The sum of the values, of which each that is no integer counts as 0.
pub(crate) fn total_of(values: &[Value]) -> i64
    requires { sums_small (pos 0) (map plain values.now) ≡ true }
    ensures { result ≡ total (map plain values.now) }
{
    let mut sum: i64 = 0;
    for v in values {
        sum = added(&sum, v);
    }
    sum
}

/// The sum with one more value.
fn added(sum: &i64, v: &Value) -> i64
    requires { in_limits (sum.now +ℤ number_of (plain v.now)) ≡ true }
    ensures { result ≡ sum.now +ℤ number_of (plain v.now) }
{
    match v {
        Value::Int(n) => *sum + *n,
        _ => *sum,
    }
}

/// The least member of a set, or `d` where it is empty.
#[tactic(auto, using(kid_value::proofs::RowLemmas::items_row))]
pub fn least(alloc: Global, s: &Value, d: &Value) -> Result<Value, Memory>
    ensures { IfOk result (λ v. plain v ≡ rows.least (plain s.now) (plain d.now)) }
{
    match s {
        Value::Set(members) => first_or(members.items(), d).copy(alloc),
        _ => Ok(Value::Bool(false)),
    }
}

pub(crate) fn first_or<'a>(values: &'a [Value], d: &'a Value) -> &'a Value
    ensures { plain result.now ≡ rows.first_or (map plain values.now) (plain d.now) }
{
    match values.first() {
        Some(first) => first,
        None => d,
    }
}
