ghost use Rattle.std.specs.Prelude.{◌≡◌, ◌↔◌};
ghost use Rattle.std.specs.Cmp.Lexicographic.{slice_cmp};
ghost use Rattle.kid_value.specs.ItemOrder.{in_sequences, in_sets, in_maps};
ghost use Rattle.std.specs.Cmp.{IsTotalOrder};
ghost use Rattle.kid_value.specs.StrictOrder.{IsBefore};
ghost use Rattle.kid_value.specs.ValueOrder.{kind_rank as rank_of, value_cmp};
ghost use Rattle.kid_value.specs.ValueView.{plain};

use crate::value::Value;
use std::cmp::Ordering;

/// The order of values, which is total. Kinds go in the order of `Value`'s variants.
pub fn cmp(a: &Value, b: &Value) -> Ordering
    ensures value { result ≡ value_cmp (plain a.now) (plain b.now) }
    ensures less { (result ≡ Ordering.Less) ↔ IsBefore (plain a.now) (plain b.now) }
    ensures equal { (result ≡ Ordering.Equal) ↔ (plain a.now ≡ plain b.now) }
    ensures greater { (result ≡ Ordering.Greater) ↔ IsBefore (plain b.now) (plain a.now) }
    ensures total { IsTotalOrder value_cmp }
{
    a.canonical();
    b.canonical();
    compare(a, b)
}

/// The order, part by part.
#[cycle(compare)]
#[tactic(auto, using(crate::proofs::CompareLemmas::seq_cmp_slices, crate::proofs::CompareLemmas::set_cmp_slices, crate::proofs::CompareLemmas::map_cmp_slices))]
pub(crate) fn compare(a: &Value, b: &Value) -> Ordering
    ensures { result ≡ value_cmp (plain a.now) (plain b.now) }
{
    match (a, b) {
        (Value::Int(m), Value::Int(n)) => m.cmp(n),
        (Value::Bool(m), Value::Bool(n)) => m.cmp(n),
        (Value::Pair(a, b), Value::Pair(c, d)) => match compare(&a.inner, &c.inner) {
            Ordering::Equal => compare(&b.inner, &d.inner),
            other => other,
        },
        (Value::Set(v), Value::Set(w)) => compare_sets(&v.items, &w.items),
        (Value::Seq(v), Value::Seq(w)) => compare_sequences(&v.items, &w.items),
        (Value::Map(m), Value::Map(n)) => compare_maps(&m.items, &n.items),
        (Value::Tag(m), Value::Tag(n)) => m.cmp(n),
        _ => kind_rank(a).cmp(&kind_rank(b)),
    }
}

fn kind_rank(v: &Value) -> u8
    ensures { result ≡ rank_of (plain v.now) }
{
    match v {
        Value::Int(_) => 0,
        Value::Bool(_) => 1,
        Value::Pair(_, _) => 2,
        Value::Set(_) => 3,
        Value::Seq(_) => 4,
        Value::Map(_) => 5,
        Value::Tag(_) => 6,
    }
}

#[cycle(compare)]
fn compare_sequences(a: &[Value], b: &[Value]) -> Ordering
    ensures { result ≡ slice_cmp in_sequences a.now b.now }
{
    for (i, x) in a.iter().enumerate() {
        if i >= b.len() {
            return Ordering::Greater;
        }
        let order = compare(x, &b[i]);
        if order.is_ne() {
            return order;
        }
    }
    if a.len() < b.len() {
        Ordering::Less
    } else {
        Ordering::Equal
    }
}

#[cycle(compare)]
fn compare_sets(a: &[Value], b: &[Value]) -> Ordering
    ensures { result ≡ slice_cmp in_sets a.now b.now }
{
    for (i, x) in a.iter().enumerate() {
        if i >= b.len() {
            return Ordering::Greater;
        }
        let order = compare(x, &b[i]);
        if order.is_ne() {
            return order.reverse();
        }
    }
    if a.len() < b.len() {
        Ordering::Less
    } else {
        Ordering::Equal
    }
}

#[cycle(compare)]
fn compare_maps(a: &[(Value, Value)], b: &[(Value, Value)]) -> Ordering
    ensures { result ≡ slice_cmp in_maps a.now b.now }
{
    for (i, x) in a.iter().enumerate() {
        if i >= b.len() {
            return Ordering::Greater;
        }
        let y = &b[i];
        let by_key = compare(&x.0, &y.0);
        if by_key.is_ne() {
            return by_key.reverse();
        }
        let by_value = compare(&x.1, &y.1);
        if by_value.is_ne() {
            return by_value;
        }
    }
    if a.len() < b.len() {
        Ordering::Less
    } else {
        Ordering::Equal
    }
}
