//! The operators on sequences.
ghost use Rattle.std.specs.Prelude.{◌≡◌, ◌≢◌, ◌∷◌, [], true, IfOk, map};
ghost use Rattle.kid_value.specs.ValueView.{plain};
ghost use Rattle.kid_value.specs.Rows.Seq as rows;
ghost use Rattle.kid_term.specs.SeqRows.{seq_value};
ghost use Rattle.kid_term.specs.Small.{op_small, items_small};
ghost use Rattle.kid_eval.specs.ScopeView.{plain_seen};

use crate::scope::{Seen, seen_value};
use kid_ops::seq;
use kid_term::{Op, SeqOp};
use kid_value::{Memory, Value, Values};
use std::alloc::Global;

/// What an operator on sequences gives, and false at arguments of another kind or count.
pub fn seq_row<'a>(alloc: Global, op: SeqOp, values: &[Seen<'a>]) -> Result<Value, Memory>
    requires { op_small (Op.Seq op) (map plain_seen values.now) ≡ true }
    ensures { IfOk result (λ v. plain v ≡ seq_value op (map plain_seen values.now)) }
{
    match op {
        SeqOp::Seq => collected(alloc, values),
        _ => of_few(alloc, op, values),
    }
}

/// The sequence of the values.
fn collected<'a>(alloc: Global, values: &[Seen<'a>]) -> Result<Value, Memory>
    ensures { IfOk result (λ v. plain v ≡ rows.sequence_of_values (map plain_seen values.now)) }
{
    let mut items = Values::new(alloc);
    for seen in values {
        items.push(seen_value(seen).copy(alloc)?)?;
    }
    Ok(Value::Seq(items))
}

fn of_few<'a>(alloc: Global, op: SeqOp, values: &[Seen<'a>]) -> Result<Value, Memory>
    requires counted { op ≢ SeqOp.Seq }
    requires small { op_small (Op.Seq op) (map plain_seen values.now) ≡ true }
    ensures { IfOk result (λ v. plain v ≡ seq_value op (map plain_seen values.now)) }
{
    match values {
        [v] => of_one(alloc, op, seen_value(v)),
        [v, x] => of_two(alloc, op, seen_value(v), seen_value(x)),
        [v, i, d] => of_three(alloc, op, seen_value(v), seen_value(i), seen_value(d)),
        _ => Ok(Value::Bool(false)),
    }
}

fn of_one(alloc: Global, op: SeqOp, v: &Value) -> Result<Value, Memory>
    requires counted { op ≢ SeqOp.Seq }
    requires small { op_small (Op.Seq op) (plain v.now ∷ []) ≡ true }
    ensures { IfOk result (λ r. plain r ≡ seq_value op (plain v.now ∷ [])) }
{
    match op {
        SeqOp::Len => Ok(len(v)),
        SeqOp::Items => seq::items(alloc, v),
        SeqOp::Total => Ok(total(v)),
        _ => Ok(Value::Bool(false)),
    }
}

fn len(v: &Value) -> Value
    ensures { plain result ≡ rows.len (plain v.now) }
{
    match v {
        Value::Seq(_) => Value::Int(seq::len(v)),
        _ => Value::Bool(false),
    }
}

#[tactic(auto, using(crate::proofs::SumLemmas::small_items))]
fn total(v: &Value) -> Value
    requires { items_small (plain v.now ∷ []) ≡ true }
    ensures { plain result ≡ rows.total (plain v.now) }
{
    match v {
        Value::Seq(_) => Value::Int(seq::total(v)),
        _ => Value::Bool(false),
    }
}

fn of_two(alloc: Global, op: SeqOp, v: &Value, x: &Value) -> Result<Value, Memory>
    requires { op ≢ SeqOp.Seq }
    ensures { IfOk result (λ r. plain r ≡ seq_value op (plain v.now ∷ plain x.now ∷ [])) }
{
    match op {
        SeqOp::Snoc => seq::snoc(alloc, v, x),
        SeqOp::Rest => rest(alloc, v, x),
        SeqOp::Prefix => Ok(Value::Bool(seq::prefix(v, x))),
        _ => Ok(Value::Bool(false)),
    }
}

fn rest(alloc: Global, v: &Value, count: &Value) -> Result<Value, Memory>
    ensures { IfOk result (λ r. plain r ≡ rows.rest (plain v.now) (plain count.now)) }
{
    match (v, count) {
        (Value::Seq(_), Value::Int(n)) => seq::rest(alloc, v, *n),
        _ => Ok(Value::Bool(false)),
    }
}

fn of_three(alloc: Global, op: SeqOp, v: &Value, place: &Value, d: &Value) -> Result<Value, Memory>
    requires { op ≢ SeqOp.Seq }
    ensures { IfOk result (λ r. plain r ≡ seq_value op (plain v.now ∷ plain place.now ∷ plain d.now ∷ [])) }
{
    match op {
        SeqOp::At => at(alloc, v, place, d),
        _ => Ok(Value::Bool(false)),
    }
}

fn at(alloc: Global, v: &Value, place: &Value, d: &Value) -> Result<Value, Memory>
    ensures { IfOk result (λ r. plain r ≡ rows.at (plain v.now) (plain place.now) (plain d.now)) }
{
    match (v, place) {
        (Value::Seq(_), Value::Int(n)) => seq::at(alloc, v, *n, d),
        _ => Ok(Value::Bool(false)),
    }
}
