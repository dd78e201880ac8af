//! The operators on sets.
ghost use Rattle.std.specs.Prelude.{◌≡◌, ◌≢◌, ◌∷◌, [], true, IfOk, map};
ghost use Rattle.kid_value.specs.ValueView.{plain};
ghost use Rattle.kid_value.specs.ValueSet.{set_of};
ghost use Rattle.kid_value.specs.Rows.Set as rows;
ghost use Rattle.kid_term.specs.SetRows.{set_value};
ghost use Rattle.kid_term.specs.Small.{op_small, members_small};
ghost use Rattle.kid_eval.specs.ScopeView.{plain_seen};

use crate::scope::{Seen, seen_value};
use kid_ops::set;
use kid_term::{Op, SetOp};
use kid_value::{Members, Memory, Value};
use std::alloc::Global;

/// What an operator on sets gives, and false at arguments of another kind or count.
pub fn set_row<'a>(alloc: Global, op: SetOp, values: &[Seen<'a>]) -> Result<Value, Memory>
    requires { op_small (Op.Set op) (map plain_seen values.now) ≡ true }
    ensures { IfOk result (λ v. plain v ≡ set_value op (map plain_seen values.now)) }
{
    match op {
        SetOp::Set => collected(alloc, values),
        _ => of_few(alloc, op, values),
    }
}

/// The set of the values.
fn collected<'a>(alloc: Global, values: &[Seen<'a>]) -> Result<Value, Memory>
    ensures { IfOk result (λ v. plain v ≡ rows.set_of_values (map plain_seen values.now)) }
{
    let members = members_of(alloc, values)?;
    Ok(Value::Set(members))
}

fn members_of<'a>(alloc: Global, values: &[Seen<'a>]) -> Result<Members, Memory>
    ensures { IfOk result (λ members. members ≡ set_of (map plain_seen values.now)) }
{
    let Some((seen, rest)) = values.split_first() else {
        return Ok(Members::new(alloc));
    };
    let mut members = members_of(alloc, rest)?;
    let member = seen_value(seen).copy(alloc)?;
    members.put(member)?;
    Ok(members)
}

fn of_few<'a>(alloc: Global, op: SetOp, values: &[Seen<'a>]) -> Result<Value, Memory>
    requires counted { op ≢ SetOp.Set }
    requires small { op_small (Op.Set op) (map plain_seen values.now) ≡ true }
    ensures { IfOk result (λ v. plain v ≡ set_value op (map plain_seen values.now)) }
{
    match values {
        [s] => Ok(of_one(op, seen_value(s))),
        [a, b] => of_two(alloc, op, seen_value(a), seen_value(b)),
        _ => Ok(Value::Bool(false)),
    }
}

fn of_one(op: SetOp, s: &Value) -> Value
    requires counted { op ≢ SetOp.Set }
    requires small { op_small (Op.Set op) (plain s.now ∷ []) ≡ true }
    ensures { plain result ≡ set_value op (plain s.now ∷ []) }
{
    match op {
        SetOp::Card => card(s),
        SetOp::Sum => sum(s),
        _ => Value::Bool(false),
    }
}

fn card(s: &Value) -> Value
    ensures { plain result ≡ rows.card (plain s.now) }
{
    match s {
        Value::Set(_) => Value::Int(set::card(s)),
        _ => Value::Bool(false),
    }
}

#[tactic(auto, using(crate::proofs::SumLemmas::small_members))]
fn sum(s: &Value) -> Value
    requires { members_small (plain s.now ∷ []) ≡ true }
    ensures { plain result ≡ rows.sum (plain s.now) }
{
    match s {
        Value::Set(_) => Value::Int(set::sum(s)),
        _ => Value::Bool(false),
    }
}

fn of_two(alloc: Global, op: SetOp, a: &Value, b: &Value) -> Result<Value, Memory>
    requires { op ≢ SetOp.Set }
    ensures { IfOk result (λ v. plain v ≡ set_value op (plain a.now ∷ plain b.now ∷ [])) }
{
    match op {
        SetOp::Range => range(alloc, a, b),
        SetOp::In => Ok(Value::Bool(set::member(a, b))),
        SetOp::Subset => Ok(Value::Bool(set::subset(a, b))),
        SetOp::Union => set::union(alloc, a, b),
        SetOp::With => set::with(alloc, a, b),
        SetOp::Inter => set::inter(alloc, a, b),
        SetOp::Diff => set::diff(alloc, a, b),
        SetOp::Without => set::without(alloc, a, b),
        SetOp::Least => set::least(alloc, a, b),
        _ => Ok(Value::Bool(false)),
    }
}

fn range(alloc: Global, a: &Value, b: &Value) -> Result<Value, Memory>
    ensures { IfOk result (λ v. plain v ≡ rows.range (plain a.now) (plain b.now)) }
{
    match (a, b) {
        (Value::Int(a), Value::Int(b)) => set::range(alloc, *a, *b),
        _ => Ok(Value::Bool(false)),
    }
}
