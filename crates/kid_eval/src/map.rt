//! The operators on maps.
ghost use Rattle.std.specs.Prelude.{◌≡◌, ◌∷◌, [], IfOk, map as mapped};
ghost use Rattle.kid_value.specs.ValueView.{plain};
ghost use Rattle.kid_term.specs.MapRows.{map_value};
ghost use Rattle.kid_eval.specs.ScopeView.{plain_seen};

use crate::scope::{Seen, seen_value};
use kid_ops::map;
use kid_term::MapOp;
use kid_value::{Memory, Value};
use std::alloc::Global;

/// What an operator on maps gives, and false at arguments of another kind or count.
pub fn map_row<'a>(alloc: Global, op: MapOp, values: &[Seen<'a>]) -> Result<Value, Memory>
    ensures { IfOk result (λ v. plain v ≡ map_value op (mapped plain_seen values.now)) }
{
    match values {
        [] => of_none(alloc, op),
        [m] => of_one(alloc, op, seen_value(m)),
        [m, x] => of_two(alloc, op, seen_value(m), seen_value(x)),
        [m, x, y] => of_three(alloc, op, seen_value(m), seen_value(x), seen_value(y)),
        _ => Ok(Value::Bool(false)),
    }
}

fn of_none(alloc: Global, op: MapOp) -> Result<Value, Memory>
    ensures { IfOk result (λ v. plain v ≡ map_value op []) }
{
    match op {
        MapOp::Map => Ok(map::map(alloc)),
        _ => Ok(Value::Bool(false)),
    }
}

fn of_one(alloc: Global, op: MapOp, m: &Value) -> Result<Value, Memory>
    ensures { IfOk result (λ v. plain v ≡ map_value op (plain m.now ∷ [])) }
{
    match op {
        MapOp::Dom => map::dom(alloc, m),
        MapOp::Ran => map::ran(alloc, m),
        _ => Ok(Value::Bool(false)),
    }
}

fn of_two(alloc: Global, op: MapOp, m: &Value, x: &Value) -> Result<Value, Memory>
    ensures { IfOk result (λ v. plain v ≡ map_value op (plain m.now ∷ plain x.now ∷ [])) }
{
    match op {
        MapOp::Drop => map::drop(alloc, m, x),
        MapOp::Fill => map::fill(alloc, m, x),
        MapOp::Submap => Ok(Value::Bool(map::submap(m, x))),
        MapOp::Fits => Ok(Value::Bool(map::fits(m, x))),
        MapOp::Narrow => map::narrow(alloc, m, x),
        _ => Ok(Value::Bool(false)),
    }
}

fn of_three(alloc: Global, op: MapOp, m: &Value, x: &Value, y: &Value) -> Result<Value, Memory>
    ensures { IfOk result (λ v. plain v ≡ map_value op (plain m.now ∷ plain x.now ∷ plain y.now ∷ [])) }
{
    match op {
        MapOp::Get => map::get(alloc, m, x, y),
        MapOp::Put => map::put(alloc, m, x, y),
        _ => Ok(Value::Bool(false)),
    }
}
