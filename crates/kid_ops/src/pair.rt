//! The operators on pairs. Where an argument is no pair, the answer is false.
ghost use Rattle.std.specs.Prelude.{◌≡◌, IfOk};
ghost use Rattle.kid_value.specs.Rows.Pair as rows;
ghost use Rattle.kid_value.specs.ValueView.{plain};

use kid_value::{Memory, Value};
use std::alloc::Global;

/// The pair of the values.
pub fn pair(alloc: Global, x: &Value, y: &Value) -> Result<Value, Memory>
    ensures { IfOk result (λ v. plain v ≡ rows.pair (plain x.now) (plain y.now)) }
{
    let first = x.copy(alloc)?;
    let second = y.copy(alloc)?;
    Value::pair(alloc, first, second)
}

/// The first part of a pair.
pub fn fst(alloc: Global, p: &Value) -> Result<Value, Memory>
    ensures { IfOk result (λ v. plain v ≡ rows.fst (plain p.now)) }
{
    match p {
        Value::Pair(first, _) => first.get().copy(alloc),
        _ => Ok(Value::Bool(false)),
    }
}

/// The second part of a pair.
pub fn snd(alloc: Global, p: &Value) -> Result<Value, Memory>
    ensures { IfOk result (λ v. plain v ≡ rows.snd (plain p.now)) }
{
    match p {
        Value::Pair(_, second) => second.get().copy(alloc),
        _ => Ok(Value::Bool(false)),
    }
}
