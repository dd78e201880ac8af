//! The operators on pairs.
ghost use Rattle.std.specs.Prelude.{◌≡◌, ◌∷◌, [], IfOk, map};
ghost use Rattle.kid_value.specs.ValueView.{plain};
ghost use Rattle.kid_term.specs.PairRows.{pair_value};
ghost use Rattle.kid_eval.specs.ScopeView.{plain_seen};

use crate::scope::{Seen, seen_value};
use kid_ops::pair;
use kid_term::PairOp;
use kid_value::{Memory, Value};
use std::alloc::Global;

/// What an operator on pairs gives, and false at arguments of another kind or count.
pub fn pair_row<'a>(alloc: Global, op: PairOp, values: &[Seen<'a>]) -> Result<Value, Memory>
    ensures { IfOk result (λ v. plain v ≡ pair_value op (map plain_seen values.now)) }
{
    match values {
        [p] => of_one(alloc, op, seen_value(p)),
        [x, y] => of_two(alloc, op, seen_value(x), seen_value(y)),
        _ => Ok(Value::Bool(false)),
    }
}

fn of_one(alloc: Global, op: PairOp, p: &Value) -> Result<Value, Memory>
    ensures { IfOk result (λ v. plain v ≡ pair_value op (plain p.now ∷ [])) }
{
    match op {
        PairOp::Fst => pair::fst(alloc, p),
        PairOp::Snd => pair::snd(alloc, p),
        PairOp::Pair => Ok(Value::Bool(false)),
    }
}

fn of_two(alloc: Global, op: PairOp, x: &Value, y: &Value) -> Result<Value, Memory>
    ensures { IfOk result (λ v. plain v ≡ pair_value op (plain x.now ∷ plain y.now ∷ [])) }
{
    match op {
        PairOp::Pair => pair::pair(alloc, x, y),
        PairOp::Fst | PairOp::Snd => Ok(Value::Bool(false)),
    }
}
