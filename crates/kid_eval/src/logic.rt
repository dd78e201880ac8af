//! The operators on truth values.
ghost use Rattle.std.specs.Prelude.{◌≡◌, ◌∷◌, [], IfOk, map};
ghost use Rattle.kid_value.specs.ValueView.{plain};
ghost use Rattle.kid_term.specs.LogicRows.{logic_value};
ghost use Rattle.kid_eval.specs.ScopeView.{plain_seen};
ghost use Rattle.kid_eval.specs.Truth.{truth_in};

use crate::scope::{Seen, seen_value};
use kid_ops::logic;
use kid_term::LogicOp;
use kid_value::{Memory, Value};
use std::alloc::Global;

/// What an operator on truth values gives, and false at arguments of another kind or count.
pub fn logic_row<'a>(alloc: Global, op: LogicOp, values: &[Seen<'a>]) -> Result<Value, Memory>
    ensures { IfOk result (λ v. plain v ≡ logic_value op (map plain_seen values.now)) }
{
    match values {
        [p] => Ok(of_one(op, seen_value(p))),
        [p, q] => Ok(of_two(op, seen_value(p), seen_value(q))),
        [p, x, y] => of_three(alloc, op, seen_value(p), seen_value(x), seen_value(y)),
        _ => Ok(Value::Bool(false)),
    }
}

fn of_one(op: LogicOp, p: &Value) -> Value
    ensures { plain result ≡ logic_value op (plain p.now ∷ []) }
{
    match (op, p) {
        (LogicOp::Not, Value::Bool(p)) => Value::Bool(logic::not(*p)),
        _ => Value::Bool(false),
    }
}

fn of_two(op: LogicOp, p: &Value, q: &Value) -> Value
    ensures { plain result ≡ logic_value op (plain p.now ∷ plain q.now ∷ []) }
{
    match (op, p, q) {
        (LogicOp::Eq, x, y) => Value::Bool(logic::eq(x, y)),
        (LogicOp::And, Value::Bool(p), Value::Bool(q)) => Value::Bool(logic::and(*p, *q)),
        (LogicOp::Or, Value::Bool(p), Value::Bool(q)) => Value::Bool(logic::or(*p, *q)),
        (LogicOp::Implies, Value::Bool(p), Value::Bool(q)) => Value::Bool(logic::implies(*p, *q)),
        _ => Value::Bool(false),
    }
}

fn of_three(alloc: Global, op: LogicOp, p: &Value, x: &Value, y: &Value) -> Result<Value, Memory>
    ensures { IfOk result (λ v. plain v ≡ logic_value op (plain p.now ∷ plain x.now ∷ plain y.now ∷ [])) }
{
    match (op, p) {
        (LogicOp::If, Value::Bool(true)) => x.copy(alloc),
        (LogicOp::If, Value::Bool(false)) => y.copy(alloc),
        _ => Ok(Value::Bool(false)),
    }
}

/// The truth value that a value is.
pub fn truth(v: &Value) -> Option<bool>
    ensures { result ≡ truth_in (plain v.now) }
{
    match v {
        Value::Bool(b) => Some(*b),
        _ => None,
    }
}
