//! The operators on integers.
ghost use Rattle.std.specs.Prelude.{◌≡◌, ◌∷◌, [], true, map};
ghost use Rattle.kid_value.specs.PlainValue.{int};
ghost use Rattle.kid_value.specs.ValueView.{plain};
ghost use Rattle.kid_term.specs.NumberRows.{number_value};
ghost use Rattle.kid_term.specs.Small.{is_small};
ghost use Rattle.kid_eval.specs.ScopeView.{plain_seen};

use crate::scope::{Seen, seen_value};
use kid_ops::number;
use kid_term::NumberOp;
use kid_value::Value;

/// What an operator on integers gives, and false at arguments of another kind or count.
pub fn number_row<'a>(op: NumberOp, values: &[Seen<'a>]) -> Value
    requires { is_small (number_value op (map plain_seen values.now)) ≡ true }
    ensures { plain result ≡ number_value op (map plain_seen values.now) }
{
    match values {
        [a] => of_one(op, seen_value(a)),
        [a, b] => of_two(op, seen_value(a), seen_value(b)),
        _ => Value::Bool(false),
    }
}

fn of_one(op: NumberOp, a: &Value) -> Value
    requires { is_small (number_value op (plain a.now ∷ [])) ≡ true }
    ensures { plain result ≡ number_value op (plain a.now ∷ []) }
{
    match (op, a) {
        (NumberOp::Neg, Value::Int(a)) => Value::Int(number::neg(*a)),
        _ => Value::Bool(false),
    }
}

fn of_two(op: NumberOp, a: &Value, b: &Value) -> Value
    requires { is_small (number_value op (plain a.now ∷ plain b.now ∷ [])) ≡ true }
    ensures { plain result ≡ number_value op (plain a.now ∷ plain b.now ∷ []) }
{
    match (a, b) {
        (Value::Int(a), Value::Int(b)) => of_integers(op, a, b),
        _ => Value::Bool(false),
    }
}

fn of_integers(op: NumberOp, a: &i64, b: &i64) -> Value
    requires { is_small (number_value op (int a.now ∷ int b.now ∷ [])) ≡ true }
    ensures { plain result ≡ number_value op (int a.now ∷ int b.now ∷ []) }
{
    match op {
        NumberOp::Le => Value::Bool(number::le(*a, *b)),
        NumberOp::Lt => Value::Bool(number::lt(*a, *b)),
        NumberOp::Add => Value::Int(number::add(*a, *b)),
        NumberOp::Sub => Value::Int(number::sub(*a, *b)),
        NumberOp::Neg => Value::Bool(false),
        NumberOp::Mul => Value::Int(number::mul(*a, *b)),
        NumberOp::Div => Value::Int(number::div(*a, *b)),
        NumberOp::Mod => Value::Int(number::modulo(*a, *b)),
        NumberOp::Min => Value::Int(number::min(*a, *b)),
        NumberOp::Max => Value::Int(number::max(*a, *b)),
    }
}
