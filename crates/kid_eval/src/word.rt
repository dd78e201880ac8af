//! The operators on words and rows.
ghost use Rattle.std.specs.Prelude.{◌≡◌, ◌∷◌, [], true, IfOk, map};
ghost use Rattle.std.specs.List.{list_all};
ghost use Rattle.kid_value.specs.ValueView.{plain};
ghost use Rattle.kid_value.specs.Rows.Word as rows;
ghost use Rattle.kid_term.specs.WordRows.{word_value};
ghost use Rattle.kid_term.specs.Small.{is_small, is_small_or_short};
ghost use Rattle.kid_eval.specs.ScopeView.{plain_seen};

use crate::scope::{Seen, seen_value};
use kid_ops::word;
use kid_term::WordOp;
use kid_value::{Memory, Value};
use std::alloc::Global;

/// What an operator on words and rows gives, and false at arguments of another kind or count.
pub fn word_row<'a>(alloc: Global, op: WordOp, values: &[Seen<'a>]) -> Result<Value, Memory>
    requires parts { list_all is_small_or_short (map plain_seen values.now) ≡ true }
    requires small { is_small (word_value op (map plain_seen values.now)) ≡ true }
    ensures { IfOk result (λ v. plain v ≡ word_value op (map plain_seen values.now)) }
{
    match values {
        [r] => Ok(of_one(op, seen_value(r))),
        [u, v] => of_two(alloc, op, seen_value(u), seen_value(v)),
        [u, v, w] => of_three(alloc, op, seen_value(u), seen_value(v), seen_value(w)),
        [lo, row, a, x] => of_four(
            alloc,
            op,
            seen_value(lo),
            seen_value(row),
            seen_value(a),
            seen_value(x),
        ),
        _ => Ok(Value::Bool(false)),
    }
}

fn of_one(op: WordOp, r: &Value) -> Value
    ensures { plain result ≡ word_value op (plain r.now ∷ []) }
{
    match op {
        WordOp::Wcard => wcard(r),
        _ => Value::Bool(false),
    }
}

fn of_two(alloc: Global, op: WordOp, u: &Value, v: &Value) -> Result<Value, Memory>
    requires { list_all is_small_or_short (plain u.now ∷ plain v.now ∷ []) ≡ true }
    ensures { IfOk result (λ r. plain r ≡ word_value op (plain u.now ∷ plain v.now ∷ [])) }
{
    match op {
        WordOp::Wor => Ok(wor(u, v)),
        WordOp::Wand => Ok(wand(u, v)),
        WordOp::Wnot => Ok(wnot(u, v)),
        WordOp::Rdec => rdec(alloc, u, v),
        _ => Ok(Value::Bool(false)),
    }
}

fn of_three(alloc: Global, op: WordOp, u: &Value, v: &Value, w: &Value) -> Result<Value, Memory>
    requires parts { list_all is_small_or_short (plain u.now ∷ plain v.now ∷ plain w.now ∷ []) ≡ true }
    requires small { is_small (word_value op (plain u.now ∷ plain v.now ∷ plain w.now ∷ [])) ≡ true }
    ensures { IfOk result (λ r. plain r ≡ word_value op (plain u.now ∷ plain v.now ∷ plain w.now ∷ [])) }
{
    match op {
        WordOp::Wenc => Ok(wenc(u, v, w)),
        WordOp::Wdec => wdec(alloc, u, v, w),
        WordOp::Win => Ok(win(u, v, w)),
        WordOp::Wleast => Ok(wleast(u, v, w)),
        WordOp::Renc => renc(alloc, u, v, w),
        WordOp::Rdrop => rdrop(alloc, u, v, w),
        _ => Ok(Value::Bool(false)),
    }
}

fn of_four(
    alloc: Global,
    op: WordOp,
    lo: &Value,
    row: &Value,
    a: &Value,
    x: &Value,
) -> Result<Value, Memory>
    ensures { IfOk result (λ r. plain r ≡ word_value op (plain lo.now ∷ plain row.now ∷ plain a.now ∷ plain x.now ∷ [])) }
{
    match op {
        WordOp::Rget => rget(alloc, lo, row, a, x),
        WordOp::Rput => rput(alloc, lo, row, a, x),
        _ => Ok(Value::Bool(false)),
    }
}

fn wor(r: &Value, s: &Value) -> Value
    ensures { plain result ≡ rows.wor (plain r.now) (plain s.now) }
{
    match (r, s) {
        (Value::Int(r), Value::Int(s)) => Value::Int(word::wor(*r, *s)),
        _ => Value::Bool(false),
    }
}

fn wand(r: &Value, s: &Value) -> Value
    ensures { plain result ≡ rows.wand (plain r.now) (plain s.now) }
{
    match (r, s) {
        (Value::Int(r), Value::Int(s)) => Value::Int(word::wand(*r, *s)),
        _ => Value::Bool(false),
    }
}

fn wnot(r: &Value, s: &Value) -> Value
    ensures { plain result ≡ rows.wnot (plain r.now) (plain s.now) }
{
    match (r, s) {
        (Value::Int(r), Value::Int(s)) => Value::Int(word::wnot(*r, *s)),
        _ => Value::Bool(false),
    }
}

fn wcard(r: &Value) -> Value
    ensures { plain result ≡ rows.wcard (plain r.now) }
{
    match r {
        Value::Int(r) => Value::Int(word::wcard(*r)),
        _ => Value::Bool(false),
    }
}

fn wenc(lo: &Value, k: &Value, s: &Value) -> Value
    requires first { is_small (plain lo.now) ≡ true }
    requires small { is_small (rows.wenc (plain lo.now) (plain k.now) (plain s.now)) ≡ true }
    ensures { plain result ≡ rows.wenc (plain lo.now) (plain k.now) (plain s.now) }
{
    match (lo, k, s) {
        (Value::Int(lo), Value::Int(k), Value::Set(_)) => Value::Int(word::wenc(*lo, *k, s)),
        _ => Value::Bool(false),
    }
}

fn wdec(alloc: Global, lo: &Value, k: &Value, r: &Value) -> Result<Value, Memory>
    requires { is_small (plain lo.now) ≡ true }
    ensures { IfOk result (λ v. plain v ≡ rows.wdec (plain lo.now) (plain k.now) (plain r.now)) }
{
    match (lo, k, r) {
        (Value::Int(lo), Value::Int(k), Value::Int(r)) => word::wdec(alloc, *lo, *k, *r),
        _ => Ok(Value::Bool(false)),
    }
}

fn win(lo: &Value, a: &Value, r: &Value) -> Value
    ensures { plain result ≡ rows.win (plain lo.now) (plain a.now) (plain r.now) }
{
    match (lo, a, r) {
        (Value::Int(lo), Value::Int(a), Value::Int(r)) => Value::Bool(word::win(*lo, *a, *r)),
        _ => Value::Bool(false),
    }
}

fn wleast(lo: &Value, d: &Value, r: &Value) -> Value
    requires { is_small (plain lo.now) ≡ true }
    ensures { plain result ≡ rows.wleast (plain lo.now) (plain d.now) (plain r.now) }
{
    match (lo, d, r) {
        (Value::Int(lo), Value::Int(d), Value::Int(r)) => Value::Int(word::wleast(*lo, *d, *r)),
        _ => Value::Bool(false),
    }
}

fn renc(alloc: Global, lo: &Value, n: &Value, m: &Value) -> Result<Value, Memory>
    requires first { is_small (plain lo.now) ≡ true }
    requires count { is_small (plain n.now) ≡ true }
    ensures { IfOk result (λ v. plain v ≡ rows.renc (plain lo.now) (plain n.now) (plain m.now)) }
{
    match (lo, n) {
        (Value::Int(lo), Value::Int(n)) => word::renc(alloc, *lo, *n, m),
        _ => Ok(Value::Bool(false)),
    }
}

fn rdec(alloc: Global, lo: &Value, row: &Value) -> Result<Value, Memory>
    requires first { is_small_or_short (plain lo.now) ≡ true }
    requires count { is_small_or_short (plain row.now) ≡ true }
    ensures { IfOk result (λ v. plain v ≡ rows.rdec (plain lo.now) (plain row.now)) }
{
    match (lo, row) {
        (Value::Int(lo), Value::Seq(_)) => word::rdec(alloc, *lo, row),
        _ => Ok(Value::Bool(false)),
    }
}

fn rget(alloc: Global, lo: &Value, row: &Value, a: &Value, d: &Value) -> Result<Value, Memory>
    ensures { IfOk result (λ v. plain v ≡ rows.rget (plain lo.now) (plain row.now) (plain a.now) (plain d.now)) }
{
    match (lo, a) {
        (Value::Int(lo), Value::Int(a)) => word::rget(alloc, *lo, row, *a, d),
        _ => Ok(Value::Bool(false)),
    }
}

fn rput(alloc: Global, lo: &Value, row: &Value, a: &Value, x: &Value) -> Result<Value, Memory>
    ensures { IfOk result (λ v. plain v ≡ rows.rput (plain lo.now) (plain row.now) (plain a.now) (plain x.now)) }
{
    match (lo, a) {
        (Value::Int(lo), Value::Int(a)) => word::rput(alloc, *lo, row, *a, x),
        _ => Ok(Value::Bool(false)),
    }
}

fn rdrop(alloc: Global, lo: &Value, row: &Value, a: &Value) -> Result<Value, Memory>
    ensures { IfOk result (λ v. plain v ≡ rows.rdrop (plain lo.now) (plain row.now) (plain a.now)) }
{
    match (lo, a) {
        (Value::Int(lo), Value::Int(a)) => word::rdrop(alloc, *lo, row, *a),
        _ => Ok(Value::Bool(false)),
    }
}
