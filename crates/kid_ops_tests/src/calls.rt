//! Calls of the operators on values, and the judge of what they give. What an operator may not be asked is told as want of
//! memory, which no case wants.
ghost use Rattle.std.specs.Prelude.{◌≡◌, true, IsOkAnd};
ghost use Rattle.kid_value.specs.ValueView.{plain};
ghost use Rattle.kid_ops.specs.Kinds.{item_count};

use kid_ops::{logic, map, number, pair, seq, set, word};
use kid_value::{Memory, Value, Values, cmp, in_limits};
use std::alloc::Global;

/// An operator, with the numbers that it takes beside its values.
#[derive(Clone, Copy)]
pub enum Op {
    Choose(bool),
    Eq,
    Le,
    Lt,
    Min,
    Max,
    Mod,
    Pair,
    Fst,
    Snd,
    /// The set and the sequence of values that are given as a sequence.
    Set,
    Seq,
    Range,
    Member,
    Subset,
    Union,
    With,
    Inter,
    Diff,
    Without,
    Card,
    Least,
    Len,
    At(i64),
    Snoc,
    Rest(i64),
    Items,
    Prefix,
    Dom,
    Ran,
    Get,
    Put,
    Drop,
    Fill,
    Submap,
    Fits,
    Narrow,
    /// Of words: the lowest key, and then what else is a number.
    Wenc(i64, i64),
    Wdec(i64, i64),
    Wor,
    Wand,
    Wnot,
    Wcard,
    Win(i64, i64),
    Wleast(i64, i64),
    Renc(i64, i64),
    Rdec(i64),
    Rget(i64, i64),
    Rput(i64, i64),
    Rdrop(i64, i64),
}

fn set_of_items(alloc: Global, x: &Value) -> Result<Value, Memory> {
    match x {
        Value::Seq(values) => set::set(alloc, values),
        _ => Err(Memory),
    }
}

fn seq_of_items(alloc: Global, x: &Value) -> Result<Value, Memory> {
    match x {
        Value::Seq(values) => seq::seq(alloc, values),
        _ => Err(Memory),
    }
}

fn card(s: &Value) -> Result<Value, Memory> {
    match s {
        Value::Set(_) => Ok(Value::Int(set::card(s))),
        _ => Err(Memory),
    }
}

fn len(v: &Value) -> Result<Value, Memory> {
    match v {
        Value::Seq(_) => Ok(Value::Int(seq::len(v))),
        _ => Err(Memory),
    }
}

fn renc(alloc: Global, lo: i64, n: i64, m: &Value) -> Result<Value, Memory> {
    if in_limits(lo) && in_limits(n) {
        word::renc(alloc, lo, n, m)
    } else {
        Err(Memory)
    }
}

#[tactic(auto, using(kid_value::proofs::RowLemmas::items_row))]
fn count_items(row: &Value) -> usize
    ensures { result ≡ item_count (plain row.now) }
{
    match row {
        Value::Seq(items) => items.len(),
        _ => 0,
    }
}

fn rdec(alloc: Global, lo: i64, row: &Value) -> Result<Value, Memory> {
    if in_limits(lo) && count_items(row) <= 4096 {
        word::rdec(alloc, lo, row)
    } else {
        Err(Memory)
    }
}

#[tactic(auto, using(crate::proofs::WordLemmas::small_code))]
fn code(lo: &i64, k: &i64, s: &Value) -> Result<Value, Memory> {
    match s {
        Value::Set(_) if in_limits(*lo) && *k <= 62 => Ok(Value::Int(word::wenc(*lo, *k, s))),
        _ => Err(Memory),
    }
}

fn of_word(alloc: Global, op: Op, r: i64) -> Result<Value, Memory> {
    match op {
        Op::Wcard => Ok(Value::Int(word::wcard(r))),
        Op::Win(lo, a) => Ok(Value::Bool(word::win(lo, a, r))),
        Op::Wleast(lo, d) if in_limits(lo) => Ok(Value::Int(word::wleast(lo, d, r))),
        Op::Wdec(lo, k) if in_limits(lo) => word::wdec(alloc, lo, k, r),
        _ => Err(Memory),
    }
}

fn of_one(alloc: Global, op: Op, x: &Value) -> Result<Value, Memory> {
    match op {
        Op::Fst => pair::fst(alloc, x),
        Op::Snd => pair::snd(alloc, x),
        Op::Set => set_of_items(alloc, x),
        Op::Seq => seq_of_items(alloc, x),
        Op::Card => card(x),
        Op::Len => len(x),
        Op::Items => seq::items(alloc, x),
        Op::Rest(count) => seq::rest(alloc, x, count),
        Op::Dom => map::dom(alloc, x),
        Op::Ran => map::ran(alloc, x),
        Op::Wenc(lo, k) => code(&lo, &k, x),
        Op::Renc(lo, n) => renc(alloc, lo, n, x),
        Op::Rdec(lo) => rdec(alloc, lo, x),
        Op::Rdrop(lo, a) => word::rdrop(alloc, lo, x, a),
        _ => match x {
            Value::Int(r) => of_word(alloc, op, *r),
            _ => Err(Memory),
        },
    }
}

fn of_numbers(alloc: Global, op: Op, a: i64, b: i64) -> Result<Value, Memory> {
    match op {
        Op::Le => Ok(Value::Bool(number::le(a, b))),
        Op::Lt => Ok(Value::Bool(number::lt(a, b))),
        Op::Min => Ok(Value::Int(number::min(a, b))),
        Op::Max => Ok(Value::Int(number::max(a, b))),
        Op::Mod => Ok(Value::Int(number::modulo(a, b))),
        Op::Range => set::range(alloc, a, b),
        Op::Wor => Ok(Value::Int(word::wor(a, b))),
        Op::Wand => Ok(Value::Int(word::wand(a, b))),
        Op::Wnot => Ok(Value::Int(word::wnot(a, b))),
        _ => Err(Memory),
    }
}

fn of_two(alloc: Global, op: Op, x: &Value, y: &Value) -> Result<Value, Memory> {
    match op {
        Op::Choose(p) => logic::choose(alloc, p, x, y),
        Op::Eq => Ok(Value::Bool(logic::eq(x, y))),
        Op::Pair => pair::pair(alloc, x, y),
        Op::Member => Ok(Value::Bool(set::member(x, y))),
        Op::Subset => Ok(Value::Bool(set::subset(x, y))),
        Op::Union => set::union(alloc, x, y),
        Op::With => set::with(alloc, x, y),
        Op::Inter => set::inter(alloc, x, y),
        Op::Diff => set::diff(alloc, x, y),
        Op::Without => set::without(alloc, x, y),
        Op::Least => set::least(alloc, x, y),
        Op::At(place) => seq::at(alloc, x, place, y),
        Op::Snoc => seq::snoc(alloc, x, y),
        Op::Prefix => Ok(Value::Bool(seq::prefix(x, y))),
        Op::Drop => map::drop(alloc, x, y),
        Op::Fill => map::fill(alloc, x, y),
        Op::Submap => Ok(Value::Bool(map::submap(x, y))),
        Op::Fits => Ok(Value::Bool(map::fits(x, y))),
        Op::Narrow => map::narrow(alloc, x, y),
        Op::Rget(lo, a) => word::rget(alloc, lo, x, a, y),
        Op::Rput(lo, a) => word::rput(alloc, lo, x, a, y),
        _ => match (x, y) {
            (Value::Int(a), Value::Int(b)) => of_numbers(alloc, op, *a, *b),
            _ => Err(Memory),
        },
    }
}

fn of_three(alloc: Global, op: Op, x: &Value, y: &Value, z: &Value) -> Result<Value, Memory> {
    match op {
        Op::Get => map::get(alloc, x, y, z),
        Op::Put => map::put(alloc, x, y, z),
        _ => Err(Memory),
    }
}

fn called(alloc: Global, op: Op, args: &[Value]) -> Result<Value, Memory> {
    match args {
        [x] => of_one(alloc, op, x),
        [x, y] => of_two(alloc, op, x, y),
        [x, y, z] => of_three(alloc, op, x, y, z),
        _ => Err(Memory),
    }
}

fn is(found: &Result<Value, Memory>, want: &Value) -> bool
    ensures { result ≡ true → IsOkAnd found.now (λ v. plain v ≡ plain want.now) }
{
    match found {
        Ok(found) => cmp(found, want).is_eq(),
        Err(_) => false,
    }
}

/// Whether the operator gives the last of the values at those before it.
pub fn gives(alloc: Global, op: Op, built: &Result<Values, Memory>) -> bool {
    match built {
        Ok(built) => match built.items().split_last() {
            Some((want, args)) => is(&called(alloc, op, args), want),
            None => false,
        },
        Err(_) => false,
    }
}
