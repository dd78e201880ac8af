//! What binders make of their bodies' values.
ghost use Rattle.std.specs.Prelude.{◌≡◌, ◌+ℤ◌, true, pos, IfOk, map, length};
ghost use Rattle.kid_value.specs.ValueView.{plain};
ghost use Rattle.kid_value.specs.ValueSet.{Ascends, set_of};
ghost use Rattle.kid_value.specs.Rows.Parts.{truth_of, members_of, number_of, total as total_of};
ghost use Rattle.kid_value.specs.Rows.Kinds.{set_from};
ghost use Rattle.kid_value.specs.PlainValue.{int};
ghost use Rattle.kid_term.specs.Small.{is_small};
ghost use Rattle.kid_value.specs.Rows.Sums.{sums_small};
ghost use Rattle.kid_eval.specs.Binding.{kept as kept_of};

use kid_value::{Members, Memory, Value};
use std::alloc::Global;

/// Whether the value is the truth value true.
pub fn is_true(v: &Value) -> bool
    ensures { result ≡ truth_of (plain v.now) }
{
    match v {
        Value::Bool(b) => *b,
        _ => false,
    }
}

/// The members of a set, in their order. Another value has none.
#[tactic(auto, using(kid_value::proofs::RowLemmas::items_row))]
pub fn members(v: &Value) -> &[Value]
    ensures members { map plain result.now ≡ members_of (plain v.now) }
    ensures ascends { Ascends (members_of (plain v.now)) }
{
    match v {
        Value::Set(vs) => vs.items(),
        _ => &[],
    }
}

/// The sum with one more value, which counts as 0 where it is no integer.
fn added(sum: &i64, v: &Value) -> i64
    requires { is_small (int (sum.now +ℤ number_of (plain v.now))) ≡ true }
    ensures { result ≡ sum.now +ℤ number_of (plain v.now) }
{
    match v {
        Value::Int(n) => *sum + *n,
        _ => *sum,
    }
}

/// The set of the members at whose places stands true.
pub fn kept(alloc: Global, members: &[Value], truths: &[Value]) -> Result<Value, Memory>
    requires ascends { Ascends (map plain members.now) }
    requires paired { length members.now ≡ length truths.now }
    ensures { IfOk result (λ v. plain v ≡ set_from (kept_of (map plain members.now) (map plain truths.now))) }
{
    let mut set = Members::new(alloc);
    for (i, v) in members.iter().enumerate() {
        if is_true(&truths[i]) {
            set.put(v.copy(alloc)?)?;
        }
    }
    Ok(Value::Set(set))
}

/// The set of the values.
pub fn image(alloc: Global, mut values: Vec<Value>) -> Result<Value, Memory>
    ensures { IfOk result (λ v. plain v ≡ set_from (set_of (map plain values.items))) }
{
    let mut set = Members::new(alloc);
    while let Some(v) = values.pop() {
        set.put(v)?;
    }
    Ok(Value::Set(set))
}

/// The sum of the values, of which each that is no integer counts as 0.
pub fn total(values: &[Value]) -> i64
    requires { sums_small (pos 0) (map plain values.now) ≡ true }
    ensures { result ≡ total_of (map plain values.now) }
{
    let mut sum: i64 = 0;
    for v in values {
        sum = added(&sum, v);
    }
    sum
}
