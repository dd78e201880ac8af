//! What is read off values.
ghost use Rattle.std.specs.Prelude.{◌≡◌, map};
ghost use Rattle.kid_value.specs.ValueView.{plain};
ghost use Rattle.kid_value.specs.Rows.Parts.{truth_of, members_of};

use kid_value::Value;

/// Whether the value is the truth value true.
pub fn is_true(value: &Value) -> bool
    ensures { result ≡ truth_of (plain value.now) }
{
    match value {
        Value::Bool(truth) => *truth,
        _ => false,
    }
}

/// The members of a set, in their order. Another value has none.
#[tactic(auto, using(kid_value::proofs::RowLemmas::items_row))]
pub fn members(value: &Value) -> &[Value]
    ensures { map plain result.now ≡ members_of (plain value.now) }
{
    match value {
        Value::Set(members) => members.items(),
        _ => &[],
    }
}
