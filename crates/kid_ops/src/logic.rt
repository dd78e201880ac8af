//! The operators on truth values, and equality.
ghost use Rattle.std.specs.Prelude.{◌≡◌, IfOk};
ghost use Rattle.kid_value.specs.PlainValue.{bool};
ghost use Rattle.kid_value.specs.Rows.Logic as rows;
ghost use Rattle.kid_value.specs.ValueView.{plain};

use kid_value::{Memory, Value, cmp};
use std::alloc::Global;

/// Whether `p` is false.
pub fn not(p: bool) -> bool
    ensures { bool result ≡ rows.not (bool p) }
{
    !p
}

/// Whether both are true.
pub fn and(p: bool, q: bool) -> bool
    ensures { bool result ≡ rows.and (bool p) (bool q) }
{
    p && q
}

/// Whether one of them is true.
pub fn or(p: bool, q: bool) -> bool
    ensures { bool result ≡ rows.or (bool p) (bool q) }
{
    p || q
}

/// Whether `q` is true or `p` false.
pub fn implies(p: bool, q: bool) -> bool
    ensures { bool result ≡ rows.implies (bool p) (bool q) }
{
    !p || q
}

/// The first value where `p` is true, else the second.
pub fn choose(alloc: Global, p: bool, x: &Value, y: &Value) -> Result<Value, Memory>
    ensures { IfOk result (λ v. plain v ≡ rows.choose (bool p) (plain x.now) (plain y.now)) }
{
    if p { x.copy(alloc) } else { y.copy(alloc) }
}

/// Whether the values are equal.
pub fn eq(x: &Value, y: &Value) -> bool
    ensures { bool result ≡ rows.eq (plain x.now) (plain y.now) }
{
    cmp(x, y).is_eq()
}
