//! The operators on numbers. A result that could be beyond the limits is asked to lie within
//! plus or minus 2^62.
ghost use Rattle.std.specs.Prelude.{◌≡◌, ◌+ℤ◌, ◌-ℤ◌, ◌*ℤ◌, neg_ℤ, true};
ghost use Rattle.kid_value.specs.SortLimits.{in_limits};
ghost use Rattle.kid_value.specs.PlainValue.{int, bool};
ghost use Rattle.kid_value.specs.Rows.Number as rows;

/// Whether `a` is at most `b`.
pub fn le(a: i64, b: i64) -> bool
    ensures { bool result ≡ rows.le (int a) (int b) }
{
    a <= b
}

/// Whether `a` is less than `b`.
pub fn lt(a: i64, b: i64) -> bool
    ensures { bool result ≡ rows.lt (int a) (int b) }
{
    a < b
}

/// The sum.
pub fn add(a: i64, b: i64) -> i64
    requires { in_limits (a +ℤ b) ≡ true }
    ensures { int result ≡ rows.add (int a) (int b) }
{
    a + b
}

/// What `a` is above `b`.
pub fn sub(a: i64, b: i64) -> i64
    requires { in_limits (a -ℤ b) ≡ true }
    ensures { int result ≡ rows.sub (int a) (int b) }
{
    a - b
}

/// The number with the other sign.
pub fn neg(a: i64) -> i64
    requires { in_limits (neg_ℤ a) ≡ true }
    ensures { int result ≡ rows.neg (int a) }
{
    -a
}

/// The product.
pub fn mul(a: i64, b: i64) -> i64
    requires { in_limits (a *ℤ b) ≡ true }
    ensures { int result ≡ rows.mul (int a) (int b) }
{
    a * b
}

/// The quotient that leaves a rest from 0 on, and 0 where `b` is 0.
pub fn div(a: i64, b: i64) -> i64
    requires { in_limits (rows.quotient a b) ≡ true }
    ensures { int result ≡ rows.div (int a) (int b) }
{
    if b == 0 { 0 } else { a.div_euclid(b) }
}

/// The rest that the quotient leaves, and 0 where `b` is 0.
pub fn modulo(a: i64, b: i64) -> i64
    ensures { int result ≡ rows.modulo (int a) (int b) }
{
    // The least number has no quotient by -1.
    if b == 0 || b == -1 {
        0
    } else {
        a.rem_euclid(b)
    }
}

/// The lesser number.
pub fn min(a: i64, b: i64) -> i64
    ensures { int result ≡ rows.min (int a) (int b) }
{
    a.min(b)
}

/// The greater number.
pub fn max(a: i64, b: i64) -> i64
    ensures { int result ≡ rows.max (int a) (int b) }
{
    a.max(b)
}
