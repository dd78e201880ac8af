//! Counts of faults and of calls.
ghost use Rattle.std.specs.Prelude.{◌≡◌, ◌≤◌};
ghost use Rattle.kid_outer.specs.Causes.{counted};

/// Counts one more. A count stands still at its type's end.
pub fn count(number: &mut u64)
    ensures one_more { number.new ≡ counted number.old }
    ensures later { number.old ≤ number.new }
{
    *number = number.saturating_add(1);
}
