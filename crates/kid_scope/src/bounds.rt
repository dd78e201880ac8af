//! Intervals of which one lies before the other.
ghost use Rattle.std.specs.Prelude.{◌≡◌, Ok};
ghost use Rattle.kid_value.specs.SortView.{plain_sort};
ghost use Rattle.kid_scope.specs.Holds as holds;

use kid_value::Sort;

/// Whether both are sorts of integers and the upper bound of the first is at most the lower bound
/// of the second. Takes no memory.
pub fn lies_at_most(a: &Sort, b: &Sort) -> bool
    ensures { result ≡ holds.lies_at_most (Ok (plain_sort a.now)) (Ok (plain_sort b.now)) }
{
    match (a, b) {
        (Sort::Int { lo: _, hi }, Sort::Int { lo, hi: _ }) => *hi <= *lo,
        _ => false,
    }
}

/// Whether both are sorts of integers and the upper bound of the first is less than the lower bound
/// of the second. Takes no memory.
pub fn lies_below(a: &Sort, b: &Sort) -> bool
    ensures { result ≡ holds.lies_below (Ok (plain_sort a.now)) (Ok (plain_sort b.now)) }
{
    match (a, b) {
        (Sort::Int { lo: _, hi }, Sort::Int { lo, hi: _ }) => *hi < *lo,
        _ => false,
    }
}
