ghost use Rattle.std.specs.Prelude.{◌≡◌, ◌∷◌, [], map};
ghost use Rattle.kid_value.specs.SortView.{plain_sort};
ghost use Rattle.kid_term.specs.SetSorts.{range_sort as sort_of_range, set_sort as sort_of_set};
ghost use Rattle.kid_term.specs.declared.operator.SetOp.TheVariants.{Set, Range, In, Subset, Union, With, Inter, Diff, Without, Least};
ghost use Rattle.kid_sorting.specs.Answers.{SortGives};

use crate::allow::{allowed_set, between};
use crate::common::{comparable, join_all, joined, set_of_joined, whole_if_joined};
use crate::fault::SortFault;
use crate::total::sum_sort;
use kid_term::SetOp;
use kid_value::{Sort, count_of};
use std::alloc::Global;

/// The sort of an operator on sets at its arguments' sorts.
pub fn set_sort(alloc: Global, op: SetOp, sorts: &[Sort]) -> Result<Sort, SortFault>
    ensures { SortGives result (sort_of_set op (map plain_sort sorts.now)) }
{
    match (op, sorts) {
        (SetOp::Set, _) => set_of_all(alloc, sorts),
        (_, [s]) => at_one(op, s),
        (_, [s, t]) => at_two(alloc, op, s, t),
        _ => Err(SortFault::Kind),
    }
}

/// The sort of the sets of members of these sorts.
fn set_of_all(alloc: Global, sorts: &[Sort]) -> Result<Sort, SortFault>
    ensures { SortGives result (sort_of_set Set (map plain_sort sorts.now)) }
{
    match join_all(alloc, sorts)? {
        Some(element) => allowed_set(alloc, element),
        None => Err(SortFault::Kind),
    }
}

/// The sort of an operator, but for `Set`, at one argument's sort.
fn at_one(op: SetOp, s: &Sort) -> Result<Sort, SortFault>
    requires { ¬ (op ≡ Set) }
    ensures { SortGives result (sort_of_set op (plain_sort s.now ∷ [])) }
{
    match (op, s) {
        (SetOp::Card, Sort::Set(element)) => between(0, i64::from(count_of(element))),
        (SetOp::Sum, Sort::Set(element)) => sum_sort(count_of(element), element),
        _ => Err(SortFault::Kind),
    }
}

/// The sort of an operator, but for `Set`, at two arguments' sorts.
fn at_two(alloc: Global, op: SetOp, s: &Sort, t: &Sort) -> Result<Sort, SortFault>
    requires { ¬ (op ≡ Set) }
    ensures { SortGives result (sort_of_set op (plain_sort s.now ∷ plain_sort t.now ∷ [])) }
{
    match op {
        SetOp::Range => range(alloc, s, t),
        SetOp::In => is_in(alloc, s, t),
        SetOp::Subset => subset(alloc, s, t),
        SetOp::Union => union(alloc, s, t),
        SetOp::With => with(alloc, s, t),
        SetOp::Inter => inter(alloc, s, t),
        SetOp::Diff => diff(alloc, s, t),
        SetOp::Without => without(alloc, s, t),
        SetOp::Least => least(alloc, s, t),
        SetOp::Set | SetOp::Card | SetOp::Sum => Err(SortFault::Kind),
    }
}

/// The sets of the integers from one of the first to one of the second.
fn range(alloc: Global, s: &Sort, t: &Sort) -> Result<Sort, SortFault>
    ensures { SortGives result (sort_of_set Range (plain_sort s.now ∷ plain_sort t.now ∷ [])) }
{
    match (s, t) {
        (Sort::Int { lo, .. }, Sort::Int { hi, .. }) => set_between(alloc, *lo, *hi),
        _ => Err(SortFault::Kind),
    }
}

/// The sort of the sets of integers from `lo` to `hi`, which may be none.
fn set_between(alloc: Global, lo: i64, hi: i64) -> Result<Sort, SortFault>
    ensures { SortGives result (sort_of_range lo hi) }
{
    if lo <= hi {
        allowed_set(alloc, Sort::Int { lo, hi })
    } else {
        Ok(Sort::Set(Box::new(alloc, Sort::Never)?))
    }
}

/// Whether a value is a member.
fn is_in(alloc: Global, s: &Sort, t: &Sort) -> Result<Sort, SortFault>
    ensures { SortGives result (sort_of_set In (plain_sort s.now ∷ plain_sort t.now ∷ [])) }
{
    match t {
        Sort::Set(a) => comparable(alloc, s, a),
        _ => Err(SortFault::Kind),
    }
}

/// Whether each member of the first is one of the second.
fn subset(alloc: Global, s: &Sort, t: &Sort) -> Result<Sort, SortFault>
    ensures { SortGives result (sort_of_set Subset (plain_sort s.now ∷ plain_sort t.now ∷ [])) }
{
    match (s, t) {
        (Sort::Set(a), Sort::Set(b)) => comparable(alloc, a, b),
        _ => Err(SortFault::Kind),
    }
}

/// The members of either.
fn union(alloc: Global, s: &Sort, t: &Sort) -> Result<Sort, SortFault>
    ensures { SortGives result (sort_of_set Union (plain_sort s.now ∷ plain_sort t.now ∷ [])) }
{
    match (s, t) {
        (Sort::Set(a), Sort::Set(b)) => set_of_joined(alloc, a, b),
        _ => Err(SortFault::Kind),
    }
}

/// A set with a value.
fn with(alloc: Global, s: &Sort, t: &Sort) -> Result<Sort, SortFault>
    ensures { SortGives result (sort_of_set With (plain_sort s.now ∷ plain_sort t.now ∷ [])) }
{
    match t {
        Sort::Set(a) => set_of_joined(alloc, s, a),
        _ => Err(SortFault::Kind),
    }
}

/// The members of both.
fn inter(alloc: Global, s: &Sort, t: &Sort) -> Result<Sort, SortFault>
    ensures { SortGives result (sort_of_set Inter (plain_sort s.now ∷ plain_sort t.now ∷ [])) }
{
    match (s, t) {
        (Sort::Set(a), Sort::Set(b)) => whole_if_joined(alloc, a, b, s),
        _ => Err(SortFault::Kind),
    }
}

/// The members of the first alone.
fn diff(alloc: Global, s: &Sort, t: &Sort) -> Result<Sort, SortFault>
    ensures { SortGives result (sort_of_set Diff (plain_sort s.now ∷ plain_sort t.now ∷ [])) }
{
    match (s, t) {
        (Sort::Set(a), Sort::Set(b)) => whole_if_joined(alloc, a, b, s),
        _ => Err(SortFault::Kind),
    }
}

/// A set without a value.
fn without(alloc: Global, s: &Sort, t: &Sort) -> Result<Sort, SortFault>
    ensures { SortGives result (sort_of_set Without (plain_sort s.now ∷ plain_sort t.now ∷ [])) }
{
    match t {
        Sort::Set(a) => whole_if_joined(alloc, s, a, t),
        _ => Err(SortFault::Kind),
    }
}

/// The least member, or a value where there is none.
fn least(alloc: Global, s: &Sort, t: &Sort) -> Result<Sort, SortFault>
    ensures { SortGives result (sort_of_set Least (plain_sort s.now ∷ plain_sort t.now ∷ [])) }
{
    match s {
        Sort::Set(a) => joined(alloc, a, t),
        _ => Err(SortFault::Kind),
    }
}
