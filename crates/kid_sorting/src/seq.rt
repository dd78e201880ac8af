ghost use Rattle.std.specs.Prelude.{◌≡◌, ◌∷◌, [], map};
ghost use Rattle.kid_value.specs.SortView.{plain_sort};
ghost use Rattle.kid_term.specs.SeqSorts.{seq_sort as sort_of_seq};
ghost use Rattle.kid_term.specs.declared.operator.SeqOp.TheVariants.{Seq, At, Snoc, Rest, Prefix};
ghost use Rattle.kid_sorting.specs.Answers.{SortGives};

use crate::allow::{allow, allowed_seq, allowed_set, between};
use crate::common::{comparable, join_all, joined};
use crate::fault::SortFault;
use crate::total::sum_sort;
use kid_term::SeqOp;
use kid_value::{Sort, join};
use std::alloc::Global;

/// The sort of an operator on sequences at its arguments' sorts.
pub fn seq_sort(alloc: Global, op: SeqOp, sorts: &[Sort]) -> Result<Sort, SortFault>
    ensures { SortGives result (sort_of_seq op (map plain_sort sorts.now)) }
{
    match (op, sorts) {
        (SeqOp::Seq, _) => seq_of_all(alloc, sorts),
        (_, [s]) => at_one(alloc, op, s),
        (_, [s, t]) => at_two(alloc, op, s, t),
        (SeqOp::At, [s, t, u]) => item_at(alloc, s, t, u),
        _ => Err(SortFault::Kind),
    }
}

/// The sort of the sequences of items of these sorts.
fn seq_of_all(alloc: Global, sorts: &[Sort]) -> Result<Sort, SortFault>
    ensures { SortGives result (sort_of_seq Seq (map plain_sort sorts.now)) }
{
    match join_all(alloc, sorts)? {
        Some(item) => allowed_seq(alloc, item, sorts.len() as u64),
        None => Err(SortFault::Kind),
    }
}

/// The sort of an operator, but for `Seq`, at one argument's sort.
fn at_one(alloc: Global, op: SeqOp, s: &Sort) -> Result<Sort, SortFault>
    requires { ¬ (op ≡ Seq) }
    ensures { SortGives result (sort_of_seq op (plain_sort s.now ∷ [])) }
{
    let Sort::Seq { item, bound } = s else {
        return Err(SortFault::Kind);
    };
    match op {
        SeqOp::Len => between(0, i64::from(*bound)),
        SeqOp::Items => allowed_set(alloc, item.copy(alloc)?),
        SeqOp::Total => sum_sort(*bound, item),
        _ => Err(SortFault::Kind),
    }
}

/// The sort of an operator, but for `Seq`, at two arguments' sorts.
fn at_two(alloc: Global, op: SeqOp, s: &Sort, t: &Sort) -> Result<Sort, SortFault>
    requires { ¬ (op ≡ Seq) }
    ensures { SortGives result (sort_of_seq op (plain_sort s.now ∷ plain_sort t.now ∷ [])) }
{
    match op {
        SeqOp::Snoc => snoc(alloc, s, t),
        SeqOp::Rest => rest(alloc, s, t),
        SeqOp::Prefix => prefix(alloc, s, t),
        _ => Err(SortFault::Kind),
    }
}

/// A sequence with one more item.
fn snoc(alloc: Global, s: &Sort, t: &Sort) -> Result<Sort, SortFault>
    ensures { SortGives result (sort_of_seq Snoc (plain_sort s.now ∷ plain_sort t.now ∷ [])) }
{
    let Sort::Seq { item, bound } = s else {
        return Err(SortFault::Kind);
    };
    match join(alloc, item, t)? {
        Some(item) => allowed_seq(alloc, item, u64::from(*bound) + 1),
        None => Err(SortFault::Kind),
    }
}

/// The items from a place on.
fn rest(alloc: Global, s: &Sort, t: &Sort) -> Result<Sort, SortFault>
    ensures { SortGives result (sort_of_seq Rest (plain_sort s.now ∷ plain_sort t.now ∷ [])) }
{
    match (s, t) {
        (Sort::Seq { .. }, Sort::Int { .. }) => allow(s.copy(alloc)?),
        _ => Err(SortFault::Kind),
    }
}

/// Whether the second begins with the first.
fn prefix(alloc: Global, s: &Sort, t: &Sort) -> Result<Sort, SortFault>
    ensures { SortGives result (sort_of_seq Prefix (plain_sort s.now ∷ plain_sort t.now ∷ [])) }
{
    match (s, t) {
        (Sort::Seq { item: a, .. }, Sort::Seq { item: b, .. }) => comparable(alloc, a, b),
        _ => Err(SortFault::Kind),
    }
}

/// The item at a place, or a value where there is none.
fn item_at(alloc: Global, s: &Sort, place: &Sort, other: &Sort) -> Result<Sort, SortFault>
    ensures { SortGives result (sort_of_seq At (plain_sort s.now ∷ plain_sort place.now ∷ plain_sort other.now ∷ [])) }
{
    match (s, place) {
        (Sort::Seq { item, .. }, Sort::Int { .. }) => joined(alloc, item, other),
        _ => Err(SortFault::Kind),
    }
}
