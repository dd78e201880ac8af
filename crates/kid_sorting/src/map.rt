ghost use Rattle.std.specs.Prelude.{◌≡◌, ◌∷◌, [], Ok, map};
ghost use Rattle.kid_value.specs.SortView.{plain_sort};
ghost use Rattle.kid_value.specs.PlainSort.{bools, maps};
ghost use Rattle.kid_value.specs.SortOrder.{join as join_of};
ghost use Rattle.kid_term.specs.Sorted.{allowed, with_set, with_join};
ghost use Rattle.kid_term.specs.MapSorts.{map_sort as sort_of_map};
ghost use Rattle.kid_term.specs.declared.operator.MapOp.TheVariants.{Get, Put, Drop, Fill, Submap, Fits, Narrow};
ghost use Rattle.kid_sorting.specs.Answers.{SortGives};

use crate::allow::{allowed_map, allowed_set};
use crate::common::{comparable, joined, whole_if_joined};
use crate::fault::SortFault;
use kid_term::MapOp;
use kid_value::{Sort, join};
use std::alloc::Global;

/// The sort of an operator on maps at its arguments' sorts.
pub fn map_sort(alloc: Global, op: MapOp, sorts: &[Sort]) -> Result<Sort, SortFault>
    ensures { SortGives result (sort_of_map op (map plain_sort sorts.now)) }
{
    match sorts {
        [] => at_none(alloc, op),
        [s] => at_one(alloc, op, s),
        [s, t] => at_two(alloc, op, s, t),
        [s, t, u] => at_three(alloc, op, s, t, u),
        _ => Err(SortFault::Kind),
    }
}

fn at_none(alloc: Global, op: MapOp) -> Result<Sort, SortFault>
    ensures { SortGives result (sort_of_map op []) }
{
    match op {
        MapOp::Map => {
            let key = Box::new(alloc, Sort::Never)?;
            Ok(Sort::Map(key, Box::new(alloc, Sort::Never)?))
        }
        _ => Err(SortFault::Kind),
    }
}

fn at_one(alloc: Global, op: MapOp, s: &Sort) -> Result<Sort, SortFault>
    ensures { SortGives result (sort_of_map op (plain_sort s.now ∷ [])) }
{
    let Sort::Map(key, value) = s else {
        return Err(SortFault::Kind);
    };
    match op {
        MapOp::Dom => allowed_set(alloc, key.copy(alloc)?),
        MapOp::Ran => allowed_set(alloc, value.copy(alloc)?),
        _ => Err(SortFault::Kind),
    }
}

fn at_two(alloc: Global, op: MapOp, s: &Sort, t: &Sort) -> Result<Sort, SortFault>
    ensures { SortGives result (sort_of_map op (plain_sort s.now ∷ plain_sort t.now ∷ [])) }
{
    match op {
        MapOp::Drop => without_key(alloc, s, t),
        MapOp::Fill => filled(alloc, s, t),
        MapOp::Submap => submap(alloc, s, t),
        MapOp::Fits => fits(alloc, s, t),
        MapOp::Narrow => narrow(alloc, s, t),
        _ => Err(SortFault::Kind),
    }
}

fn at_three(alloc: Global, op: MapOp, s: &Sort, t: &Sort, u: &Sort) -> Result<Sort, SortFault>
    ensures { SortGives result (sort_of_map op (plain_sort s.now ∷ plain_sort t.now ∷ plain_sort u.now ∷ [])) }
{
    match op {
        MapOp::Get => value_at(alloc, s, t, u),
        MapOp::Put => with_entry(alloc, s, t, u),
        _ => Err(SortFault::Kind),
    }
}

/// The value at a key, or another where there is none.
fn value_at(alloc: Global, map: &Sort, key: &Sort, other: &Sort) -> Result<Sort, SortFault>
    ensures { SortGives result (sort_of_map Get (plain_sort map.now ∷ plain_sort key.now ∷ plain_sort other.now ∷ [])) }
{
    let Sort::Map(a, b) = map else {
        return Err(SortFault::Kind);
    };
    match join(alloc, a, key)? {
        Some(_) => joined(alloc, b, other),
        None => Err(SortFault::Kind),
    }
}

/// A map with a value at a key.
fn with_entry(alloc: Global, map: &Sort, key: &Sort, value: &Sort) -> Result<Sort, SortFault>
    ensures { SortGives result (sort_of_map Put (plain_sort map.now ∷ plain_sort key.now ∷ plain_sort value.now ∷ [])) }
{
    let Sort::Map(a, b) = map else {
        return Err(SortFault::Kind);
    };
    match join(alloc, a, key)? {
        Some(key) => map_to_joined(alloc, key, b, value),
        None => Err(SortFault::Kind),
    }
}

/// The sort of the maps from `key` to the least sort above both others.
fn map_to_joined(alloc: Global, key: Sort, s: &Sort, t: &Sort) -> Result<Sort, SortFault>
    ensures { SortGives result (with_join (join_of (plain_sort s.now) (plain_sort t.now)) (λ v. allowed (maps (plain_sort key) v))) }
{
    match join(alloc, s, t)? {
        Some(value) => allowed_map(alloc, key, value),
        None => Err(SortFault::Kind),
    }
}

/// A map without a key.
fn without_key(alloc: Global, map: &Sort, key: &Sort) -> Result<Sort, SortFault>
    ensures { SortGives result (sort_of_map Drop (plain_sort map.now ∷ plain_sort key.now ∷ [])) }
{
    match map {
        Sort::Map(a, _) => whole_if_joined(alloc, a, key, map),
        _ => Err(SortFault::Kind),
    }
}

/// The map from each member of a set to one value.
fn filled(alloc: Global, set: &Sort, value: &Sort) -> Result<Sort, SortFault>
    ensures { SortGives result (sort_of_map Fill (plain_sort set.now ∷ plain_sort value.now ∷ [])) }
{
    let Sort::Set(a) = set else {
        return Err(SortFault::Kind);
    };
    let key = a.copy(alloc)?;
    let value = value.copy(alloc)?;
    allowed_map(alloc, key, value)
}

/// Whether each entry of the first is one of the second.
fn submap(alloc: Global, m: &Sort, n: &Sort) -> Result<Sort, SortFault>
    ensures { SortGives result (sort_of_map Submap (plain_sort m.now ∷ plain_sort n.now ∷ [])) }
{
    let (Sort::Map(a, b), Sort::Map(c, d)) = (m, n) else {
        return Err(SortFault::Kind);
    };
    match join(alloc, a, c)? {
        Some(_) => comparable(alloc, b, d),
        None => Err(SortFault::Kind),
    }
}

/// Whether each value of the first is a member of the second's set at its key.
fn fits(alloc: Global, m: &Sort, n: &Sort) -> Result<Sort, SortFault>
    ensures { SortGives result (sort_of_map Fits (plain_sort m.now ∷ plain_sort n.now ∷ [])) }
{
    let (Sort::Map(a, b), Sort::Map(c, d)) = (m, n) else {
        return Err(SortFault::Kind);
    };
    match join(alloc, a, c)? {
        Some(_) => member_of(alloc, b, d),
        None => Err(SortFault::Kind),
    }
}

/// The truth values, if a value of the first may be a member of the second.
fn member_of(alloc: Global, value: &Sort, set: &Sort) -> Result<Sort, SortFault>
    ensures { SortGives result (with_set (plain_sort set.now) (λ e. with_join (join_of (plain_sort value.now) e) (λ _. Ok bools))) }
{
    match set {
        Sort::Set(element) => comparable(alloc, value, element),
        _ => Err(SortFault::Kind),
    }
}

/// Each set of the first without what the second's at its key has not.
fn narrow(alloc: Global, m: &Sort, n: &Sort) -> Result<Sort, SortFault>
    ensures { SortGives result (sort_of_map Narrow (plain_sort m.now ∷ plain_sort n.now ∷ [])) }
{
    let (Sort::Map(a, b), Sort::Map(c, d)) = (m, n) else {
        return Err(SortFault::Kind);
    };
    match join(alloc, a, c)? {
        Some(_) => whole_if_sets_joined(alloc, b, d, m),
        None => Err(SortFault::Kind),
    }
}

/// An equal sort to `whole`, if both others are of sets whose members have a sort above both.
fn whole_if_sets_joined(alloc: Global, s: &Sort, t: &Sort, whole: &Sort) -> Result<Sort, SortFault>
    ensures { SortGives result (with_set (plain_sort s.now) (λ x. with_set (plain_sort t.now) (λ y. with_join (join_of x y) (λ _. allowed (plain_sort whole.now))))) }
{
    match (s, t) {
        (Sort::Set(x), Sort::Set(y)) => whole_if_joined(alloc, x, y, whole),
        _ => Err(SortFault::Kind),
    }
}
