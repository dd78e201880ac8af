ghost use Rattle.std.specs.Prelude.{◌≡◌, IfOk, true, List, ℕ};
ghost use Rattle.kid_value.specs.NameSet.{names_ascend, names_union};
ghost use Rattle.std.specs.Option.{option_map};
ghost use Rattle.kid_value.specs.Join.{IsJoin};
ghost use Rattle.kid_value.specs.PlainSort.{has_sort, pairs, sets, seqs, maps};
ghost use Rattle.kid_value.specs.SortOrder.{is_subsort, join as join_of, both};
ghost use Rattle.kid_value.specs.PlainValue.{PlainValue};
ghost use Rattle.kid_value.specs.SortView.{plain_sort};

use crate::memory::Memory;
use crate::name_set::{are_among, union};
use crate::sort::Sort;
use std::alloc::Global;

/// Whether the first sort is `Never`, or both have one shape and the bounds and names of the first lie in those of the second.
pub fn subsort(a: &Sort, b: &Sort) -> bool
    ensures value { result ≡ is_subsort (plain_sort a.now) (plain_sort b.now) }
    ensures keeps { result ≡ true → (v : PlainValue) → has_sort (plain_sort a.now) v ≡ true → has_sort (plain_sort b.now) v ≡ true }
{
    is_below(a, b)
}

fn is_below(a: &Sort, b: &Sort) -> bool
    ensures { result ≡ is_subsort (plain_sort a.now) (plain_sort b.now) }
{
    match (a, b) {
        (Sort::Never, _) => true,
        (Sort::Bool, Sort::Bool) => true,
        (Sort::Int { lo, hi }, Sort::Int { lo: low, hi: high }) => *low <= *lo && *hi <= *high,
        (Sort::Pair(a, b), Sort::Pair(c, d)) => is_below(a, c) && is_below(b, d),
        (Sort::Set(a), Sort::Set(c)) => is_below(a, c),
        (Sort::Seq { item: a, bound: n }, Sort::Seq { item: c, bound: m }) => is_below(a, c)
            && *n <= *m,
        (Sort::Map(a, b), Sort::Map(c, d)) => is_below(a, c) && is_below(b, d),
        (Sort::Enum(a), Sort::Enum(b)) => are_among(a.items(), b.items()),
        _ => false,
    }
}

/// The least sort above both, or `None` where no sort is above both. It may be a sort that is not allowed.
/// An error comes where memory is wanting.
pub fn join(alloc: Global, a: &Sort, b: &Sort) -> Result<Option<Sort>, Memory>
    ensures value { IfOk result (λ o. option_map plain_sort o ≡ join_of (plain_sort a.now) (plain_sort b.now)) }
    ensures ascends { (ms ns : List (List ℕ)) → names_ascend ms ≡ true → names_ascend (names_union ms ns) ≡ true }
    ensures least { IfOk result (λ o. IsJoin (plain_sort a.now) (plain_sort b.now) (option_map plain_sort o)) }
{
    joined(alloc, a, b)
}

fn joined(alloc: Global, a: &Sort, b: &Sort) -> Result<Option<Sort>, Memory>
    ensures { IfOk result (λ o. option_map plain_sort o ≡ join_of (plain_sort a.now) (plain_sort b.now)) }
{
    match (a, b) {
        (Sort::Never, _) => Ok(Some(b.copy(alloc)?)),
        (_, Sort::Never) => Ok(Some(a.copy(alloc)?)),
        (Sort::Bool, Sort::Bool) => Ok(Some(Sort::Bool)),
        (Sort::Int { lo, hi }, Sort::Int { lo: low, hi: high }) => Ok(Some(Sort::Int {
            lo: (*lo).min(*low),
            hi: (*hi).max(*high),
        })),
        (Sort::Pair(a, b), Sort::Pair(c, d)) => {
            let first = joined(alloc, a, c)?;
            let second = joined(alloc, b, d)?;
            pair_of(alloc, first, second)
        }
        (Sort::Set(a), Sort::Set(c)) => {
            let item = joined(alloc, a, c)?;
            set_of(alloc, item)
        }
        (Sort::Seq { item: a, bound: n }, Sort::Seq { item: c, bound: m }) => {
            let item = joined(alloc, a, c)?;
            sequence_of(alloc, item, (*n).max(*m))
        }
        (Sort::Map(a, b), Sort::Map(c, d)) => {
            let key = joined(alloc, a, c)?;
            let value = joined(alloc, b, d)?;
            map_of(alloc, key, value)
        }
        (Sort::Enum(a), Sort::Enum(b)) => Ok(Some(Sort::Enum(union(alloc, a, b)?))),
        _ => Ok(None),
    }
}

fn pair_of(alloc: Global, first: Option<Sort>, second: Option<Sort>) -> Result<Option<Sort>, Memory>
    ensures { IfOk result (λ o. option_map plain_sort o ≡ both pairs (option_map plain_sort first) (option_map plain_sort second)) }
{
    match (first, second) {
        (Some(a), Some(b)) => Ok(Some(Sort::Pair(Box::new(alloc, a)?, Box::new(alloc, b)?))),
        _ => Ok(None),
    }
}

fn set_of(alloc: Global, item: Option<Sort>) -> Result<Option<Sort>, Memory>
    ensures { IfOk result (λ o. option_map plain_sort o ≡ option_map sets (option_map plain_sort item)) }
{
    match item {
        Some(a) => Ok(Some(Sort::Set(Box::new(alloc, a)?))),
        None => Ok(None),
    }
}

fn sequence_of(alloc: Global, item: Option<Sort>, bound: u32) -> Result<Option<Sort>, Memory>
    ensures { IfOk result (λ o. option_map plain_sort o ≡ option_map (λ x. seqs x bound) (option_map plain_sort item)) }
{
    match item {
        Some(a) => Ok(Some(Sort::Seq {
            item: Box::new(alloc, a)?,
            bound,
        })),
        None => Ok(None),
    }
}

fn map_of(alloc: Global, key: Option<Sort>, value: Option<Sort>) -> Result<Option<Sort>, Memory>
    ensures { IfOk result (λ o. option_map plain_sort o ≡ both maps (option_map plain_sort key) (option_map plain_sort value)) }
{
    match (key, value) {
        (Some(a), Some(b)) => Ok(Some(Sort::Map(Box::new(alloc, a)?, Box::new(alloc, b)?))),
        _ => Ok(None),
    }
}
