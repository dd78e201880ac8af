ghost use Rattle.std.specs.Prelude.{◌≡◌, map};
ghost use Rattle.std.specs.Option.{option_map};
ghost use Rattle.kid_value.specs.SortView.{plain_sort};
ghost use Rattle.kid_value.specs.PlainSort.{maps};
ghost use Rattle.kid_value.specs.SortOrder.{join as join_of};
ghost use Rattle.kid_term.specs.Sorted.{Kind, allowed, with_join};
ghost use Rattle.kid_term.specs.WordSorts.{word_sort as sort_of_word, row_parts as parts_of_row, rows as sort_of_rows, keys_from as keys_upward, given};
ghost use Rattle.kid_term.specs.declared.operator.WordOp.TheVariants.{Renc, Rdec, Rget, Rput, Rdrop};
ghost use Rattle.kid_sorting.specs.Answers.{SortGives};

use crate::allow::{allow, allowed_seq};
use crate::common::joined;
use crate::fault::SortFault;
use crate::keys::{are_keys, count_in, map_of_keys};
use crate::word::Numbers;
use kid_value::{Sort, join};
use std::alloc::Global;

/// As many items as a row of a map may have.
const ROW_SIZE: u32 = 4096;

/// The sort of a row's values and how many items it may have, or `None` where the sort is of no rows.
fn row_parts(sort: &Sort) -> Option<(&Sort, u32)>
    ensures { option_map (λ p. (plain_sort p.0.now, p.1)) result ≡ parts_of_row (plain_sort sort.now) }
{
    let Sort::Seq { item, bound } = sort else {
        return None;
    };
    let Sort::Seq {
        item: value,
        bound: most,
    } = &**item
    else {
        return None;
    };
    if *most <= 1 && 1 <= *bound {
        Some((value, *bound))
    } else {
        None
    }
}

/// The sort of the rows of so many items of a sort.
fn rows(alloc: Global, value: Sort, count: u32) -> Result<Sort, SortFault>
    ensures { SortGives result (allowed (sort_of_rows (plain_sort value) count)) }
{
    let item = Sort::Seq {
        item: Box::new(alloc, value)?,
        bound: 1,
    };
    allowed_seq(alloc, item, u64::from(count))
}

/// The sort of the rows of so many items of the least sort above both.
fn rows_of_joined(alloc: Global, s: &Sort, t: &Sort, count: u32) -> Result<Sort, SortFault>
    ensures { SortGives result (with_join (join_of (plain_sort s.now) (plain_sort t.now)) (λ e. allowed (sort_of_rows e count))) }
{
    match join(alloc, s, t)? {
        Some(value) => rows(alloc, value, count),
        None => Err(SortFault::Kind),
    }
}

/// The row of a map.
pub fn renc(alloc: Global, numbers: &Numbers, sorts: &[Sort]) -> Result<Sort, SortFault>
    ensures { SortGives result (sort_of_word Renc (numbers.now.first, numbers.now.second) (map plain_sort sorts.now)) }
{
    let [_, _, map] = sorts else {
        return Err(SortFault::Kind);
    };
    let (Some(_), Some(count)) = (numbers.first, numbers.second) else {
        return Err(SortFault::Kind);
    };
    let Sort::Map(key, value) = map else {
        return Err(SortFault::Kind);
    };
    if !are_keys(key) {
        return Err(SortFault::Kind);
    }
    match count_in(ROW_SIZE, count) {
        Some(count) => rows(alloc, value.copy(alloc)?, count),
        None => Err(SortFault::Bounds),
    }
}

/// The map of a row.
pub fn rdec(alloc: Global, numbers: &Numbers, sorts: &[Sort]) -> Result<Sort, SortFault>
    ensures { SortGives result (sort_of_word Rdec (numbers.now.first, numbers.now.second) (map plain_sort sorts.now)) }
{
    match sorts {
        [_, row] => map_of_row(alloc, numbers, row),
        _ => Err(SortFault::Kind),
    }
}

fn map_of_row(alloc: Global, numbers: &Numbers, row: &Sort) -> Result<Sort, SortFault>
    ensures { SortGives result (given Kind numbers.now.first (λ lo. given Kind (parts_of_row (plain_sort row.now)) (λ p. allowed (maps (keys_upward lo p.1) p.0)))) }
{
    let Some(lo) = numbers.first else {
        return Err(SortFault::Kind);
    };
    let Some((value, count)) = row_parts(row) else {
        return Err(SortFault::Kind);
    };
    map_of_keys(alloc, lo, count, value.copy(alloc)?)
}

/// The value at a key, or another where there is none.
pub fn rget(alloc: Global, numbers: &Numbers, sorts: &[Sort]) -> Result<Sort, SortFault>
    ensures { SortGives result (sort_of_word Rget (numbers.now.first, numbers.now.second) (map plain_sort sorts.now)) }
{
    let [_, row, key, other] = sorts else {
        return Err(SortFault::Kind);
    };
    if numbers.first.is_none() {
        return Err(SortFault::Kind);
    }
    match (row_parts(row), key) {
        (Some((value, _)), Sort::Int { .. }) => joined(alloc, value, other),
        _ => Err(SortFault::Kind),
    }
}

/// A row with a value at a key.
pub fn rput(alloc: Global, numbers: &Numbers, sorts: &[Sort]) -> Result<Sort, SortFault>
    ensures { SortGives result (sort_of_word Rput (numbers.now.first, numbers.now.second) (map plain_sort sorts.now)) }
{
    let [_, row, key, value] = sorts else {
        return Err(SortFault::Kind);
    };
    if numbers.first.is_none() {
        return Err(SortFault::Kind);
    }
    let (Some((old, count)), Sort::Int { .. }) = (row_parts(row), key) else {
        return Err(SortFault::Kind);
    };
    rows_of_joined(alloc, old, value, count)
}

/// A row without a value at a key.
pub fn rdrop(alloc: Global, numbers: &Numbers, sorts: &[Sort]) -> Result<Sort, SortFault>
    ensures { SortGives result (sort_of_word Rdrop (numbers.now.first, numbers.now.second) (map plain_sort sorts.now)) }
{
    let [_, row, key] = sorts else {
        return Err(SortFault::Kind);
    };
    if numbers.first.is_none() {
        return Err(SortFault::Kind);
    }
    match (row_parts(row), key) {
        (Some(_), Sort::Int { .. }) => allow(row.copy(alloc)?),
        _ => Err(SortFault::Kind),
    }
}
