ghost use Rattle.std.specs.Prelude.{◌≡◌, ◌∷◌, []};
ghost use Rattle.kid_value.specs.PlainSort.{ints, pairs, sets, seqs, maps, enums};
ghost use Rattle.kid_value.specs.SortView.{plain_sort};
ghost use Rattle.kid_term.specs.Sorted.{allowed};
ghost use Rattle.kid_sorting.specs.Answers.{SortGives};

use crate::fault::SortFault;
use kid_value::{Sort, Text, Texts, sort_ok};
use std::alloc::Global;

/// As many items a sequence of a sort may have.
const MAX_ITEMS: u64 = 65536;

/// The sort, if it is an allowed one.
pub fn allow(sort: Sort) -> Result<Sort, SortFault>
    ensures { SortGives result (allowed (plain_sort sort)) }
{
    if sort_ok(&sort) {
        Ok(sort)
    } else {
        Err(SortFault::Bounds)
    }
}

/// The sort of the integers from `lo` to `hi`, if it is an allowed one.
pub fn between(lo: i64, hi: i64) -> Result<Sort, SortFault>
    ensures { SortGives result (allowed (ints lo hi)) }
{
    allow(Sort::Int { lo, hi })
}

/// The sort that one name alone is in.
pub fn enum_of(alloc: Global, name: &Text) -> Result<Sort, SortFault>
    ensures { SortGives result (allowed (enums (name.now ∷ []))) }
{
    let mut names = Texts::new(alloc);
    names.push(name.copy(alloc)?)?;
    allow(Sort::Enum(names))
}

/// The sort of the pairs of two sorts, if it is an allowed one.
pub fn allowed_pair(alloc: Global, first: Sort, second: Sort) -> Result<Sort, SortFault>
    ensures { SortGives result (allowed (pairs (plain_sort first) (plain_sort second))) }
{
    let first = Box::new(alloc, first)?;
    let second = Box::new(alloc, second)?;
    allow(Sort::Pair(first, second))
}

/// The sort of the sets of a sort, if it is an allowed one.
pub fn allowed_set(alloc: Global, element: Sort) -> Result<Sort, SortFault>
    ensures { SortGives result (allowed (sets (plain_sort element))) }
{
    allow(Sort::Set(Box::new(alloc, element)?))
}

/// The sort of the sequences of at most `bound` items of a sort, if it is an allowed one.
#[tactic(auto, using(crate::proofs::JoinLemmas::too_long))]
pub fn allowed_seq(alloc: Global, item: Sort, bound: u64) -> Result<Sort, SortFault>
    ensures { SortGives result (allowed (seqs (plain_sort item) bound)) }
{
    if bound > MAX_ITEMS {
        return Err(SortFault::Bounds);
    }
    let item = Box::new(alloc, item)?;
    allow(Sort::Seq {
        item,
        bound: bound as u32,
    })
}

/// The sort of the maps from a sort to a sort, if it is an allowed one.
pub fn allowed_map(alloc: Global, key: Sort, value: Sort) -> Result<Sort, SortFault>
    ensures { SortGives result (allowed (maps (plain_sort key) (plain_sort value))) }
{
    let key = Box::new(alloc, key)?;
    let value = Box::new(alloc, value)?;
    allow(Sort::Map(key, value))
}
