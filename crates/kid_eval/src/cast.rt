//! Values made to have a sort.
ghost use Rattle.std.specs.Prelude.{◌≡◌, ◌∷◌, [], IfOk};
ghost use Rattle.kid_value.specs.ValueView.{plain};
ghost use Rattle.kid_value.specs.SortView.{plain_sort};
ghost use Rattle.kid_term.specs.Eval.{cast_value};
ghost use Rattle.kid_eval.specs.ScopeView.{plain_seen};

use crate::scope::{Seen, into_owned, seen_value};
use kid_value::{Memory, Sort, Value, has_sort, least_of};
use std::alloc::Global;

/// The value where it has the sort, else the sort's least value.
pub fn cast<'a>(alloc: Global, sort: &Sort, seen: Seen<'a>) -> Result<Value, Memory>
    ensures { IfOk result (λ v. plain v ≡ cast_value (plain_sort sort.now) (plain_seen seen.entry ∷ [])) }
{
    if has_sort(seen_value(&seen), sort) {
        into_owned(alloc, seen)
    } else {
        least_of(alloc, sort)
    }
}
