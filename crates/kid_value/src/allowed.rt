ghost use Rattle.std.specs.Prelude.{◌≡◌, ◌&&◌, nat_le, length};
ghost use Rattle.kid_value.specs.NameSet.{names_ascend as ascending};
ghost use Rattle.kid_value.specs.SortLimits.{in_limits as lies_within, is_allowed, is_bounded as bounded, sort_depth};
ghost use Rattle.kid_value.specs.PlainSort.{has_never as holds_never};
ghost use Rattle.kid_value.specs.SortView.{plain_sort};

use crate::count::count_of;
use crate::name_set::names_ascend;
use crate::sort::Sort;
use crate::text::Text;

/// The greatest integer of a sort, and with its sign changed the least.
pub const LIMIT: i64 = 4611686018427387904;

/// Whether a number lies within plus or minus `LIMIT`.
pub fn in_limits(n: i64) -> bool
    ensures { result ≡ lies_within n }
{
    -LIMIT <= n && n <= LIMIT
}

/// Whether a sort is an allowed one: at most 8 deep, with integer bounds in order and within the limits, element and key sorts
/// of at most 65536 values, sequence bounds of at most 65536, and enums of 1 to 64 texts that ascend strictly by their bytes.
/// Any bytes will do for these texts: whether they can be written as names is asked where a file is read.
pub fn sort_ok(s: &Sort) -> bool
    ensures { result ≡ is_allowed (plain_sort s.now) }
{
    is_shallow(s, 8) && is_bounded(s)
}

/// Whether a sort nests at most as deep as there is room.
fn is_shallow(s: &Sort, room: u32) -> bool
    ensures { result ≡ nat_le (sort_depth (plain_sort s.now)) room }
{
    if room == 0 {
        return false;
    }
    match s {
        Sort::Never | Sort::Bool | Sort::Int { .. } | Sort::Enum(_) => true,
        Sort::Pair(a, b) | Sort::Map(a, b) => is_shallow(a, room - 1) && is_shallow(b, room - 1),
        Sort::Set(a) => is_shallow(a, room - 1),
        Sort::Seq { item, .. } => is_shallow(item, room - 1),
    }
}

fn is_bounded(s: &Sort) -> bool
    ensures { result ≡ bounded (plain_sort s.now) }
{
    match s {
        Sort::Never | Sort::Bool => true,
        Sort::Int { lo, hi } => *lo <= *hi && -LIMIT <= *lo && *hi <= LIMIT,
        Sort::Pair(a, b) => is_bounded(a) && is_bounded(b),
        Sort::Set(a) => is_bounded(a) && count_of(a) <= 65536,
        Sort::Seq { item, bound } => is_bounded(item) && *bound <= 65536,
        Sort::Map(a, b) => is_bounded(a) && count_of(a) <= 65536 && is_bounded(b),
        Sort::Enum(names) => has_names(names.items()),
    }
}

/// Whether an enum may have these texts as its names.
fn has_names(names: &[Text]) -> bool
    ensures { result ≡ (nat_le 1 (length names.now) && nat_le (length names.now) 64 && ascending names.now) }
{
    1 <= names.len() && names.len() <= 64 && names_ascend(names)
}

/// Whether a sort holds `Never`, the sort without values, at any depth.
pub fn has_never(s: &Sort) -> bool
    ensures { result ≡ holds_never (plain_sort s.now) }
{
    match s {
        Sort::Never => true,
        Sort::Bool | Sort::Int { .. } | Sort::Enum(_) => false,
        Sort::Pair(a, b) | Sort::Map(a, b) => has_never(a) || has_never(b),
        Sort::Set(a) => has_never(a),
        Sort::Seq { item, .. } => has_never(item),
    }
}
