ghost use Rattle.std.specs.Prelude.{◌≡◌};
ghost use Rattle.kid_value.specs.SortView.{plain_sort};
ghost use Rattle.kid_term.specs.SumSort.{sum_sort as sort_of_sum};
ghost use Rattle.kid_sorting.specs.Answers.{SortGives};

use crate::fault::SortFault;
use crate::interval::Interval;
use kid_value::Sort;

/// The sort of a sum of at most `count` numbers.
pub fn sum_sort(count: u32, number: &Sort) -> Result<Sort, SortFault>
    ensures { SortGives result (sort_of_sum count (plain_sort number.now)) }
{
    match number {
        Sort::Int { lo, hi } => Interval { lo: *lo, hi: *hi }.total(count),
        Sort::Never => Ok(Sort::Int { lo: 0, hi: 0 }),
        _ => Err(SortFault::Kind),
    }
}
