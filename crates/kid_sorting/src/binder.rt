ghost use Rattle.std.specs.Prelude.{◌≡◌, Ok};
ghost use Rattle.kid_value.specs.PlainSort.{sets};
ghost use Rattle.kid_value.specs.SortView.{plain_sort};
ghost use Rattle.kid_term.specs.Sorting.{binder_sort as sort_of_binder};
ghost use Rattle.kid_sorting.specs.Answers.{SortGives};

use crate::allow::allow;
use crate::fault::SortFault;
use crate::total::sum_sort;
use kid_term::Binder;
use kid_value::{Sort, count_of};
use std::alloc::Global;

/// What a binder gives over a set of `element` where its body is of the sort.
pub fn binder_sort(
    alloc: Global,
    binder: Binder,
    element: &Sort,
    body: &Sort,
) -> Result<Sort, SortFault>
    ensures { SortGives result (sort_of_binder binder (plain_sort element.now) (plain_sort body.now)) }
{
    match (binder, body) {
        (Binder::All | Binder::Some, Sort::Bool) => Ok(Sort::Bool),
        (Binder::SetOf, Sort::Bool) => Ok(set_of(alloc, element)?),
        (Binder::Image, _) => allow(set_of(alloc, body)?),
        (Binder::SumOf, _) => sum_sort(count_of(element), body),
        _ => Err(SortFault::Kind),
    }
}

/// The sort of the sets of a sort.
fn set_of(alloc: Global, element: &Sort) -> Result<Sort, SortFault>
    ensures { SortGives result (Ok (sets (plain_sort element.now))) }
{
    let element = element.copy(alloc)?;
    Ok(Sort::Set(Box::new(alloc, element)?))
}
