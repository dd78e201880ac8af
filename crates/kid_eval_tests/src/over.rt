//! The judge of values that were found, and the value of a term over names that may not have been built.
ghost use Rattle.std.specs.Prelude.{◌≡◌, true, IsOkAnd};
ghost use Rattle.kid_value.specs.PlainValue.{int};
ghost use Rattle.kid_value.specs.ValueView.{plain};

use crate::sorted::value_over;
use kid_sorting::SortFault;
use kid_term::{Defs, Term};
use kid_value::{Names, Value, Values};
use std::alloc::Global;

/// Whether this number was found.
pub fn is_number(found: &Result<Value, SortFault>, want: i64) -> bool
    ensures { result ≡ true → IsOkAnd found.now (λ v. plain v ≡ int want) }
{
    match found {
        Ok(Value::Int(n)) => *n == want,
        _ => false,
    }
}

/// The value of the term where these names have these values.
pub fn over(
    alloc: Global,
    names: &Result<Names, SortFault>,
    values: &Result<Values, SortFault>,
    term: &Result<Term, SortFault>,
) -> Result<Value, SortFault> {
    match (names, values, term) {
        (Ok(names), Ok(values), Ok(term)) => value_over(
            alloc,
            &Defs::new(alloc),
            names.items(),
            values.items(),
            term,
        ),
        _ => Err(SortFault::Memory),
    }
}
