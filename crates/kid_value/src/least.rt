ghost use Rattle.std.specs.Prelude.{◌≡◌, IfOk};
ghost use Rattle.kid_value.specs.Least.{least_value, IsLeastOf};
ghost use Rattle.kid_value.specs.SortView.{plain_sort};
ghost use Rattle.kid_value.specs.ValueView.{plain};

use crate::entries::Entries;
use crate::members::Members;
use crate::memory::Memory;
use crate::name_set::least_name;
use crate::sort::Sort;
use crate::value::Value;
use crate::values::Values;
use std::alloc::Global;

/// The least value of a sort, or an error where memory is wanting. Where the sort has no value, it is one of another sort.
#[tactic(auto, using(crate::proofs::LeastLemmas::least_value_least))]
pub fn least_of(alloc: Global, s: &Sort) -> Result<Value, Memory>
    ensures value { IfOk result (λ v. plain v ≡ least_value (plain_sort s.now)) }
    ensures least { IfOk result (λ v. IsLeastOf (plain_sort s.now) (plain v)) }
{
    least_from(alloc, s)
}

fn least_from(alloc: Global, s: &Sort) -> Result<Value, Memory>
    ensures { IfOk result (λ v. plain v ≡ least_value (plain_sort s.now)) }
{
    match s {
        Sort::Never | Sort::Bool => Ok(Value::Bool(false)),
        Sort::Int { lo, .. } => Ok(Value::Int(*lo)),
        Sort::Pair(a, b) => {
            let first = least_from(alloc, a)?;
            let second = least_from(alloc, b)?;
            Value::pair(alloc, first, second)
        }
        Sort::Set(_) => Ok(Value::Set(Members::new(alloc))),
        Sort::Seq { .. } => Ok(Value::Seq(Values::new(alloc))),
        Sort::Map(_, _) => Ok(Value::Map(Entries::new(alloc))),
        Sort::Enum(names) => Ok(Value::Tag(least_name(alloc, names)?)),
    }
}
