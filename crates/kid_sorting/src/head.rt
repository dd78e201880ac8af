ghost use Rattle.std.specs.Prelude.{◌≡◌, map};
ghost use Rattle.kid_value.specs.SortView.{plain_sort};
ghost use Rattle.kid_term.specs.DefView.{plain_def};
ghost use Rattle.kid_value.specs.NameView.{plain_name};
ghost use Rattle.kid_term.specs.Names.{latest_first};
ghost use Rattle.kid_term.specs.PlainTerm.{term_row};
ghost use Rattle.kid_term.specs.TermView.{plain_head, plain_term};
ghost use Rattle.kid_term.specs.Written.{written};
ghost use Rattle.kid_term.specs.Sorting.{head_sort as sort_of_head, call_sort as sort_of_call, cast_sort as sort_of_cast, fit_parameters};
ghost use Rattle.kid_sorting.specs.Answers.{SortGives};

use crate::allow::allow;
use crate::fault::SortFault;
use crate::find::find_definition;
use crate::logic::logic_sort;
use crate::map::map_sort;
use crate::number::number_sort;
use crate::pair::pair_sort;
use crate::seq::seq_sort;
use crate::set::set_sort;
use crate::word::word_sort;
use kid_term::{Def, Head, Op, Term};
use kid_value::{Sort, Text, has_never, subsort};
use std::alloc::Global;

/// The sort of a head at its arguments and their sorts.
pub fn head_sort(
    alloc: Global,
    definitions: &[Def],
    head: &Head,
    terms: &[Term],
    sorts: &[Sort],
) -> Result<Sort, SortFault>
    ensures { SortGives result (sort_of_head (latest_first (map plain_def definitions.now)) (plain_head head.now) (written (term_row (map plain_term terms.now))) (map plain_sort sorts.now)) }
{
    match head {
        Head::Op(Op::Logic(op)) => logic_sort(alloc, *op, sorts),
        Head::Op(Op::Number(op)) => number_sort(*op, sorts),
        Head::Op(Op::Pair(op)) => pair_sort(alloc, *op, sorts),
        Head::Op(Op::Set(op)) => set_sort(alloc, *op, sorts),
        Head::Op(Op::Seq(op)) => seq_sort(alloc, *op, sorts),
        Head::Op(Op::Map(op)) => map_sort(alloc, *op, sorts),
        Head::Op(Op::Word(op)) => word_sort(alloc, *op, terms, sorts),
        Head::Call(name) => call_sort(alloc, definitions, name, sorts),
        Head::Cast(sort) => cast_sort(alloc, sort, sorts),
    }
}

/// The declared sort of the latest definition of the name.
fn call_sort(
    alloc: Global,
    definitions: &[Def],
    name: &Text,
    sorts: &[Sort],
) -> Result<Sort, SortFault>
    ensures { SortGives result (sort_of_call name.now (latest_first (map plain_def definitions.now)) (map plain_sort sorts.now)) }
{
    match find_definition(definitions, name) {
        Some(definition) => if are_within(definition.parameters.items(), sorts) {
            Ok(definition.sort.copy(alloc)?)
        } else {
            Err(SortFault::Kind)
        },
        None => Err(SortFault::Unknown),
    }
}

/// Whether there are as many sorts as parameters, each a subsort of the parameter's.
fn are_within(parameters: &[(Text, Sort)], sorts: &[Sort]) -> bool
    ensures { result ≡ fit_parameters (map plain_name parameters.now) (map plain_sort sorts.now) }
{
    for (i, parameter) in parameters.iter().enumerate() {
        if i >= sorts.len() || !subsort(&sorts[i], &parameter.1) {
            return false;
        }
    }
    parameters.len() == sorts.len()
}

fn cast_sort(alloc: Global, sort: &Sort, sorts: &[Sort]) -> Result<Sort, SortFault>
    ensures { SortGives result (sort_of_cast (plain_sort sort.now) (map plain_sort sorts.now)) }
{
    if sorts.len() != 1 {
        return Err(SortFault::Kind);
    }
    if has_never(sort) {
        return Err(SortFault::Bounds);
    }
    allow(sort.copy(alloc)?)
}
