//! What a term or a definition must be where it stands.
ghost use Rattle.std.specs.Prelude.{◌≡◌, IfOk, map};
ghost use Rattle.kid_value.specs.NameView.{plain_name};
ghost use Rattle.kid_value.specs.SortView.{plain_sort};
ghost use Rattle.kid_term.specs.DefView.{plain_def};
ghost use Rattle.kid_term.specs.TermView.{plain_term};
ghost use Rattle.kid_term.specs.Sorting.{sort_of as sort_of_term};
ghost use Rattle.kid_sorting.specs.Declaring.{is_truth, is_within, is_sorted_definition, is_undefined};

use crate::fault::SortFault;
use crate::names::are_allowed;
use crate::sorting::sort_over;
use kid_term::substitute::is_same;
use kid_term::{Def, Term};
use kid_value::{Memory, Sort, Text, sort_ok, subsort};
use std::alloc::Global;

/// Whether a term is a condition.
///
/// # Errors
///
/// Fails where memory is wanting.
pub fn is_truth(
    alloc: Global,
    definitions: &[Def],
    names: &[(Text, Sort)],
    term: &Term,
) -> Result<bool, Memory>
    ensures { IfOk result (λ b. b ≡ is_truth (sort_of_term (map plain_def definitions.now) (map plain_name names.now) (plain_term term.now))) }
{
    match sort_over(alloc, definitions, names, term) {
        Ok(Sort::Bool) => Ok(true),
        Ok(_) => Ok(false),
        Err(SortFault::Memory) => Err(Memory),
        Err(_) => Ok(false),
    }
}

/// Whether a term has a sort that lies within this one.
///
/// # Errors
///
/// Fails where memory is wanting.
pub fn is_within(
    alloc: Global,
    sort: &Sort,
    definitions: &[Def],
    names: &[(Text, Sort)],
    term: &Term,
) -> Result<bool, Memory>
    ensures { IfOk result (λ b. b ≡ is_within (plain_sort sort.now) (sort_of_term (map plain_def definitions.now) (map plain_name names.now) (plain_term term.now))) }
{
    match sort_over(alloc, definitions, names, term) {
        Ok(found) => Ok(subsort(&found, sort)),
        Err(SortFault::Memory) => Err(Memory),
        Err(_) => Ok(false),
    }
}

/// Whether a definition has allowed sorts, and a body that lies within its sort, over its parameters and these definitions.
///
/// # Errors
///
/// Fails where memory is wanting.
pub fn is_sorted_definition(
    alloc: Global,
    definitions: &[Def],
    definition: &Def,
) -> Result<bool, Memory>
    ensures { IfOk result (λ b. b ≡ is_sorted_definition (map plain_def definitions.now) (plain_def definition.now)) }
{
    if !are_allowed(&definition.parameters) || !sort_ok(&definition.sort) {
        return Ok(false);
    }
    let names = definition.parameters.items();
    is_within(
        alloc,
        &definition.sort,
        definitions,
        names,
        &definition.body,
    )
}

/// Whether no definition has the name.
pub fn is_undefined(name: &Text, definitions: &[Def]) -> bool
    ensures { result ≡ is_undefined name.now (map plain_def definitions.now) }
{
    for definition in definitions {
        if is_same(name, &definition.name) {
            return false;
        }
    }
    true
}
