//! Whether statements meet the rules of sorts.
ghost use Rattle.std.specs.Prelude.{◌≡◌, Ok as Found, IfOk, map};
ghost use Rattle.kid_value.specs.NameView.{plain_name};
ghost use Rattle.kid_value.specs.SortView.{plain_sort};
ghost use Rattle.kid_term.specs.DefView.{plain_def};
ghost use Rattle.kid_term.specs.TermView.{plain_term};
ghost use Rattle.kid_term.specs.Sorting.{sort_of as sort_of_term, fit_parameters};
ghost use Rattle.kid_sorting.specs.Answers.{SortsGive};
ghost use Rattle.kid_prog.specs.PlainStmt.{stmt_row};
ghost use Rattle.kid_prog.specs.StmtView.{plain_stmt};
ghost use Rattle.kid_prog.specs.SettingView.{plain_setting};
ghost use Rattle.kid_prog.specs.Rules.{sorts_of, call_fits, obey};
ghost use Rattle.kid_prog.specs.Steps.{bound, ranged, if_obeys, for_obeys, step};

use crate::statement::Stmt;
use kid_sorting::judge::{is_truth, is_within};
use kid_sorting::names::{copied, is_new};
use kid_sorting::{SortFault, sort_over};
use kid_term::{Def, Term};
use kid_value::{Memory, Names, Sort, Text, subsort};
use std::alloc::Global;

/// What statements are judged against.
#[derive(Clone, Copy)]
pub struct Setting<'a> {
    /// The definitions that terms may call.
    pub definitions: &'a [Def],
    /// The sort of what is emitted.
    pub sort: &'a Sort,
    /// The parameters of the search procedure, where they are known.
    pub parameters: Option<&'a Names>,
}

fn sorts_of(
    alloc: Global,
    definitions: &[Def],
    names: &Names,
    terms: &[Term],
) -> Result<Vec<Sort>, SortFault>
    ensures { SortsGive result (sorts_of (map plain_def definitions.now) names.now (map plain_term terms.now)) }
{
    let mut sorts = Vec::new(alloc);
    for term in terms {
        sorts.push(sort_over(alloc, definitions, names.items(), term)?)?;
    }
    Ok(sorts)
}

/// Whether there are as many sorts as parameters, each a subsort of the parameter's.
fn are_within(parameters: &[(Text, Sort)], sorts: &[Sort]) -> bool
    ensures { result ≡ fit_parameters (map plain_name parameters.now) (map plain_sort sorts.now) }
{
    for (i, parameter) in parameters.iter().enumerate() {
        if i >= sorts.len() || !subsort(&sorts[i], &parameter.1) {
            return false;
        }
    }
    parameters.len() == sorts.len()
}

fn fits_parameters(setting: &Setting, sorts: &[Sort]) -> bool
    ensures { result ≡ call_fits (plain_setting setting.now).parameters (Found (map plain_sort sorts.now)) }
{
    match setting.parameters {
        Some(parameters) => are_within(parameters.items(), sorts),
        None => true,
    }
}

fn call_fits(
    alloc: Global,
    setting: &Setting,
    names: &Names,
    arguments: &[Term],
) -> Result<bool, Memory>
    ensures { IfOk result (λ b. b ≡ call_fits (plain_setting setting.now).parameters (sorts_of (plain_setting setting.now).definitions names.now (map plain_term arguments.now))) }
{
    match sorts_of(alloc, setting.definitions, names, arguments) {
        Ok(sorts) => Ok(fits_parameters(setting, &sorts)),
        Err(SortFault::Memory) => Err(Memory),
        Err(_) => Ok(false),
    }
}

/// The names and one more, or None where it is there already.
fn bound(alloc: Global, names: Names, name: &Text, sort: Sort) -> Result<Option<Names>, Memory>
    ensures { IfOk result (λ o. o ≡ bound names name.now (Found (plain_sort sort))) }
{
    if !is_new(&names, name) {
        return Ok(None);
    }
    let mut names = names;
    names.push(name.copy(alloc)?, sort)?;
    Ok(Some(names))
}

/// The names and one more that has the term's sort.
fn bound_to(
    alloc: Global,
    definitions: &[Def],
    names: Names,
    name: &Text,
    term: &Term,
) -> Result<Option<Names>, Memory>
    ensures { IfOk result (λ o. o ≡ bound names name.now (sort_of_term (map plain_def definitions.now) names (plain_term term.now))) }
{
    match sort_over(alloc, definitions, names.items(), term) {
        Ok(sort) => bound(alloc, names, name, sort),
        Err(SortFault::Memory) => Err(Memory),
        Err(_) => Ok(None),
    }
}

/// The names and one more that has the sort of a set's members.
fn bound_in(alloc: Global, names: Names, name: &Text, set: &Sort) -> Result<Option<Names>, Memory>
    ensures { IfOk result (λ o. o ≡ ranged names name.now (Found (plain_sort set.now))) }
{
    let Sort::Set(element) = set else {
        return Ok(None);
    };
    let element = element.copy(alloc)?;
    bound(alloc, names, name, element)
}

/// The names and one more that goes over the set that a term is.
fn ranged(
    alloc: Global,
    definitions: &[Def],
    names: Names,
    name: &Text,
    term: &Term,
) -> Result<Option<Names>, Memory>
    ensures { IfOk result (λ o. o ≡ ranged names name.now (sort_of_term (map plain_def definitions.now) names (plain_term term.now))) }
{
    match sort_over(alloc, definitions, names.items(), term) {
        Ok(sort) => bound_in(alloc, names, name, &sort),
        Err(SortFault::Memory) => Err(Memory),
        Err(_) => Ok(None),
    }
}

#[cycle(obeys)]
fn if_obeys(
    alloc: Global,
    setting: &Setting,
    names: &Names,
    condition: &Term,
    body: &[Stmt],
) -> Result<bool, Memory>
    ensures { IfOk result (λ b. b ≡ if_obeys (plain_setting setting.now) names.now (plain_term condition.now) (stmt_row (map plain_stmt body.now))) }
{
    if !is_truth(alloc, setting.definitions, names.items(), condition)? {
        return Ok(false);
    }
    obeys(alloc, setting, copied(alloc, names)?, body)
}

#[cycle(obeys)]
fn for_obeys(
    alloc: Global,
    setting: &Setting,
    names: &Names,
    name: &Text,
    set: &Term,
    body: &[Stmt],
) -> Result<bool, Memory>
    ensures { IfOk result (λ b. b ≡ for_obeys (plain_setting setting.now) names.now name.now (plain_term set.now) (stmt_row (map plain_stmt body.now))) }
{
    match ranged(alloc, setting.definitions, copied(alloc, names)?, name, set)? {
        Some(inner) => obeys(alloc, setting, inner, body),
        None => Ok(false),
    }
}

/// The names after a statement, or None where it does not meet the rules.
#[cycle(obeys)]
fn step(
    alloc: Global,
    setting: &Setting,
    names: Names,
    statement: &Stmt,
) -> Result<Option<Names>, Memory>
    ensures { IfOk result (λ o. o ≡ step (plain_setting setting.now) names (plain_stmt statement.now)) }
{
    let obeys = match statement {
        Stmt::Let(name, term) => return bound_to(alloc, setting.definitions, names, name, term),
        Stmt::If(condition, body) => if_obeys(alloc, setting, &names, condition, body.items())?,
        Stmt::For(name, set, body) => for_obeys(alloc, setting, &names, name, set, body.items())?,
        Stmt::Emit(term) => is_within(
            alloc,
            setting.sort,
            setting.definitions,
            names.items(),
            term,
        )?,
        Stmt::Call(arguments) => call_fits(alloc, setting, &names, arguments.items())?,
    };
    if obeys { Ok(Some(names)) } else { Ok(None) }
}

/// Whether statements meet the rules where these names are in scope: each term has a sort over the names in scope, the condition
/// of an `if` is a truth value, a `for` goes over a set, what is emitted lies within the setting's sort, a call fits the parameters
/// where they are known, and no name is bound where it is in scope.
///
/// # Errors
///
/// Fails where memory is wanting.
#[cycle(obeys)]
pub fn obeys(
    alloc: Global,
    setting: &Setting,
    names: Names,
    statements: &[Stmt],
) -> Result<bool, Memory>
    ensures { IfOk result (λ b. b ≡ obey (plain_setting setting.now) names (stmt_row (map plain_stmt statements.now))) }
{
    let mut scope = names;
    for statement in statements {
        match step(alloc, setting, scope, statement)? {
            Some(more) => scope = more,
            None => return Ok(false),
        }
    }
    Ok(true)
}
