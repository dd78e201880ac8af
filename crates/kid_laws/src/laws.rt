//! The laws as they are written, and with terms put in.
ghost use Rattle.std.specs.Prelude.{◌≡◌, ◌∷◌, [], IfOk, Some, false, is_some, map};
ghost use Rattle.kid_term.specs.Simultaneous.{term_at};
ghost use Rattle.kid_term.specs.SubstView.{plain_pair};
ghost use Rattle.kid_laws.specs.Instances.{plain_instance, plain_pattern, Shows, filled, all_given, outcome, made_of, Gives, IsTrueInstance};
ghost use Rattle.kid_laws.specs.Steps.{plain_row, term_of};
ghost use Rattle.kid_laws.specs.Table.{law_at, laws_of};
ghost use Rattle.kid_laws.specs.declared.kind.LawKind.TheVariants as law_kind;

use crate::build::{built, is_letter};
use crate::kind::LawKind;
use crate::parts::{Instance, LawFault, Pattern};
use crate::step::{Row, Step};
use crate::table::row;
use kid_term::{Subst, Term, Terms};
use kid_value::{Memory, Text, Texts};
use std::alloc::Global;

/// Whether the letter has a term.
fn has(items: &[(Text, Term)], letter: u8) -> bool
    ensures { result ≡ is_some (term_at (letter ∷ []) (map plain_pair items.now)) }
{
    for item in items {
        if is_letter(letter, &item.0) {
            return true;
        }
    }
    false
}

/// Whether each of the letters has a term.
fn has_all(letters: &[u8], subst: &Subst) -> bool
    ensures { result ≡ all_given (map (λ x. x ∷ []) letters.now) subst.now }
{
    for letter in letters {
        if !has(subst.items(), *letter) {
            return false;
        }
    }
    true
}

/// The conditions with terms put in.
pub(crate) fn conditions(alloc: Global, rows: &[&[Step]], subst: &Subst) -> Result<Terms, Memory>
    ensures { IfOk result (λ ts. ts ≡ map (λ c. term_of subst.now c.now) rows.now) }
{
    let mut terms = Terms::new(alloc);
    for row in rows {
        terms.push(built(alloc, row, subst)?)?;
    }
    Ok(terms)
}

/// A row with terms put in, with its sides exchanged where `back` is true.
fn of_row(alloc: Global, row: &Row, back: bool, subst: &Subst) -> Result<Instance, Memory>
    ensures { IfOk result (λ i. plain_instance i ≡ filled back subst.now (plain_row row.now)) }
{
    let conditions = conditions(alloc, row.conditions, subst)?;
    let left = built(alloc, row.left, subst)?;
    let right = built(alloc, row.right, subst)?;
    if back {
        Ok(Instance {
            conditions,
            left: right,
            right: left,
        })
    } else {
        Ok(Instance {
            conditions,
            left,
            right,
        })
    }
}

/// The instance, where each variable has a term.
fn filled_row(alloc: Global, row: &Row, back: bool, subst: &Subst) -> Result<Instance, LawFault>
    ensures { Gives result (made_of (Some (plain_row row.now)) back subst.now) }
{
    if !has_all(row.variables, subst) {
        return Err(LawFault::Missing);
    }
    match of_row(alloc, row, back, subst) {
        Ok(instance) => Ok(instance),
        Err(_) => Err(LawFault::Memory),
    }
}

/// The law of a kind and a number with terms put in for its variables.
fn instance_of(
    alloc: Global,
    kind: LawKind,
    law: u8,
    back: bool,
    subst: &Subst,
) -> Result<Instance, LawFault>
    ensures outcome { Gives result (outcome kind law back subst.now) }
    ensures value { IfOk result (λ i. IsTrueInstance (plain_instance i)) }
{
    match row(kind, law) {
        None => Err(LawFault::NoLaw),
        Some(row) => filled_row(alloc, row, back, subst),
    }
}

/// The equation of a number, counted from 1, with terms put in for its variables, and with its
/// sides exchanged where `back` is true. Terms for other names do not matter.
///
/// # Errors
///
/// `NoLaw` where there is no such equation, else `Missing` where a variable has no term, and
/// `Memory` where memory is wanting.
pub fn instance(alloc: Global, law: u8, back: bool, subst: &Subst) -> Result<Instance, LawFault>
    ensures outcome { Gives result (outcome law_kind.Equation law back subst.now) }
    // Where both sides have a sort and the conditions are true, the sides have one value.
    ensures value { IfOk result (λ i. IsTrueInstance (plain_instance i)) }
{
    instance_of(alloc, LawKind::Equation, law, back, subst)
}

/// The implication of a number, counted from 1, with terms put in for its variables. Its
/// conclusion is `left`, and `right` is `true`.
///
/// # Errors
///
/// `NoLaw` where there is no such implication, else `Missing` where a variable has no term, and
/// `Memory` where memory is wanting.
pub fn implication(alloc: Global, law: u8, subst: &Subst) -> Result<Instance, LawFault>
    ensures outcome { Gives result (outcome law_kind.Implication law false subst.now) }
    // Where the conclusion has a sort and the conditions are true, it is true.
    ensures value { IfOk result (λ i. IsTrueInstance (plain_instance i)) }
{
    instance_of(alloc, LawKind::Implication, law, false, subst)
}

/// The letters as names.
pub(crate) fn names(alloc: Global, letters: &[u8]) -> Result<Texts, Memory>
    ensures { IfOk result (λ ts. ts ≡ map (λ x. x ∷ []) letters.now) }
{
    let mut texts = Texts::new(alloc);
    for letter in letters {
        texts.push(Text::from_slice(alloc, &[*letter])?)?;
    }
    Ok(texts)
}

fn row_pattern(alloc: Global, row: &Row) -> Result<Pattern, Memory>
    ensures { IfOk result (λ p. plain_pattern p ≡ plain_row row.now) }
{
    let none = Subst::new(alloc);
    let variables = names(alloc, row.variables)?;
    let conditions = conditions(alloc, row.conditions, &none)?;
    let left = built(alloc, row.left, &none)?;
    let right = built(alloc, row.right, &none)?;
    Ok(Pattern {
        variables,
        conditions,
        left,
        right,
    })
}

/// The law of a kind and a number, counted from 1, as it is written.
///
/// # Errors
///
/// `NoLaw` where there is no such law, and `Memory` where memory is wanting.
pub fn pattern(alloc: Global, kind: LawKind, law: u8) -> Result<Pattern, LawFault>
    ensures { Shows result (law_at (laws_of kind) law) }
{
    match row(kind, law) {
        None => Err(LawFault::NoLaw),
        Some(row) => match row_pattern(alloc, row) {
            Ok(pattern) => Ok(pattern),
            Err(_) => Err(LawFault::Memory),
        },
    }
}
