//! Laws at work: what an equation makes of a term, and what an implication says of terms.
ghost use Rattle.std.specs.Prelude.{◌≡◌, [], IfOk, Some, map, option_map, length};
ghost use Rattle.kid_term.specs.TermView.{plain_term};
ghost use Rattle.kid_laws.specs.Applied as spec;
ghost use Rattle.kid_laws.specs.Applied.{Applies, plain_applied, applied_by, concluded_by};
ghost use Rattle.kid_laws.specs.Applying.{KeepsTerm, IsTrueTerm};
ghost use Rattle.kid_laws.specs.Steps.{plain_row, term_of};

use crate::arguments::{matched_terms, zipped};
use crate::build::built;
use crate::kind::LawKind;
use crate::laws::{conditions, names};
use crate::parts::{Applied, ApplyFault};
use crate::step::{Row, Step};
use crate::table::row;
use kid_term::{Subst, Term};
use kid_value::Memory;
use std::alloc::Global;

/// The side from which a law is taken.
fn side(row: &Row, back: bool) -> &'static [Step]
    ensures { term_of [] result.now ≡ spec.side_from back (plain_row row.now) }
{
    if back { row.right } else { row.left }
}

/// The conditions of the row, and the side, with terms put in.
fn put_in(alloc: Global, row: &Row, side: &[Step], pairs: &Subst) -> Result<Applied, Memory>
    ensures { IfOk result (λ a. plain_applied a ≡ spec.put_in (plain_row row.now) (term_of [] side.now) pairs.now) }
{
    let conditions = conditions(alloc, row.conditions, pairs)?;
    let term = built(alloc, side, pairs)?;
    Ok(Applied { conditions, term })
}

/// What the row makes of the term, from the right to the left where `back` is true.
fn applied_row(
    alloc: Global,
    row: &Row,
    back: bool,
    term: &Term,
    args: &[Term],
) -> Result<Option<Applied>, Memory>
    ensures { IfOk result (λ o. option_map plain_applied o ≡ spec.applied_terms (plain_row row.now) back (map plain_term args.now) (plain_term term.now)) }
{
    let variables = names(alloc, row.variables)?;
    let from = built(alloc, side(row, back), &Subst::new(alloc))?;
    match matched_terms(alloc, &variables, &from, args, term)? {
        None => Ok(None),
        Some(terms) => {
            let pairs = zipped(alloc, variables.items(), terms.items())?;
            Ok(Some(put_in(alloc, row, side(row, !back), &pairs)?))
        }
    }
}

/// What the row says of the terms, where there is one for each variable.
fn concluded_row(alloc: Global, row: &Row, terms: &[Term]) -> Result<Option<Applied>, Memory>
    ensures { IfOk result (λ o. option_map plain_applied o ≡ spec.concluded_terms (plain_row row.now) (map plain_term terms.now)) }
{
    if terms.len() != row.variables.len() {
        return Ok(None);
    }
    let variables = names(alloc, row.variables)?;
    let pairs = zipped(alloc, variables.items(), terms)?;
    Ok(Some(put_in(alloc, row, row.left, &pairs)?))
}

fn apply_row(
    alloc: Global,
    row: &Row,
    back: bool,
    term: &Term,
    args: &[Term],
) -> Result<Applied, ApplyFault>
    ensures { Applies result (spec.applied_law (Some (plain_row row.now)) back (map plain_term args.now) (plain_term term.now)) }
{
    match applied_row(alloc, row, back, term, args) {
        Ok(Some(applied)) => Ok(applied),
        Ok(None) => Err(ApplyFault::NoMatch),
        Err(_) => Err(ApplyFault::Memory),
    }
}

fn conclude_row(alloc: Global, row: &Row, terms: &[Term]) -> Result<Applied, ApplyFault>
    ensures { Applies result (spec.concluded_law (Some (plain_row row.now)) (map plain_term terms.now)) }
{
    match concluded_row(alloc, row, terms) {
        Ok(Some(applied)) => Ok(applied),
        Ok(None) => Err(ApplyFault::NoMatch),
        Err(_) => Err(ApplyFault::Memory),
    }
}

/// What the equation of a number, counted from 1, makes of the term: its other side, with the terms
/// put in with which the first side is the term. It is taken from the left to the right, and from
/// the right to the left where `back` is true. Variables that do not stand in the first side get
/// the arguments, in the order in which they first stand in the conditions, the left and the right.
///
/// # Errors
///
/// `NoLaw` where there is no such equation, else `NoMatch` where the term is no instance of the side
/// or the number of arguments is another one, and `Memory` where memory is wanting.
pub fn apply(
    alloc: Global,
    law: u8,
    back: bool,
    term: &Term,
    args: &[Term],
) -> Result<Applied, ApplyFault>
    ensures outcome { Applies result (applied_by law back (map plain_term args.now) (plain_term term.now)) }
    // Where both terms have a sort and the conditions are true, the new one has the old one's value.
    ensures value { IfOk result (λ a. KeepsTerm (plain_term term.now) (plain_applied a)) }
{
    match row(LawKind::Equation, law) {
        None => Err(ApplyFault::NoLaw),
        Some(row) => apply_row(alloc, row, back, term, args),
    }
}

/// What the implication of a number, counted from 1, says of the terms, one for each of its
/// variables in their order.
///
/// # Errors
///
/// `NoLaw` where there is no such implication, else `NoMatch` where the number of terms is another
/// one than that of the variables, and `Memory` where memory is wanting.
pub fn conclude(alloc: Global, law: u8, terms: &[Term]) -> Result<Applied, ApplyFault>
    ensures outcome { Applies result (concluded_by law (map plain_term terms.now)) }
    // Where the conclusion has a sort and the conditions are true, it is true.
    ensures value { IfOk result (λ a. IsTrueTerm (plain_applied a)) }
{
    match row(LawKind::Implication, law) {
        None => Err(ApplyFault::NoLaw),
        Some(row) => conclude_row(alloc, row, terms),
    }
}
