//! A term for each variable of a law: found where a side is matched, or given.
ghost use Rattle.std.specs.Prelude.{◌≡◌, IfOk, map, length};
ghost use Rattle.kid_term.specs.TermView.{plain_term};
ghost use Rattle.kid_laws.specs.Applied as spec;

use crate::matching::find;
use kid_term::{Subst, Term, Terms};
use kid_value::{Memory, Text, Texts};
use std::alloc::Global;

/// The names with their terms.
pub(crate) fn zipped(alloc: Global, names: &[Text], terms: &[Term]) -> Result<Subst, Memory>
    requires { length terms.now ≡ length names.now }
    ensures { IfOk result (λ σ. σ ≡ spec.zipped names.now (map plain_term terms.now)) }
{
    let mut pairs = Subst::new(alloc);
    for (i, term) in terms.iter().enumerate() {
        pairs.push(names[i].copy(alloc)?, term.copy(alloc)?)?;
    }
    Ok(pairs)
}

/// For each name the term that it has, or else the next argument. `None` where an argument is
/// missing or left over.
fn terms_of(
    alloc: Global,
    found: &Subst,
    names: &[Text],
    args: &[Term],
) -> Result<Option<Terms>, Memory>
    ensures { IfOk result (λ o. o ≡ spec.terms_of found.now names.now (map plain_term args.now)) }
{
    let mut terms = Terms::new(alloc);
    let mut left = args;
    for name in names {
        match found.get(name) {
            Some(term) => terms.push(term.copy(alloc)?)?,
            None => match left.split_first() {
                None => return Ok(None),
                Some((arg, rest)) => {
                    terms.push(arg.copy(alloc)?)?;
                    left = rest;
                }
            },
        }
    }
    if left.is_empty() {
        Ok(Some(terms))
    } else {
        Ok(None)
    }
}

/// The term of each variable, in their order: the one with which the side is the term, or the next
/// argument for a variable that does not stand in the side.
///
/// `None` exactly where the side is not the term with any terms put in, or where there are not as
/// many arguments as variables without a term.
///
/// # Errors
///
/// Fails where memory is wanting.
pub fn matched_terms(
    alloc: Global,
    variables: &Texts,
    side: &Term,
    args: &[Term],
    term: &Term,
) -> Result<Option<Terms>, Memory>
    ensures { IfOk result (λ o. o ≡ spec.matched_terms variables.now (plain_term side.now) (map plain_term args.now) (plain_term term.now)) }
{
    match find(alloc, side, variables, term, Subst::new(alloc))? {
        None => Ok(None),
        Some(found) => terms_of(alloc, &found, variables.items(), args),
    }
}
