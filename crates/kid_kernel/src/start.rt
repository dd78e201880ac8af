//! Terms of truth values, as which facts begin.
ghost use Rattle.std.specs.Prelude.{◌≡◌, map};
ghost use Rattle.kid_term.specs.Sorting.{sort_of as sort_there};
ghost use Rattle.kid_term.specs.TermView.{plain_term};
ghost use Rattle.kid_scope.specs.InstanceView.{TermGiven};
ghost use Rattle.kid_kernel.specs.Judging.{Judges};
ghost use Rattle.kid_kernel.specs.Moves.{first_untrue, truth_term, untrue};

use crate::judging::why;
use crate::theory::Theory;
use kid_sorting::sort_of;
use kid_term::{Term, Why};
use kid_value::{Names, Sort};
use std::alloc::Global;

/// That the term is a truth value's.
fn is_truth(alloc: Global, theory: &Theory, names: &Names, term: &Term) -> Result<(), Why>
    ensures { Judges result (untrue (sort_there theory.now.signature.definitions names.now (plain_term term.now))) }
{
    match sort_of(alloc, &theory.signature, names, term) {
        Ok(Sort::Bool) => Ok(()),
        Ok(_) => Err(Why::IllSorted),
        Err(fault) => Err(why(fault)),
    }
}

/// The term, if it is a truth value's.
///
/// # Errors
///
/// `Limit` where the term is too large or too deep, `IllSorted` where it has another fault or
/// another sort, and `Memory` where memory is wanting.
pub(crate) fn truth(alloc: Global, theory: &Theory, names: &Names, term: Term) -> Result<Term, Why>
    ensures { TermGiven result (truth_term theory.now.signature.definitions names.now (plain_term term)) }
{
    match is_truth(alloc, theory, names, &term) {
        Ok(()) => Ok(term),
        Err(why) => Err(why),
    }
}

/// That each term is a truth value's.
///
/// # Errors
///
/// The refusal of the first that is none, and `Memory` where memory is wanting.
pub(crate) fn are_truths(
    alloc: Global,
    theory: &Theory,
    names: &Names,
    terms: &[Term],
) -> Result<(), Why>
    ensures { Judges result (first_untrue theory.now.signature.definitions names.now (map plain_term terms.now)) }
{
    for term in terms {
        is_truth(alloc, theory, names, term)?;
    }
    Ok(())
}
