//! Parts of axioms as trees.
ghost use Rattle.std.specs.Prelude.{◌≡◌};
ghost use Rattle.kid_sexp.specs.Tree.{plain};
ghost use Rattle.kid_codec.specs.Reading.{Finds};
ghost use Rattle.kid_form.specs.Axiom.{given_form};

use crate::leaves::TheoryTerm;
use crate::lists::read_each;
use kid_codec::CodecFault;
use kid_codec::shape::form;
use kid_sexp::Tree;
use kid_term::Terms;
use std::alloc::Global;

/// The conditions of `(given CONDITION ..)`.
///
/// # Errors
///
/// `Form`: the tree has another form. `Memory`: memory is wanting.
pub fn read_given(alloc: Global, tree: &Tree) -> Result<Terms, CodecFault>
    ensures { Finds (λ ts. ts) result (given_form.read (plain tree.now)) }
{
    let Some(parts) = form(b"given", tree) else {
        return Err(CodecFault::Form);
    };
    let conditions = read_each::<TheoryTerm>(alloc, parts)?;
    Ok(Terms::from_vec(conditions))
}
