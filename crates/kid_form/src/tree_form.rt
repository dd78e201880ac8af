//! Types of forms.
ghost use Rattle.std.specs.Prelude.{◌≡◌, IfOk};
ghost use Rattle.kid_sexp.specs.Plain.{Plain};
ghost use Rattle.kid_sexp.specs.Tree.{plain};
ghost use Rattle.kid_codec.specs.Reading.{Finds};
ghost use Rattle.kid_form.specs.Form.{Form};

use kid_codec::CodecFault;
use kid_sexp::Tree;
use kid_value::Memory;
use std::alloc::Global;

/// A form of one tree. A type that has it holds nothing, and stands for the form.
pub trait TreeForm {
    /// What is read.
    type Of: Drop;

    ghost Seen: { Type 0 };

    ghost view: { Self.Of → Seen };

    ghost form: { Form Plain Seen };

    /// What a tree has the form of.
    ///
    /// # Errors
    ///
    /// `Form`: it has another form. `Memory`: memory is wanting.
    fn read(alloc: Global, tree: &Tree) -> Result<Self::Of, CodecFault>
        ensures { Finds view result (form.read (plain tree.now)) };

    /// The spelling of what may be read.
    ///
    /// # Errors
    ///
    /// Fails where memory is wanting.
    fn tree(alloc: Global, of: &Self::Of) -> Result<Tree, Memory>
        ensures { IfOk result (λ t. plain t ≡ form.spell (view of.now)) };
}
