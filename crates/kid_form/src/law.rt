//! Laws of forms, each the contract of a function that does nothing.
ghost use Rattle.kid_form.specs.FormExamples.{FormExamples};
ghost use Rattle.kid_form.specs.FormLaws.{SharedFormsAreLawful, ValuesAreReadBack};

/// What is read as a definition, as a number of answers or as an axiom was spelled so where it is valid, and what has a spelling is
/// read back.
#[tactic(auto, using(crate::proofs::SharedLaws::shared_forms))]
pub fn shared_forms_are_lawful()
    ensures { SharedFormsAreLawful }
{}

/// A canonical value that has a spelling is read back. What is read as a value need not be the spelling: a tree may list the members
/// of a set in any order.
#[tactic(auto, using(crate::proofs::LeafLaws::value_form_back))]
pub fn values_are_read_back()
    ensures { ValuesAreReadBack }
{}

/// What small forms of each builder read, and what they refuse.
#[tactic(auto, using(crate::proofs::ExampleProofs::form_examples))]
pub fn forms_by_example()
    ensures { FormExamples }
{}
