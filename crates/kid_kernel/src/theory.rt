use crate::law::{Axioms, Laws};
use kid_sorting::Signature;
use kid_term::Spec;

/// A problem with its definitions, its laws and its axioms. The inputs of the signature are those of the problem.
#[derive(Drop)]
pub struct Theory {
    pub signature: Signature,
    pub laws: Laws,
    pub axioms: Axioms,
    pub spec: Spec,
}
