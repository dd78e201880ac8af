use crate::statement::Stmts;
use kid_sorting::Signature;
use kid_term::Term;
use kid_value::{Names, Sort, Text};

/// A search program. `main` sees the inputs, and `search` sees its parameters and the inputs.
#[derive(Drop)]
pub struct Program {
    /// The definitions and the inputs.
    pub signature: Signature,
    /// Where it is false for an input, nothing is searched.
    pub condition: Term,
    /// The name of the values that are emitted, and their sort.
    pub output: Text,
    pub sort: Sort,
    /// How many values are wanted, where not all are.
    pub first: Option<u32>,
    pub main: Stmts,
    /// The parameters of the search procedure.
    pub parameters: Names,
    pub search: Stmts,
}
