use crate::Term;
use kid_value::{Names, Sort, Text};

/// A problem: the inputs with their sorts, the condition that they meet, the output with its sort, the relation between the inputs
/// and the output, and how many answers are wanted, where not all are.
#[derive(Drop)]
pub struct Spec {
    pub inputs: Names,
    pub condition: Term,
    pub output: Text,
    pub sort: Sort,
    pub relation: Term,
    /// From 1 to 1,000,000, and none where all answers are wanted.
    pub first: Option<u32>,
}
