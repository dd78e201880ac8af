//! The places of a plan where a proof begins.
use kid_term::Terms;
use kid_value::Names;

/// Where a proof begins: at a feasible value, at the start, at a kid, which is counted from 1, or at the leaf.
#[derive(Clone, Copy, Debug, PartialEq, Eq)]
pub enum Spot {
    Feasible,
    Start,
    Kid(u32),
    Leaf,
}

/// The names that are seen there, with their sorts, and the facts that may be taken, in their order.
#[derive(Drop)]
pub struct Context {
    pub names: Names,
    pub facts: Terms,
}
