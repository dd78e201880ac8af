//! What a rule gives.

use kid_term::{Term, Terms};
use thiserror::Error;

/// Why a rule gives nothing.
#[derive(Clone, Copy, Debug, PartialEq, Eq, Error)]
pub enum RuleFault {
    /// There is no such rule or direction, another number of arguments is asked for, or the term is
    /// no instance.
    #[error("the rule does not match")]
    NoMatch,
    /// A name that stands free would be bound, or one that is bound would stand free.
    #[error("a name would be captured")]
    Capture,
    #[error("out of memory")]
    Memory,
}

/// The term that a rule puts in another's place, and the conditions on which it has its value.
#[derive(Drop)]
pub struct Bound {
    pub conditions: Terms,
    pub term: Term,
}
