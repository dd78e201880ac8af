//! What a law gives, and why it gives nothing.

use kid_term::{Term, Terms};
use kid_value::Texts;
use thiserror::Error;

/// Why there is no instance.
#[derive(Clone, Copy, Debug, PartialEq, Eq, Error)]
pub enum LawFault {
    #[error("there is no such law")]
    NoLaw,
    #[error("a variable has no term")]
    Missing,
    #[error("out of memory")]
    Memory,
}

/// Why a law makes nothing of a term, or says nothing of terms.
#[derive(Clone, Copy, Debug, PartialEq, Eq, Error)]
pub enum ApplyFault {
    #[error("there is no such law")]
    NoLaw,
    #[error("the term is no instance, or there is another number of arguments")]
    NoMatch,
    #[error("out of memory")]
    Memory,
}

/// A law with terms put in for its variables.
#[derive(Drop)]
pub struct Instance {
    pub conditions: Terms,
    pub left: Term,
    pub right: Term,
}

/// A law as it is written, with its variables in the order in which they first stand.
#[derive(Drop)]
pub struct Pattern {
    pub variables: Texts,
    pub conditions: Terms,
    pub left: Term,
    pub right: Term,
}

/// What a law makes of a term or says of terms, where the conditions are true.
#[derive(Drop)]
pub struct Applied {
    pub conditions: Terms,
    pub term: Term,
}
