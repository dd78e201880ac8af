//! The search of sequences.
#![tactic(auto)]

mod law;

pub use law::{searches_by_example, sequences_are_lawful};
