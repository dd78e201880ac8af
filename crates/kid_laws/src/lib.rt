//! The laws of terms as one table: 48 equations and 20 implications, each proved true.
//!
//! Rooms: `logic`, `numbers`, `sets`, `sequences`, `maps` (the rows, by what they are about),
//! `table` (the rows by their numbers), `kind` (equations and implications), `step` and `heads`
//! (how a row is written), `build` (terms made of a row), `laws` (patterns and instances), `parts`
//! (what they are, and why there is none), `matching` (the terms with which a pattern is a term),
//! `arguments` (a term for each variable), `applying` (laws at work on terms).
#![tactic(auto)]

mod applying;
mod arguments;
mod build;
mod heads;
mod kind;
mod laws;
mod logic;
mod maps;
mod matching;
mod numbers;
mod parts;
mod sequences;
mod sets;
mod step;
mod table;

pub use applying::{apply, conclude};
pub use arguments::matched_terms;
pub use kid_term::Subst;
pub use kind::LawKind;
pub use laws::{implication, instance, pattern};
pub use matching::match_term;
pub use parts::{Applied, ApplyFault, Instance, LawFault, Pattern};
