//! The rules for binders: terms that say the same with the binder changed.
//!
//! Rooms: `rules` (the rules by their numbers), and the rules by what they change: `naming` (the
//! name), `settled` (the set is empty, or the body is true), `instances` (a member is put in),
//! `parted` (the set has parts), `bodies` (what the body is made of), `gathered` (sets that are
//! given by a binder); `shape` (a term taken apart), `build` (a term put together), `bound` (what
//! is answered).
#![tactic(auto)]

mod bodies;
mod bound;
mod build;
mod gathered;
mod instances;
mod naming;
mod parted;
mod rules;
mod settled;
mod shape;

pub use bound::{Bound, RuleFault};
pub use rules::apply;
