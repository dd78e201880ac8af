//! What a proof is written of: rules, lines and moves.
//!
//! Rooms: `rule` (rules, and the lines of a rewriting), `step` (the moves of a proof).
#![tactic(auto)]

mod rule;
mod step;

pub use rule::{Line, Lines, Rule};
pub use step::{Move, Moves};
