//! What may be used at a place of a term, when a condition holds there, and rules that put another
//! term of the same value there.
//!
//! Rooms: `assume` (what an operator lets be assumed of its arguments), `given` (terms among
//! others, facts by their numbers), `bounds` (intervals of which one lies before the other),
//! `copies` (lists of terms),
//! `instance` (what a rule gives), `unfold` (calls of definitions), `using` (what a numbered
//! fact makes of a term), `law`.
#![tactic(auto)]

mod assume;
mod bounds;
mod copies;
mod given;
mod instance;
pub mod law;
mod unfold;
mod using;

pub use assume::{assumptions, member, negated};
pub use bounds::{lies_at_most, lies_below};
pub use copies::copied;
pub use given::{fact_at, same_term, stands_in};
pub use instance::{Instance, Within, just};
pub use unfold::{fold_call, paired, unfold_call};
pub use using::use_fact;
