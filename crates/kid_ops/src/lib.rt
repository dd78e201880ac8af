//! The operators on values, one function for each, in a room for each group.
#![tactic(auto)]

pub mod logic;
pub mod map;
mod merge;
pub mod number;
pub mod pair;
pub mod seq;
pub mod set;
pub mod word;
