//! The search of subsets.
#![tactic(auto)]

mod law;
pub mod subsets;

pub use law::{searches_by_example, subsets_are_lawful, subsets_cuts_lose_nothing};
pub use subsets::Subsets;
