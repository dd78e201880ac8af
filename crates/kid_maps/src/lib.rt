//! The search of maps.
#![tactic(auto)]

mod law;

pub use law::{maps_are_lawful, searches_by_example};
