//! The least sort of a term, or the first fault that it has.
#![tactic(auto)]

mod allow;
mod binder;
mod common;
mod fault;
mod find;
mod head;
mod interval;
pub mod judge;
mod keys;
mod logic;
mod map;
pub mod names;
mod number;
mod pair;
mod row;
mod scope;
mod seq;
mod set;
mod signature;
mod sorting;
mod total;
mod word;

pub use fault::SortFault;
pub use find::find_definition;
pub use signature::Signature;
pub use sorting::{MAX_DEPTH, MAX_NODES, sort_of, sort_over};
