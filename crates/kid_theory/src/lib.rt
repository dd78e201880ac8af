//! The theory that a file spells.
#![tactic(auto)]

mod ahead;
mod claims;
mod copies;
mod fault;
mod file;
mod forms;
mod law;
mod law_form;
mod names;
mod proof;
mod reader;
mod shape;

pub use fault::{TheoryCode, TheoryFault};
pub use law::files_are_read;
pub use reader::read_theory;
