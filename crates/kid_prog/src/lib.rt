//! Search programs: their statements, their text and the rules that they meet.
#![tactic(auto)]

mod fault;
mod forest;
mod format;
mod forms;
mod known;
pub mod law;
mod loader;
mod printer;
mod program;
mod rules;
mod shape;
mod statement;
mod tags;

pub use fault::{LoadCode, LoadFault};
pub use loader::load;
pub use printer::text;
pub use program::Program;
pub use statement::{Stmt, Stmts};
