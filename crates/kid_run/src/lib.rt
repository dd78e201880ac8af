//! Runs search programs on inputs.
#![tactic(auto)]

mod frame;
mod inputs;
mod law;
mod lines;
mod machine;
mod moves;
mod printed;
mod put;
mod read;
mod report;
mod runner;
mod scope;
mod tally;

pub use inputs::{InputFault, Inputs, read_inputs};
pub use law::{inputs_are_spelled, spelled_inputs_are_read, whole_runs_stay};
pub use report::{Outcome, Report, RunEntry};
pub use runner::{RunFault, run};
