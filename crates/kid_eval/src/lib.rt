//! Evaluation of terms.
#![tactic(auto)]

mod binder;
mod cast;
mod env;
mod evaluate;
mod logic;
mod map;
mod number;
mod opened;
mod pair;
mod row;
mod scope;
mod seq;
mod set;
mod terms;
mod word;

pub use env::Env;
pub use evaluate::eval;
