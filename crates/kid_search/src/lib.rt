//! Search theories: spaces of descriptors, the laws that each of them keeps, and the search through them.
#![tactic(auto)]

pub mod assembling;
pub mod building;
pub mod cut_kind;
pub mod judging;
mod law;
pub mod pieces;
pub mod plan;
pub mod range;
pub mod spot;
pub mod spots;
pub mod theory;

pub use cut_kind::CutKind;
pub use law::{
    designs_answer, matched_plans_are_lawful, plans_find_all, plans_find_first,
    range_cuts_lose_nothing, ranges_are_lawful, searches_by_example, searches_find_all,
    searches_find_first,
};
pub use pieces::{Branch, Pieces, TermLists};
pub use plan::{Cut, Cuts, Parameter, Parameters, Plan};
pub use range::Range;
pub use spot::{Context, Spot};
pub use spots::context;
pub use theory::SearchTheory;
