//! Theories, and a small kernel by which their laws are proved.
//!
//! Rooms: `law`, `theory`, `sorted`, `example` (laws, axioms and theories); `scope`, `judging`,
//! `comparing`, `evaluating`, `holding` (what may be used at a place, sorts and values there, and
//! conditions that hold there); `stated`, `by_law`, `by_table`, `by_place`, `settling`, `uncasting`,
//! `arguments` (what each rule makes of a term); `equal`, `line`, `conditions`, `rewriting` (rules of
//! equal value, and a subterm rewritten by one); `concluding` (terms after lines, and conclusions);
//! `start`, `parts`, `moving`, `facts`, `over_facts` (facts, moves, and rewriting over facts).
#![tactic(auto)]

mod arguments;
mod by_law;
mod by_place;
mod by_table;
mod comparing;
mod concluding;
mod conditions;
mod equal;
mod evaluating;
mod example;
mod facts;
mod holding;
mod judging;
mod law;
mod line;
mod moving;
mod over_facts;
mod parts;
mod rewriting;
mod scope;
mod settling;
mod sorted;
mod start;
mod stated;
mod theory;
mod uncasting;

pub use equal::Equal;
pub use example::{good_inputs_by_example, laws_by_example};
pub use facts::Facts;
pub use kid_moves::{Line, Lines, Move, Moves, Rule};
pub use kid_term::{RefineForm, Spec, Why};
pub use law::{Axiom, Axioms, Conclusion, Law, Laws};
pub use over_facts::rewrite;
pub use scope::Scope;
pub use sorted::is_sorted_axiom;
pub use theory::Theory;
