//! The text of lines and moves, both ways.
//!
//! Rooms: `line` and `step` (lines and moves), `ruled` (rules with their arguments), `words` (rules
//! that are one word), `terms` (the terms in them), `index` (the numbers of children and facts),
//! `law` (what is read is what is spelled).
#![tactic(auto)]

mod index;
mod law;
mod line;
mod ruled;
mod step;
mod terms;
mod words;

pub use law::{lines_are_read, moves_are_read};
pub use line::{line_of, line_tree, lines_of, put_lines, read_line, tree_of_line};
pub use step::{move_of, move_tree, read_move, tree_of_move};
