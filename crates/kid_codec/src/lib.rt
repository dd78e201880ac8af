//! Sorts, values and terms as trees, and back.
#![tactic(auto)]

mod fault;
mod law;
mod name;
mod number;
mod parts;
mod print;
pub mod shape;
mod sort;
mod tags;
mod term;
mod tree_name;
mod value;
mod word;

pub use fault::CodecFault;
pub use law::{
    sorted_values_are_spelled, spelled_values_are_canonical, spelled_values_by_example,
    values_are_spelled_once,
};
pub use name::is_name;
pub use number::number_of;
pub use print::{
    begun, number_tree, sort_tree, term_tree, tree_of_sort, tree_of_term, tree_of_value,
    value_tree, word_tree,
};
pub use sort::{sort_from, spelled_sort};
pub use tags::{sort_has_tags, term_has_tags};
pub use term::{spelled_term, term_of};
pub use tree_name::spelled_name;
pub use value::value_of;
pub use word::{binder_of, binder_word, op_of, operator_word, takes};
