//! Forms: how data stand as trees, with one law for what is read and what is spelled.
#![tactic(auto)]

mod axiom;
mod declared;
mod definition;
mod first;
mod headed;
mod law;
mod leaves;
mod lists;
mod tree_form;

pub use axiom::read_given;
pub use declared::{DeclaredName, DeclaredNames, DeclaredWord, DeclaredWords};
pub use definition::{definition_tree, read_program_definition, read_theory_definition};
pub use first::{first_tree, read_first};
pub use headed::{headed_one_tree, headed_two_tree, read_headed_one, read_headed_two};
pub use law::{forms_by_example, shared_forms_are_lawful, values_are_read_back};
pub use leaves::{
    AllowedTerm, AnyTerm, AnyWord, Index, Name, Number, PathForm, SortForm, TheoryTerm,
};
pub use lists::{put_each, read_each, read_four, read_listed, read_next, read_one, read_two};
pub use tree_form::TreeForm;
