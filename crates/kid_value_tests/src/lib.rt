//! The tests of kid_value. A crate with tests is proved once with them and once without, so these stand in a crate of their own.
#![tactic(auto)]

#[cfg(test)]
mod lists;
#[cfg(test)]
mod sort_words;
#[cfg(test)]
mod sorts;
#[cfg(test)]
mod value_words;
#[cfg(test)]
mod values;
