//! The tests of kid_sorting. A crate with tests is proved once with them and once without, so these stand in a crate of their own.
#![tactic(auto)]

#[cfg(test)]
mod built;
#[cfg(test)]
mod judged;
#[cfg(test)]
mod operators;
#[cfg(test)]
mod over;
#[cfg(test)]
mod sort_words;
#[cfg(test)]
mod terms;
#[cfg(test)]
mod words;
