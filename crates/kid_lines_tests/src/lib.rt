//! The tests of kid_lines. A crate with tests is proved once with them and once without, so these stand in a crate of their own.
#![tactic(auto)]

#[cfg(test)]
mod back;
#[cfg(test)]
mod parts;
#[cfg(test)]
mod tables;
