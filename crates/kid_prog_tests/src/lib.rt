//! The tests of kid_prog. A crate with tests is proved once with them and once without, so these stand in a crate of their own.
#![tactic(auto)]

#[cfg(test)]
mod definitions;
#[cfg(test)]
mod first;
#[cfg(test)]
mod formats;
#[cfg(test)]
mod programs;
