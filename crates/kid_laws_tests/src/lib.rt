//! The tests of kid_laws. A crate with tests is proved once with them and once without, so these stand in a crate of their own.
#![tactic(auto)]

#[cfg(test)]
mod applied;
#[cfg(test)]
mod instances;
#[cfg(test)]
mod matches;
#[cfg(test)]
mod notation;
#[cfg(test)]
mod patterns;
