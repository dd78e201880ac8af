//! The tests of kid_binders. A crate with tests is proved once with them and once without, so these stand in a crate of their own.
#![tactic(auto)]

#[cfg(test)]
mod accepted;
#[cfg(test)]
mod notation;
#[cfg(test)]
mod refused;
