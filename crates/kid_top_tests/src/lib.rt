//! The tests of kid_top. A crate with tests is proved once with them and once without, so these stand in a crate of their own.
#![tactic(auto)]

#[cfg(test)]
mod called;
#[cfg(test)]
mod failures;
#[cfg(test)]
mod first;
#[cfg(test)]
mod refused;
#[cfg(test)]
mod worked;
