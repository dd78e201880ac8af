//! The tests of kid_outer. A crate with tests is proved once with them and once without, so these stand in a crate of their own.
#![tactic(auto)]

#[cfg(test)]
mod files;
#[cfg(test)]
mod memory_sink;
#[cfg(test)]
mod memory_store;
#[cfg(test)]
mod stream;
