//! The tests of kid_scope. A crate with tests is proved once with them and once without, so these stand in a crate of their own.
#![tactic(auto)]

#[cfg(test)]
mod assumed;
#[cfg(test)]
mod calls;
#[cfg(test)]
mod facts;
#[cfg(test)]
mod notation;
#[cfg(test)]
mod pairs;
