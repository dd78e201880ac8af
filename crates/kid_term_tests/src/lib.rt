//! The tests of kid_term. A crate with tests is proved once with them and once without, so these stand in a crate of their own.
#![tactic(auto)]

#[cfg(test)]
mod definitions;
#[cfg(test)]
mod depths;
#[cfg(test)]
mod equal;
#[cfg(test)]
mod names;
#[cfg(test)]
mod notation;
#[cfg(test)]
mod places;
#[cfg(test)]
mod quotes;
#[cfg(test)]
mod renames;
#[cfg(test)]
mod simultaneous;
#[cfg(test)]
mod sizes;
#[cfg(test)]
mod values;
