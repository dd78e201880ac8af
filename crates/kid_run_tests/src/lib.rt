//! The tests of kid_run. A crate with tests is proved once with them and once without, so these stand in a crate of their own.
#![tactic(auto)]

#[cfg(test)]
mod first;
#[cfg(test)]
mod fuel;
#[cfg(test)]
mod inputs;
#[cfg(test)]
mod programs;
#[cfg(test)]
mod ran;
