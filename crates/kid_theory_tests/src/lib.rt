//! The tests of kid_theory. A crate with tests is proved once with them and once without, so these stand in a crate of their own.
#![tactic(auto)]

#[cfg(test)]
mod axioms;
#[cfg(test)]
mod false_binders;
#[cfg(test)]
mod false_laws;
#[cfg(test)]
mod false_proofs;
#[cfg(test)]
mod faults;
#[cfg(test)]
mod first;
#[cfg(test)]
mod forms;
#[cfg(test)]
mod laws;
#[cfg(test)]
mod limits;
#[cfg(test)]
mod over;
#[cfg(test)]
mod tags;
