//! The tests of kid_kernel. A crate with tests is proved once with them and once without, so these stand in a crate of their own.
//!
//! Rooms: `rows`, `over`, `answers`, `spread`, `theories` (rows of tables, and how they are judged); `equations`, `collections`,
//! `binders`, `rules`, `truths`, `refusals` (lines); `moves`, `starts`, `worked` (moves, starts and whole proofs); `facts` (calls
//! of facts that no row makes); `lists` (laws and axioms).
#![tactic(auto)]

pub mod answers;
#[cfg(test)]
mod binders;
#[cfg(test)]
mod collections;
#[cfg(test)]
mod equations;
#[cfg(test)]
mod facts;
#[cfg(test)]
mod lists;
#[cfg(test)]
mod moves;
#[cfg(test)]
mod over;
#[cfg(test)]
mod refusals;
#[cfg(test)]
mod rows;
#[cfg(test)]
mod rules;
#[cfg(test)]
mod spread;
#[cfg(test)]
mod starts;
#[cfg(test)]
mod theories;
#[cfg(test)]
mod truths;
#[cfg(test)]
mod worked;
