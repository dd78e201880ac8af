//! The tests of kid_eval. A crate with tests is proved once with them and once without, so these stand in a crate of their own.
#![tactic(auto)]

#[cfg(test)]
mod built;
#[cfg(test)]
mod calls;
#[cfg(test)]
mod large;
#[cfg(test)]
mod over;
#[cfg(test)]
mod sorted;
#[cfg(test)]
mod terms;
#[cfg(test)]
mod unfit;
