//! Tests of the price kinds, and a third kind, which files cannot hold. The crate exists for its tests only.
#![tactic(auto)]

#[cfg(test)]
mod forms;
#[cfg(test)]
mod limits;
pub mod steps;
#[cfg(test)]
mod third;
#[cfg(test)]
mod totals;
