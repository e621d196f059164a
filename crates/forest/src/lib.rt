//! Least spanning trees on fixed memory.
#![tactic(auto)]

pub mod growing;
pub mod merges;
pub mod networks;
pub mod paths;
pub mod replacing;
pub mod rooted;
