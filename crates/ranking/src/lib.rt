//! The links of a table by rank, and the totals of its trees.
#![tactic(auto)]

pub mod ordering;
pub mod totals;
