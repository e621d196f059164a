//! Plans: sheets of links that are edited and searched under trials.
#![tactic(auto)]

mod changes;
mod lending;
mod plans;
mod trials;
