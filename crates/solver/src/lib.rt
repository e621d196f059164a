//! Settling and sifting of link tables: the inner layer on which the planner will stand.
#![tactic(auto)]

mod admitting;
mod narrowing;
mod settling;
mod sifting;
mod solving;
mod writing;
