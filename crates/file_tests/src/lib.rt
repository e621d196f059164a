//! Tests of the link file and of the printed list. The crate exists for its tests only. Each test is one case
//! under a name of its own, with the nearest granted value beside it, so that a failure says which.
#![tactic(auto)]

pub mod single;

/// Sheet A: 4 points, the kind bytes, budget 10, and the links 0 1 free 4, 1 2 free 3, 0 2 free 5, 2 3 kept 2 and 1 3 free 6.
pub const SHEET_A: &[u8; 62] = b"\
    \x01\x00\x00\x00\x39\x01\x00\x04\x00\x00\x00\x0a\
    \x09\x00\x00\x00\x01\x00\x00\x00\x00\x04\
    \x09\x00\x01\x00\x02\x00\x00\x00\x00\x03\
    \x09\x00\x00\x00\x02\x00\x00\x00\x00\x05\
    \x09\x00\x02\x00\x03\x01\x00\x00\x00\x02\
    \x09\x00\x01\x00\x03\x00\x00\x00\x00\x06";

#[cfg(test)]
mod files;
#[cfg(test)]
mod headers;
#[cfg(test)]
mod lines;
#[cfg(test)]
mod order;
#[cfg(test)]
mod readers;
#[cfg(test)]
mod records;
#[cfg(test)]
mod writers;
