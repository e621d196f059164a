//! The link file: a check that fills a reader, the reader as a link table over the bytes, and the writer.
#![tactic(auto)]

mod check;
mod fields;
mod input;
mod reading;
mod writing;

pub use check::{HEADER, LONGEST, RECORD};
pub use input::Reader;
pub use writing::write;
