//! Reads a bytes link file from standard input, and prints its list or its refusal.
//!
//! A refused file ends the program with status 1.
#![tactic(auto)]

use link_file::LONGEST;
use listing::list_file;
use price::additive::Bytes;
use std::io;
use std::io::{Read, Write};
use std::process::ExitCode;

fn main(rt: HostRuntime) -> io::Result<ExitCode> {
    // One byte more than the longest file, so that a longer input is seen to be one.
    let mut bytes = Vec::new(rt.alloc());
    rt.stdin().take(LONGEST as u64 + 1).read_to_end(&mut bytes)?;
    let report = list_file::<Bytes>(rt.alloc(), &bytes)?;
    // In one write: a reader that stops early then makes no later write fail.
    rt.stdout().write_all(report.text.as_bytes())?;
    match report.answer {
        Ok(()) => Ok(ExitCode::SUCCESS),
        Err(_) => Ok(ExitCode::FAILURE),
    }
}
