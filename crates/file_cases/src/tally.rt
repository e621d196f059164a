//! How often each number is answered, and a checksum over all that is printed.
use super::digest::{START, fold};
use listing::amounts::ListedKind;
use listing::list_file;
use std::alloc::{AllocError, Global};
use std::io;
use table::refusals::FileFault;

/// The number of the first refusal.
const FIRST: usize = 11;

/// How many numbers there are.
const NUMBERS: usize = 10;

/// Counts of files.
#[derive(Drop)]
pub struct Tally {
    passed: u32,
    refused: [u32; NUMBERS],
    digest: u32,
}

impl Tally {
    /// No file yet.
    pub fn new() -> Tally {
        Tally {
            passed: 0,
            refused: [0; NUMBERS],
            digest: START,
        }
    }

    /// Checks and lists one more file.
    pub fn add<K: ListedKind>(&mut self, heap: Global, file: &[u8]) -> Result<(), AllocError> {
        let report = list_file::<K>(heap, file)?;
        self.digest = fold(self.digest, report.text.as_bytes());
        self.count(report.answer);
        Ok(())
    }

    // Counts what the check answered.
    fn count(&mut self, answer: Result<(), FileFault>) {
        match answer {
            Ok(()) => self.passed = self.passed.saturating_add(1),
            Err(fault) => {
                let place = usize::from(fault.number()).wrapping_sub(FIRST);
                if let Some(count) = self.refused.get_mut(place) {
                    *count = count.saturating_add(1);
                }
            }
        }
    }

    /// Prints the counts.
    pub fn print(self, rt: &HostRuntime) -> io::Result<()> {
        let passed = self.passed;
        let digest = self.digest;
        println!(rt; "pass: {passed}")?;
        for (number, count) in (FIRST..).zip(self.refused.iter()) {
            println!(rt; "{number}: {count}")?;
        }
        println!(rt; "all: {digest:08x}")
    }
}
