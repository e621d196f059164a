//! Neighbouring cases with the same answer share one line: first and last case, how many, the answer. A run of files that pass
//! also shows a checksum over the lists of all its files.
use super::cases::Case;
use super::digest::{START, fold_list};
use link_file::Reader;
use listing::amounts::ListedKind;
use std::io;
use table::refusals::FileFault;

// Cases with one answer: a fault, or none if the files pass.
#[derive(Clone, Copy)]
struct Run {
    first: Case,
    last: Case,
    count: u32,
    fault: Option<FileFault>,
    digest: u32,
}

impl Run {
    // No case yet. The first will be this one.
    fn opening(case: Case, fault: Option<FileFault>) -> Run {
        Run {
            first: case,
            last: case,
            count: 0,
            fault,
            digest: START,
        }
    }

    fn print(&self, rt: &HostRuntime) -> io::Result<()> {
        let first = self.first;
        let last = self.last;
        let count = self.count;
        let digest = self.digest;
        match self.fault {
            None => println!(rt; "{first}..{last} {count}: pass {digest:08x}"),
            Some(fault) => {
                let number = fault.number();
                let place = fault.place();
                println!(rt; "{first}..{last} {count}: {number} at {place}")
            }
        }
    }
}

/// Cases that are checked one after the other. The last run waits to be printed.
#[derive(Clone, Copy, Default)]
pub struct Runs {
    last: Option<Run>,
}

impl Runs {
    /// Checks one more file. Its case lengthens the run, or the run is printed and another one begins.
    pub fn add<K: ListedKind>(
        &mut self,
        rt: &HostRuntime,
        case: Case,
        file: &[u8],
    ) -> io::Result<()> {
        let mut reader = Reader::<K>::new();
        let fault = reader.check(file).err();
        let mut run = match self.last.filter(|run| run.fault == fault) {
            Some(run) => run,
            None => {
                self.finish(rt)?;
                Run::opening(case, fault)
            }
        };
        run.last = case;
        run.count = run.count.saturating_add(1);
        if fault.is_none() {
            run.digest = fold_list(run.digest, &reader);
        }
        self.last = Some(run);
        Ok(())
    }

    /// Prints the last run, if there is one.
    pub fn finish(&mut self, rt: &HostRuntime) -> io::Result<()> {
        match self.last.take() {
            Some(run) => run.print(rt),
            None => Ok(()),
        }
    }
}
