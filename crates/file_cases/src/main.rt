//! Checks changed copies of the link file on standard input, and prints what the check answers for each.
//! The file `stdout` comes from samples/decode.py, which shares no code with the library.
#![tactic(auto)]

ghost use Rattle.std.specs.Iterator.{IsFinite};

mod cases;
mod digest;
mod runs;
mod tally;

use cases::{Case, Turn, with_byte};
use link_file::HEADER;
use listing::amounts::ListedKind;
use price::additive::Bytes;
use price::bottleneck::Drift;
use runs::Runs;
use std::alloc::{AllocError, Global};
use std::io;
use std::io::Read;
use tally::Tally;

// The place of the kind's code.
const CODE: usize = 5;

// The code of the kind `drift`.
const DRIFT: u8 = 2;

// Cases in their order, each checked, with a title.
fn print_runs<K: ListedKind, I: Iterator<Item = Case> + Drop>(
    rt: &HostRuntime,
    title: &str,
    sheet: &[u8],
    cases: I,
) -> io::Result<()>
    requires can { I.can_next cases }
    requires ends { IsFinite (I.remaining cases) }
{
    println!(rt; "{title}")?;
    let mut runs = Runs::default();
    for case in cases {
        let file = case.file(rt.alloc(), sheet)?;
        runs.add::<K>(rt, case, &file)?;
    }
    runs.finish(rt)
}

// Every front of the file.
fn print_lengths(rt: &HostRuntime, sheet: &[u8]) -> io::Result<()> {
    let cases = (0..=sheet.len()).map(Case::Front);
    print_runs::<Bytes, _>(rt, "lengths", sheet, cases)
}

// Every front that has a header, with the length field to match.
fn print_fitted(rt: &HostRuntime, sheet: &[u8]) -> io::Result<()> {
    let cases = (HEADER..=sheet.len()).map(Case::Fitted);
    print_runs::<Bytes, _>(rt, "lengths with the length field to match", sheet, cases)
}

// Every value at every place.
fn print_changes<K: ListedKind>(rt: &HostRuntime, title: &str, sheet: &[u8]) -> io::Result<()> {
    let cases = (0..sheet.len()).flat_map(|place| (0..=255).map(move |value| Case::Change(
        place, value,
    )));
    print_runs::<K, _>(rt, title, sheet, cases)
}

// Two places at once, each changed in both ways.
fn add_pair<K: ListedKind>(
    heap: Global,
    sheet: &[u8],
    low: usize,
    high: usize,
    tally: &mut Tally,
) -> Result<(), AllocError> {
    for first in Turn::ALL {
        let once = first.file(heap, sheet, low)?;
        for second in Turn::ALL {
            let twice = second.file(heap, &once, high)?;
            tally.add::<K>(heap, &twice)?;
        }
    }
    Ok(())
}

// Every two places: what is answered when two faults meet.
fn print_pairs<K: ListedKind>(rt: &HostRuntime, title: &str, sheet: &[u8]) -> io::Result<()> {
    println!(rt; "{title}")?;
    let mut tally = Tally::new();
    // Each pair of places is a case, and no slice is read by them here.
    for low in 0..sheet.len() {
        for high in low + 1..sheet.len() {
            add_pair::<K>(rt.alloc(), sheet, low, high, &mut tally)?;
        }
    }
    tally.print(rt)
}

fn main(rt: HostRuntime) -> io::Result<()> {
    let mut sheet = Vec::new(rt.alloc());
    rt.stdin().read_to_end(&mut sheet)?;
    let drift = with_byte(rt.alloc(), &sheet, CODE, DRIFT)?;
    print_lengths(&rt, &sheet)?;
    print_fitted(&rt, &sheet)?;
    print_changes::<Bytes>(&rt, "changes", &sheet)?;
    print_changes::<Drift>(&rt, "changes checked as drift", &sheet)?;
    print_changes::<Drift>(&rt, "changes of the drift sheet", &drift)?;
    print_pairs::<Bytes>(&rt, "pairs", &sheet)?;
    print_pairs::<Drift>(&rt, "pairs of the drift sheet", &drift)
}
