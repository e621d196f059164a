//! What a reader holds before, after and despite a check.
use super::SHEET_A;
use super::files::{AS_DRIFT, LEAST, repeated, sheet};
use link_file::Reader;
use price::additive::Bytes;
use price::bottleneck::Drift;
use std::process::Abort;
use std::test::Fail;
use table::LinkTable;
use table::links::Link;
use table::marks::Mark;
use table::refusals::FileFault;

/// A link of the kind bytes.
pub fn link(first: u16, second: u16, mark: Mark, price: i32) -> Link<Bytes> {
    Link {
        first,
        second,
        mark,
        price: Bytes(price),
    }
}

/// The reader holds sheet A.
pub fn holds_sheet_a(rt: &impl Abort, reader: &Reader<Bytes>) {
    assert_eq!(rt; reader.points(), 4);
    assert_eq!(rt; reader.budget().0, 10);
    assert_eq!(rt; reader.link_count(), 5);
    assert_eq!(rt; reader.carried().0, 0);
    assert_eq!(rt; reader.link(0), Some(link(0, 1, Mark::Free, 4)));
    assert_eq!(rt; reader.link(1), Some(link(1, 2, Mark::Free, 3)));
    assert_eq!(rt; reader.link(2), Some(link(0, 2, Mark::Free, 5)));
    assert_eq!(rt; reader.link(3), Some(link(2, 3, Mark::Kept, 2)));
    assert_eq!(rt; reader.link(4), Some(link(1, 3, Mark::Free, 6)));
    assert_eq!(rt; reader.link(5), None);
}

#[test]
fn unfilled(rt: HostRuntime) {
    let reader = Reader::<Bytes>::new();
    assert_eq!(rt; reader.points(), 1);
    assert_eq!(rt; reader.link_count(), 0);
    assert_eq!(rt; reader.budget().0, 0);
    assert_eq!(rt; reader.carried().0, 0);
    assert_eq!(rt; reader.link(0), None);
    assert_eq!(rt; reader.link(usize::MAX), None);
}

#[test]
fn unfilled_drift(rt: HostRuntime) {
    let reader = Reader::<Drift>::new();
    assert_eq!(rt; reader.points(), 1);
    assert_eq!(rt; reader.link_count(), 0);
    assert_eq!(rt; reader.budget().0, 0);
    assert!(rt; reader.link(0).is_none());
}

#[test]
fn filled(rt: HostRuntime) {
    let mut reader = Reader::<Bytes>::new();
    assert_eq!(rt; reader.check(SHEET_A), Ok(()));
    holds_sheet_a(&rt, &reader);
    assert_eq!(rt; reader.link(2_047), None);
    assert_eq!(rt; reader.link(usize::MAX), None);
}

#[test]
fn refusal_leaves_the_reader(rt: HostRuntime) -> Result<(), Fail> {
    let heap = rt.alloc();
    let early = sheet(heap, &[(0, 2)])?;
    let late = sheet(heap, &[(7, 200), (11, 99), (21, 99), (58, 1)])?;
    let mut reader = Reader::<Bytes>::new();
    assert_eq!(rt; reader.check(SHEET_A), Ok(()));
    assert_eq!(rt; reader.check(&early), Err(FileFault::Version));
    holds_sheet_a(&rt, &reader);
    assert!(rt; reader.check(&late).is_err());
    holds_sheet_a(&rt, &reader);
    Ok(())
}

#[test]
fn refusal_leaves_a_new_reader(rt: HostRuntime) -> Result<(), Fail> {
    let file = sheet(rt.alloc(), &[(58, 1)])?;
    let mut reader = Reader::<Bytes>::new();
    assert!(rt; reader.check(&file).is_err());
    assert_eq!(rt; reader.points(), 1);
    assert_eq!(rt; reader.link_count(), 0);
    assert_eq!(rt; reader.budget().0, 0);
    Ok(())
}

#[test]
fn filled_again(rt: HostRuntime) -> Result<(), Fail> {
    let file = repeated(rt.alloc(), 2_048)?;
    let mut reader = Reader::<Bytes>::new();
    assert_eq!(rt; reader.check(&file), Ok(()));
    assert_eq!(rt; reader.points(), 2);
    assert_eq!(rt; reader.link_count(), 2_048);
    assert_eq!(rt; reader.link(2_047), Some(link(0, 1, Mark::Free, 5)));
    assert_eq!(rt; reader.link(2_048), None);
    assert_eq!(rt; reader.check(SHEET_A), Ok(()));
    holds_sheet_a(&rt, &reader);
    Ok(())
}

#[test]
fn signed_amounts(rt: HostRuntime) -> Result<(), Fail> {
    let least = sheet(rt.alloc(), &LEAST)?;
    let mut reader = Reader::<Bytes>::new();
    assert_eq!(rt; reader.check(&least), Ok(()));
    assert_eq!(rt; reader.budget().0, -2_147_483_648);
    assert_eq!(rt; reader.link(0), Some(link(0, 1, Mark::Barred, -1_000_000)));
    Ok(())
}

#[test]
fn drift_amounts(rt: HostRuntime) -> Result<(), Fail> {
    let heap = rt.alloc();
    let file = sheet(
        heap,
        &[AS_DRIFT, (10, 255), (11, 255), (20, 255), (21, 254)],
    )?;
    let mut reader = Reader::<Drift>::new();
    assert_eq!(rt; reader.check(&file), Ok(()));
    assert_eq!(rt; reader.budget().0, 65_535);
    let link = reader.link(0).ok_or("no link")?;
    assert_eq!(rt; link.price.0, 65_534);
    Ok(())
}
