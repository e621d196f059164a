//! Files that are written.
use super::SHEET_A;
use super::files::{AS_DRIFT, answer, repeated, sheet};
use super::readers::{holds_sheet_a, link};
use super::single::Single;
use link_file::{Reader, write};
use price::additive::Bytes;
use price::bottleneck::Drift;
use std::process::Abort;
use std::test::Fail;
use table::LinkTable;
use table::links::Link;
use table::marks::Mark;
use table::refusals::PlanFault;

// The file passes, and holds sheet A.
fn reads_as_sheet_a(rt: &impl Abort, file: &[u8]) -> Result<(), Fail> {
    let mut reader = Reader::<Bytes>::new();
    reader.check(file)?;
    holds_sheet_a(rt, &reader);
    Ok(())
}

// The file passes, and holds this one link and a zero total.
fn reads_as(rt: &impl Abort, file: &[u8], link: Link<Bytes>) -> Result<(), Fail> {
    let mut reader = Reader::<Bytes>::new();
    reader.check(file)?;
    assert_eq!(rt; reader.link_count(), 1);
    assert_eq!(rt; reader.link(0), Some(link));
    assert_eq!(rt; reader.carried().0, 0);
    Ok(())
}

#[test]
fn same_bytes(rt: HostRuntime) -> Result<(), Fail> {
    let mut reader = Reader::<Bytes>::new();
    reader.check(SHEET_A)?;
    let mut out = [7; 62];
    assert_eq!(rt; write(&reader, reader.budget(), &mut out), Ok(62));
    assert_eq!(rt; &out, SHEET_A);
    Ok(())
}

#[test]
fn short_buffer(rt: HostRuntime) -> Result<(), Fail> {
    let mut reader = Reader::<Bytes>::new();
    reader.check(SHEET_A)?;
    let mut out = [7; 61];
    assert_eq!(rt;
        write(&reader, reader.budget(), &mut out),
        Err(PlanFault::ShortBuffer)
    );
    assert_eq!(rt; out, [7; 61]);
    let mut none = [];
    assert_eq!(rt;
        write(&reader, reader.budget(), &mut none),
        Err(PlanFault::ShortBuffer)
    );
    Ok(())
}

#[test]
fn bytes_past_the_file(rt: HostRuntime) -> Result<(), Fail> {
    let mut reader = Reader::<Bytes>::new();
    reader.check(SHEET_A)?;
    let mut out = [7; 64];
    assert_eq!(rt; write(&reader, reader.budget(), &mut out), Ok(62));
    assert_eq!(rt; &out[0..62], SHEET_A.as_slice());
    assert_eq!(rt; &out[62..], [7, 7].as_slice());
    Ok(())
}

#[test]
fn written_and_read(rt: HostRuntime) -> Result<(), Fail> {
    let mut reader = Reader::<Bytes>::new();
    reader.check(SHEET_A)?;
    let mut out = [0; 62];
    assert_eq!(rt; write(&reader, Bytes(10), &mut out), Ok(62));
    reads_as_sheet_a(&rt, &out)
}

#[test]
fn another_budget(rt: HostRuntime) -> Result<(), Fail> {
    let file = sheet(rt.alloc(), &[(8, 255), (9, 255), (10, 255), (11, 253)])?;
    let mut reader = Reader::<Bytes>::new();
    reader.check(SHEET_A)?;
    let mut out = [0; 62];
    assert_eq!(rt; write(&reader, Bytes(-3), &mut out), Ok(62));
    assert_eq!(rt; out.as_slice(), file.as_slice());
    assert_eq!(rt; answer::<Bytes>(&out), Ok(()));
    Ok(())
}

#[test]
fn unfilled_reader(rt: HostRuntime) {
    let reader = Reader::<Bytes>::new();
    let mut out = [7; 12];
    assert_eq!(rt; write(&reader, reader.budget(), &mut out), Ok(12));
    assert_eq!(rt; out, [1, 0, 0, 0, 7, 1, 0, 1, 0, 0, 0, 0]);
    let mut short = [7; 11];
    assert_eq!(rt;
        write(&reader, reader.budget(), &mut short),
        Err(PlanFault::ShortBuffer)
    );
    assert_eq!(rt; short, [7; 11]);
}

#[test]
fn longest_file(rt: HostRuntime) -> Result<(), Fail> {
    let heap = rt.alloc();
    let file = repeated(heap, 2_048)?;
    let mut reader = Reader::<Bytes>::new();
    reader.check(&file)?;
    let mut short = vec![in heap; 7; 20_491]?;
    assert_eq!(rt;
        write(&reader, reader.budget(), &mut short),
        Err(PlanFault::ShortBuffer)
    );
    let mut out = vec![in heap; 7; 20_492]?;
    assert_eq!(rt; write(&reader, reader.budget(), &mut out), Ok(20_492));
    assert!(rt; out == file);
    Ok(())
}

#[test]
fn drift_file(rt: HostRuntime) -> Result<(), Fail> {
    let file = sheet(
        rt.alloc(),
        &[AS_DRIFT, (10, 255), (11, 255), (20, 255), (21, 255)],
    )?;
    let mut reader = Reader::<Drift>::new();
    reader.check(&file)?;
    let mut out = [7; 62];
    assert_eq!(rt; write(&reader, reader.budget(), &mut out), Ok(62));
    assert_eq!(rt; out.as_slice(), file.as_slice());
    Ok(())
}

#[test]
fn other_table(rt: HostRuntime) -> Result<(), Fail> {
    let table = Single {
        points: 1_024,
        link: link(1_023, 258, Mark::Barred, -1_000_000),
        carried: Bytes(4),
    };
    let mut out = [7; 23];
    assert_eq!(rt; write(&table, Bytes(-1), &mut out), Ok(22));
    let file = b"\x01\0\0\0\x11\x01\x04\0\xff\xff\xff\xff\x09\x03\xff\x01\x02\x02\xff\xf0\xbd\xc0";
    assert_eq!(rt; &out[0..22], file.as_slice());
    assert_eq!(rt; out[22], 7);
    reads_as(&rt, &out[0..22], link(1_023, 258, Mark::Barred, -1_000_000))
}

// What is not lawful is written, and its file is refused.
#[test]
fn unlawful_tables(rt: HostRuntime) {
    let mut table = Single {
        points: 2,
        link: link(1, 1, Mark::Free, 0),
        carried: Bytes(0),
    };
    let mut out = [0; 22];
    assert_eq!(rt; write(&table, Bytes(0), &mut out), Ok(22));
    assert_eq!(rt; answer::<Bytes>(&out), Err((18, 13)));
    table.link = link(1, 0, Mark::Free, 1_000_001);
    assert_eq!(rt; write(&table, Bytes(0), &mut out), Ok(22));
    assert_eq!(rt; answer::<Bytes>(&out), Err((20, 18)));
    table.points = 0;
    assert_eq!(rt; write(&table, Bytes(0), &mut out), Ok(22));
    assert_eq!(rt; answer::<Bytes>(&out), Err((15, 6)));
}
