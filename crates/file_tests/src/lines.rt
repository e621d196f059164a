//! Lines of the printed list, and lines of refused files.
use super::SHEET_A;
use super::files::{AS_DRIFT, LEAST, repeated, sheet};
use super::single::Single;
use link_file::Reader;
use listing::amounts::ListedKind;
use listing::{compose_line, compose_refusal, list_file};
use price::additive::Bytes;
use price::bottleneck::Drift;
use std::process::Abort;
use std::test::Fail;
use table::links::Link;
use table::marks::{Mark, UnknownMark};
use table::refusals::{FileFault, PlanFault, RecordFault};

// The line of this number is this text, and the bytes past it stay.
fn lists<K: ListedKind>(
    rt: &impl Abort,
    reader: &Reader<K>,
    number: usize,
    text: &[u8],
) -> Result<(), Fail> {
    let mut out = [7; 130];
    let len = compose_line(reader, reader.budget(), number, &mut out)?;
    assert_eq!(rt; out.get(0..len), Some(text));
    for byte in out.iter().skip(len) {
        assert_eq!(rt; *byte, 7);
    }
    Ok(())
}

// The line of this fault is this text.
fn refuses(rt: &impl Abort, fault: FileFault, text: &[u8]) -> Result<(), Fail> {
    let mut out = [7; 130];
    let len = compose_refusal(fault, &mut out)?;
    assert_eq!(rt; out.get(0..len), Some(text));
    Ok(())
}

#[test]
fn sheet_a(rt: HostRuntime) -> Result<(), Fail> {
    let mut reader = Reader::<Bytes>::new();
    reader.check(SHEET_A)?;
    lists(&rt, &reader, 0, b"points 4 links 5 kind 1 budget 10\n")?;
    lists(&rt, &reader, 1, b"0 0 1 free 4\n")?;
    lists(&rt, &reader, 2, b"1 1 2 free 3\n")?;
    lists(&rt, &reader, 3, b"2 0 2 free 5\n")?;
    lists(&rt, &reader, 4, b"3 2 3 kept 2\n")?;
    lists(&rt, &reader, 5, b"4 1 3 free 6\n")?;
    lists(&rt, &reader, 6, b"")?;
    lists(&rt, &reader, usize::MAX, b"")
}

#[test]
fn unfilled_reader(rt: HostRuntime) -> Result<(), Fail> {
    let reader = Reader::<Bytes>::new();
    lists(&rt, &reader, 0, b"points 1 links 0 kind 1 budget 0\n")?;
    lists(&rt, &reader, 1, b"")
}

#[test]
fn negative_amounts(rt: HostRuntime) -> Result<(), Fail> {
    let file = sheet(rt.alloc(), &LEAST)?;
    let mut reader = Reader::<Bytes>::new();
    reader.check(&file)?;
    lists(
        &rt,
        &reader,
        0,
        b"points 4 links 5 kind 1 budget -2147483648\n",
    )?;
    lists(&rt, &reader, 1, b"0 0 1 barred -1000000\n")
}

#[test]
fn drift_sheet(rt: HostRuntime) -> Result<(), Fail> {
    let file = sheet(
        rt.alloc(),
        &[AS_DRIFT, (10, 255), (11, 255), (20, 255), (21, 255)],
    )?;
    let mut reader = Reader::<Drift>::new();
    reader.check(&file)?;
    lists(&rt, &reader, 0, b"points 4 links 5 kind 2 budget 65535\n")?;
    lists(&rt, &reader, 1, b"0 0 1 free 65535\n")?;
    lists(&rt, &reader, 4, b"3 2 3 kept 2\n")
}

#[test]
fn longest_file(rt: HostRuntime) -> Result<(), Fail> {
    let file = repeated(rt.alloc(), 2_048)?;
    let mut reader = Reader::<Bytes>::new();
    reader.check(&file)?;
    lists(&rt, &reader, 0, b"points 2 links 2048 kind 1 budget 0\n")?;
    lists(&rt, &reader, 2_048, b"2047 0 1 free 5\n")?;
    lists(&rt, &reader, 2_049, b"")
}

// A table that is not lawful is listed too.
#[test]
fn other_table(rt: HostRuntime) {
    let table = Single {
        points: 65_535,
        link: Link {
            first: 65_535,
            second: 65_535,
            mark: Mark::Kept,
            price: Bytes(-2_147_483_648),
        },
        carried: Bytes(0),
    };
    let mut out = [7; 38];
    assert_eq!(rt; compose_line(&table, Bytes(-1), 0, &mut out), Ok(38));
    assert_eq!(rt; &out, b"points 65535 links 1 kind 1 budget -1\n");
    assert_eq!(rt; compose_line(&table, Bytes(-1), 1, &mut out), Ok(31));
    assert_eq!(rt; &out[0..31], b"0 65535 65535 kept -2147483648\n".as_slice());
    assert_eq!(rt; compose_line(&table, Bytes(-1), 2, &mut out), Ok(0));
}

#[test]
fn short_buffers(rt: HostRuntime) -> Result<(), Fail> {
    let mut reader = Reader::<Bytes>::new();
    reader.check(SHEET_A)?;
    let mut short = [7; 12];
    assert_eq!(rt;
        compose_line(&reader, Bytes(10), 1, &mut short),
        Err(PlanFault::ShortBuffer)
    );
    assert_eq!(rt; short, [7; 12]);
    let mut exact = [7; 13];
    assert_eq!(rt; compose_line(&reader, Bytes(10), 1, &mut exact), Ok(13));
    assert_eq!(rt; &exact, b"0 0 1 free 4\n");
    let mut none = [];
    assert_eq!(rt;
        compose_line(&reader, Bytes(10), 0, &mut none),
        Err(PlanFault::ShortBuffer)
    );
    assert_eq!(rt; compose_line(&reader, Bytes(10), 6, &mut none), Ok(0));
    Ok(())
}

#[test]
fn header_refusals(rt: HostRuntime) -> Result<(), Fail> {
    refuses(&rt, FileFault::Size, b"refused 11 at 0\n")?;
    refuses(&rt, FileFault::Version, b"refused 12 at 0\n")?;
    refuses(&rt, FileFault::LengthField, b"refused 13 at 1\n")?;
    refuses(&rt, FileFault::Kind, b"refused 14 at 5\n")?;
    refuses(&rt, FileFault::PointCount, b"refused 15 at 6\n")?;
    refuses(&rt, FileFault::Budget, b"refused 16 at 8\n")?;
    refuses(&rt, FileFault::Records, b"refused 17 at 1\n")
}

#[test]
fn record_refusals(rt: HostRuntime) -> Result<(), Fail> {
    refuses(
        &rt,
        FileFault::Record(RecordFault::Length(22)),
        b"refused 17 at 22\n",
    )?;
    refuses(
        &rt,
        FileFault::Record(RecordFault::Ends(53)),
        b"refused 18 at 53\n",
    )?;
    refuses(
        &rt,
        FileFault::Record(RecordFault::Mark(47)),
        b"refused 19 at 47\n",
    )?;
    refuses(
        &rt,
        FileFault::Record(RecordFault::Price(20_488)),
        b"refused 20 at 20488\n",
    )
}

#[test]
fn short_refusal(rt: HostRuntime) {
    let mut short = [7; 15];
    assert_eq!(rt;
        compose_refusal(FileFault::Size, &mut short),
        Err(PlanFault::ShortBuffer)
    );
    assert_eq!(rt; short, [7; 15]);
    let mut more = [7; 17];
    assert_eq!(rt; compose_refusal(FileFault::Size, &mut more), Ok(16));
    assert_eq!(rt; &more[0..16], b"refused 11 at 0\n".as_slice());
    assert_eq!(rt; more[16], 7);
}

#[test]
fn whole_list(rt: HostRuntime) -> Result<(), Fail> {
    let report = list_file::<Bytes>(rt.alloc(), SHEET_A)?;
    assert!(rt; report.answer.is_ok());
    let lines =
        "points 4 links 5 kind 1 budget 10\n0 0 1 free 4\n1 1 2 free 3\n2 0 2 free 5\n3 2 3 kept 2\n4 1 3 free 6\n";
    assert_eq!(rt; report.text.as_str(), lines);
    Ok(())
}

#[test]
fn refused_list(rt: HostRuntime) -> Result<(), Fail> {
    let heap = rt.alloc();
    let file = sheet(heap, &[(36, 0)])?;
    let report = list_file::<Bytes>(heap, &file)?;
    assert!(rt; report.answer.is_err());
    assert_eq!(rt; report.text.as_str(), "refused 18 at 33\n");
    Ok(())
}

#[test]
fn printed_words(rt: HostRuntime) -> Result<(), Fail> {
    let heap = rt.alloc();
    assert_eq!(rt;
        format!(in heap; "{} {} {}", Mark::Free, Mark::Kept, Mark::Barred)?.as_str(),
        "free kept barred"
    );
    assert_eq!(rt;
        UnknownMark(3).to_string(heap)?.as_str(),
        "no mark has the number 3"
    );
    let record = RecordFault::Length(22);
    assert_eq!(rt; record.to_string(heap)?.as_str(), "refused 17 at 22");
    assert_eq!(rt;
        FileFault::Kind.to_string(heap)?.as_str(),
        "refused 14 at 5"
    );
    let plan = PlanFault::from(FileFault::from(record));
    assert_eq!(rt; plan.to_string(heap)?.as_str(), "refused 17 at 22");
    assert_eq!(rt;
        PlanFault::ShortBuffer.to_string(heap)?.as_str(),
        "refused 33"
    );
    Ok(())
}
