//! Refusals 17 to 20 of a record, each beside the nearest value that is granted.
use super::files::{AS_DRIFT, granted, refused};
use price::additive::Bytes;
use price::bottleneck::Drift;
use std::test::Fail;

#[test]
fn record_length(rt: HostRuntime) -> Result<(), Fail> {
    let heap = rt.alloc();
    refused::<Bytes>(&rt, heap, &[(12, 8)], 17, 12)?;
    granted::<Bytes>(&rt, heap, &[(12, 9)])?;
    refused::<Bytes>(&rt, heap, &[(12, 10)], 17, 12)?;
    refused::<Bytes>(&rt, heap, &[(32, 8)], 17, 32)?;
    refused::<Bytes>(&rt, heap, &[(52, 10)], 17, 52)
}

#[test]
fn first_end(rt: HostRuntime) -> Result<(), Fail> {
    let heap = rt.alloc();
    granted::<Bytes>(&rt, heap, &[(14, 3)])?;
    refused::<Bytes>(&rt, heap, &[(14, 4)], 18, 13)?;
    refused::<Bytes>(&rt, heap, &[(13, 1)], 18, 13)?;
    refused::<Bytes>(&rt, heap, &[(54, 4)], 18, 53)
}

#[test]
fn second_end(rt: HostRuntime) -> Result<(), Fail> {
    let heap = rt.alloc();
    granted::<Bytes>(&rt, heap, &[(16, 3)])?;
    refused::<Bytes>(&rt, heap, &[(16, 4)], 18, 13)?;
    refused::<Bytes>(&rt, heap, &[(15, 1)], 18, 13)?;
    refused::<Bytes>(&rt, heap, &[(56, 4)], 18, 53)
}

#[test]
fn equal_ends(rt: HostRuntime) -> Result<(), Fail> {
    let heap = rt.alloc();
    refused::<Bytes>(&rt, heap, &[(16, 0)], 18, 13)?;
    granted::<Bytes>(&rt, heap, &[(14, 1), (16, 0)])?;
    refused::<Bytes>(&rt, heap, &[(54, 3)], 18, 53)
}

#[test]
fn ends_at_most_points(rt: HostRuntime) -> Result<(), Fail> {
    let heap = rt.alloc();
    granted::<Bytes>(&rt, heap, &[(6, 4), (7, 0), (15, 3), (16, 255)])?;
    refused::<Bytes>(&rt, heap, &[(6, 4), (7, 0), (15, 4), (16, 0)], 18, 13)?;
    refused::<Bytes>(&rt, heap, &[(6, 3), (7, 255), (15, 3), (16, 255)], 18, 13)
}

#[test]
fn mark(rt: HostRuntime) -> Result<(), Fail> {
    let heap = rt.alloc();
    granted::<Bytes>(&rt, heap, &[(47, 0)])?;
    granted::<Bytes>(&rt, heap, &[(47, 2)])?;
    refused::<Bytes>(&rt, heap, &[(47, 3)], 19, 47)?;
    refused::<Bytes>(&rt, heap, &[(17, 255)], 19, 17)
}

// Record 0's price.
#[test]
fn bytes_price(rt: HostRuntime) -> Result<(), Fail> {
    let heap = rt.alloc();
    granted::<Bytes>(&rt, heap, &[(19, 0x0f), (20, 0x42), (21, 0x40)])?;
    refused::<Bytes>(&rt, heap, &[(19, 0x0f), (20, 0x42), (21, 0x41)], 20, 18)?;
    granted::<Bytes>(&rt, heap, &[(18, 0xff), (19, 0xf0), (20, 0xbd), (21, 0xc0)])?;
    refused::<Bytes>(
        &rt,
        heap,
        &[(18, 0xff), (19, 0xf0), (20, 0xbd), (21, 0xbf)],
        20,
        18,
    )
}

// The last record's price.
#[test]
fn bytes_price_at_end(rt: HostRuntime) -> Result<(), Fail> {
    let heap = rt.alloc();
    granted::<Bytes>(&rt, heap, &[(59, 0x0f), (60, 0x42), (61, 0x40)])?;
    refused::<Bytes>(&rt, heap, &[(59, 0x0f), (60, 0x42), (61, 0x41)], 20, 58)?;
    refused::<Bytes>(&rt, heap, &[(58, 128)], 20, 58)
}

#[test]
fn drift_price(rt: HostRuntime) -> Result<(), Fail> {
    let heap = rt.alloc();
    granted::<Drift>(&rt, heap, &[AS_DRIFT, (21, 0)])?;
    granted::<Drift>(&rt, heap, &[AS_DRIFT, (20, 255), (21, 255)])?;
    refused::<Drift>(&rt, heap, &[AS_DRIFT, (19, 1), (20, 0), (21, 0)], 20, 18)?;
    refused::<Drift>(
        &rt,
        heap,
        &[AS_DRIFT, (18, 255), (19, 255), (20, 255), (21, 255)],
        20,
        18,
    )
}
