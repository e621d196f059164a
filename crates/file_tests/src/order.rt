//! Which refusal is answered when two apply.
use super::files::{AS_DRIFT, answer, front, refused};
use price::additive::Bytes;
use price::bottleneck::Drift;
use std::test::Fail;

#[test]
fn frame_in_order(rt: HostRuntime) -> Result<(), Fail> {
    let heap = rt.alloc();
    assert_eq!(rt; answer::<Bytes>(&front(heap, 11, &[(0, 2)])?), Err((11, 0)));
    refused::<Bytes>(&rt, heap, &[(0, 2), (4, 0)], 12, 0)?;
    refused::<Bytes>(&rt, heap, &[(4, 0), (5, 2)], 13, 1)?;
    refused::<Bytes>(&rt, heap, &[(5, 2), (7, 0)], 14, 5)?;
    refused::<Drift>(&rt, heap, &[(7, 0), (9, 1)], 14, 5)?;
    refused::<Drift>(&rt, heap, &[AS_DRIFT, (7, 0), (9, 1)], 15, 6)?;
    refused::<Drift>(&rt, heap, &[AS_DRIFT, (9, 1), (12, 8)], 16, 8)
}

// A file that lacks its last byte, and says so.
#[test]
fn whole_before_records(rt: HostRuntime) -> Result<(), Fail> {
    let heap = rt.alloc();
    assert_eq!(rt;
        answer::<Bytes>(&front(heap, 61, &[(4, 56), (12, 8)])?),
        Err((17, 1))
    );
    assert_eq!(rt;
        answer::<Bytes>(&front(heap, 61, &[(4, 56), (7, 0)])?),
        Err((15, 6))
    );
    let file = front(heap, 61, &[(4, 56), AS_DRIFT, (9, 1)])?;
    assert_eq!(rt; answer::<Drift>(&file), Err((16, 8)));
    Ok(())
}

#[test]
fn record_in_order(rt: HostRuntime) -> Result<(), Fail> {
    let heap = rt.alloc();
    refused::<Bytes>(&rt, heap, &[(12, 8), (16, 0), (17, 3), (18, 1)], 17, 12)?;
    refused::<Bytes>(&rt, heap, &[(16, 0), (17, 3), (18, 1)], 18, 13)?;
    refused::<Bytes>(&rt, heap, &[(17, 3), (18, 1)], 19, 17)?;
    refused::<Bytes>(&rt, heap, &[(18, 1)], 20, 18)
}

#[test]
fn records_in_order(rt: HostRuntime) -> Result<(), Fail> {
    let heap = rt.alloc();
    refused::<Bytes>(&rt, heap, &[(18, 1), (22, 8)], 20, 18)?;
    refused::<Bytes>(&rt, heap, &[(22, 8), (32, 8), (52, 8)], 17, 22)?;
    refused::<Bytes>(
        &rt,
        heap,
        &[(19, 0x0f), (20, 0x42), (21, 0x41), (47, 3)],
        20,
        18,
    )?;
    refused::<Bytes>(&rt, heap, &[(47, 3), (52, 8)], 19, 47)
}
