//! Refusals 11 to 16, and 17 of a whole file, each beside the nearest value that is granted.
use super::files::{AS_DRIFT, answer, front, granted, put, refused, repeated};
use link_file::LONGEST;
use price::additive::Bytes;
use price::bottleneck::Drift;
use std::test::Fail;

#[test]
fn shortest(rt: HostRuntime) -> Result<(), Fail> {
    let mut file = repeated(rt.alloc(), 0)?;
    assert_eq!(rt; file.len(), 12);
    assert_eq!(rt; answer::<Bytes>(&file), Ok(()));
    let _ = file.pop();
    assert_eq!(rt; answer::<Bytes>(&file), Err((11, 0)));
    file.clear();
    assert_eq!(rt; answer::<Bytes>(&file), Err((11, 0)));
    Ok(())
}

#[test]
fn longest(rt: HostRuntime) -> Result<(), Fail> {
    let mut file = repeated(rt.alloc(), 2_048)?;
    assert_eq!(rt; LONGEST, 20_492);
    assert_eq!(rt; file.len(), LONGEST);
    assert_eq!(rt; answer::<Bytes>(&file), Ok(()));
    file.push(9)?;
    assert_eq!(rt; answer::<Bytes>(&file), Err((11, 0)));
    let more = repeated(rt.alloc(), 2_049)?;
    assert_eq!(rt; answer::<Bytes>(&more), Err((11, 0)));
    Ok(())
}

#[test]
fn version(rt: HostRuntime) -> Result<(), Fail> {
    let heap = rt.alloc();
    refused::<Bytes>(&rt, heap, &[(0, 0)], 12, 0)?;
    granted::<Bytes>(&rt, heap, &[(0, 1)])?;
    refused::<Bytes>(&rt, heap, &[(0, 2)], 12, 0)
}

#[test]
fn length_field(rt: HostRuntime) -> Result<(), Fail> {
    let heap = rt.alloc();
    refused::<Bytes>(&rt, heap, &[(4, 56)], 13, 1)?;
    granted::<Bytes>(&rt, heap, &[(4, 57)])?;
    refused::<Bytes>(&rt, heap, &[(4, 58)], 13, 1)?;
    refused::<Bytes>(&rt, heap, &[(4, 47)], 13, 1)?;
    refused::<Bytes>(&rt, heap, &[(1, 1)], 13, 1)?;
    refused::<Bytes>(&rt, heap, &[(2, 1)], 13, 1)?;
    refused::<Bytes>(&rt, heap, &[(3, 1)], 13, 1)
}

#[test]
fn kind_of_bytes(rt: HostRuntime) -> Result<(), Fail> {
    let heap = rt.alloc();
    refused::<Bytes>(&rt, heap, &[(5, 0)], 14, 5)?;
    granted::<Bytes>(&rt, heap, &[(5, 1)])?;
    refused::<Bytes>(&rt, heap, &[(5, 2)], 14, 5)?;
    refused::<Bytes>(&rt, heap, &[(5, 3)], 14, 5)
}

#[test]
fn kind_of_drift(rt: HostRuntime) -> Result<(), Fail> {
    let heap = rt.alloc();
    refused::<Drift>(&rt, heap, &[(5, 0)], 14, 5)?;
    refused::<Drift>(&rt, heap, &[(5, 1)], 14, 5)?;
    granted::<Drift>(&rt, heap, &[(5, 2)])?;
    refused::<Drift>(&rt, heap, &[(5, 3)], 14, 5)
}

#[test]
fn fewest_points(rt: HostRuntime) -> Result<(), Fail> {
    let mut file = repeated(rt.alloc(), 0)?;
    put(&mut file, &[(7, 0)]);
    assert_eq!(rt; answer::<Bytes>(&file), Err((15, 6)));
    put(&mut file, &[(7, 1)]);
    assert_eq!(rt; answer::<Bytes>(&file), Ok(()));
    Ok(())
}

#[test]
fn most_points(rt: HostRuntime) -> Result<(), Fail> {
    let heap = rt.alloc();
    granted::<Bytes>(&rt, heap, &[(6, 3), (7, 255)])?;
    granted::<Bytes>(&rt, heap, &[(6, 4), (7, 0)])?;
    refused::<Bytes>(&rt, heap, &[(6, 4), (7, 1)], 15, 6)?;
    refused::<Bytes>(&rt, heap, &[(6, 255), (7, 255)], 15, 6)
}

#[test]
fn drift_budget(rt: HostRuntime) -> Result<(), Fail> {
    let heap = rt.alloc();
    granted::<Drift>(&rt, heap, &[AS_DRIFT, (11, 0)])?;
    granted::<Drift>(&rt, heap, &[AS_DRIFT, (10, 255), (11, 255)])?;
    refused::<Drift>(&rt, heap, &[AS_DRIFT, (9, 1), (11, 0)], 16, 8)?;
    refused::<Drift>(
        &rt,
        heap,
        &[AS_DRIFT, (8, 255), (9, 255), (10, 255), (11, 255)],
        16,
        8,
    )
}

#[test]
fn any_bytes_budget(rt: HostRuntime) -> Result<(), Fail> {
    let heap = rt.alloc();
    granted::<Bytes>(&rt, heap, &[(8, 127), (9, 255), (10, 255), (11, 255)])?;
    granted::<Bytes>(&rt, heap, &[(8, 128), (9, 0), (10, 0), (11, 0)])?;
    granted::<Bytes>(&rt, heap, &[(8, 255), (9, 255), (10, 255), (11, 255)])
}

#[test]
fn whole_records(rt: HostRuntime) -> Result<(), Fail> {
    let heap = rt.alloc();
    assert_eq!(rt;
        answer::<Bytes>(&front(heap, 51, &[(4, 46)])?),
        Err((17, 1))
    );
    assert_eq!(rt; answer::<Bytes>(&front(heap, 52, &[(4, 47)])?), Ok(()));
    assert_eq!(rt;
        answer::<Bytes>(&front(heap, 53, &[(4, 48)])?),
        Err((17, 1))
    );
    assert_eq!(rt;
        answer::<Bytes>(&front(heap, 61, &[(4, 56)])?),
        Err((17, 1))
    );
    assert_eq!(rt; answer::<Bytes>(&front(heap, 61, &[])?), Err((13, 1)));
    Ok(())
}
