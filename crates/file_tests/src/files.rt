//! Files to test with, and what the check answers for them.
use super::SHEET_A;
use link_file::Reader;
use price::StorableKind;
use std::alloc::{AllocError, Global};
use std::process::Abort;
use std::test::Fail;

/// A change of a file: a place, and the byte that is put there.
pub type Change = (usize, u8);

/// Turns sheet A into a file of the kind drift.
pub const AS_DRIFT: Change = (5, 2);

/// Sheet A with the least amounts of the kind bytes: the budget, and the price of link 0, which is barred.
pub const LEAST: [Change; 7] = [
    (8, 128),
    (11, 0),
    (17, 2),
    (18, 0xff),
    (19, 0xf0),
    (20, 0xbd),
    (21, 0xc0),
];

/// Puts bytes at their places.
pub fn put(file: &mut Vec<u8>, changes: &[Change]) {
    for (place, value) in changes {
        if let Some(byte) = file.get_mut(*place) {
            *byte = *value;
        }
    }
}

/// Sheet A with some bytes changed.
pub fn sheet(heap: Global, changes: &[Change]) -> Result<Vec<u8>, AllocError> {
    let mut file = Vec::from_slice(heap, SHEET_A)?;
    put(&mut file, changes);
    Ok(file)
}

/// The first bytes of sheet A, some of them changed.
pub fn front(heap: Global, length: usize, changes: &[Change]) -> Result<Vec<u8>, AllocError> {
    let mut file = sheet(heap, changes)?;
    file.truncate(length);
    Ok(file)
}

/// A file of the kind bytes with 2 points and this many links of price 5.
pub fn repeated(heap: Global, links: u16) -> Result<Vec<u8>, AllocError> {
    let after = (7 + 10 * u32::from(links)).to_be_bytes();
    let header = [
        1, after[0], after[1], after[2], after[3], 1, 0, 2, 0, 0, 0, 0,
    ];
    let mut file = Vec::from_slice(heap, &header)?;
    for _ in 0..links {
        file.extend_from_slice(&[9, 0, 0, 0, 1, 0, 0, 0, 0, 5])?;
    }
    Ok(file)
}

/// What the check answers for a file of a kind: number and place of the refusal.
pub fn answer<K: StorableKind>(file: &[u8]) -> Result<(), (u8, usize)> {
    let mut reader = Reader::<K>::new();
    reader
        .check(file)
        .map_err(|fault| (fault.number(), fault.place()))
}

/// Sheet A with these changes passes.
pub fn granted<K: StorableKind>(
    rt: &impl Abort,
    heap: Global,
    changes: &[Change],
) -> Result<(), Fail> {
    let file = sheet(heap, changes)?;
    assert_eq!(rt; answer::<K>(&file), Ok(()));
    Ok(())
}

/// Sheet A with these changes is refused with this number at this place.
pub fn refused<K: StorableKind>(
    rt: &impl Abort,
    heap: Global,
    changes: &[Change],
    number: u8,
    place: usize,
) -> Result<(), Fail> {
    let file = sheet(heap, changes)?;
    assert_eq!(rt; answer::<K>(&file), Err((number, place)));
    Ok(())
}
