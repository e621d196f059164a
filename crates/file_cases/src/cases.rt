//! Changed copies of a link file.
use std::alloc::{AllocError, Global};
use std::fmt;

/// A copy with another byte at a place.
pub fn with_byte(
    heap: Global,
    sheet: &[u8],
    place: usize,
    value: u8,
) -> Result<Vec<u8>, AllocError> {
    let mut copy = Vec::from_slice(heap, sheet)?;
    if let Some(byte) = copy.get_mut(place) {
        *byte = value;
    }
    Ok(copy)
}

// The first bytes of a file.
fn front(heap: Global, sheet: &[u8], length: usize) -> Result<Vec<u8>, AllocError> {
    let mut copy = Vec::from_slice(heap, sheet)?;
    copy.truncate(length);
    Ok(copy)
}

// The same, with the length field of what is left, which is below 256.
fn fitted(heap: Global, sheet: &[u8], length: usize) -> Result<Vec<u8>, AllocError> {
    let left = u8::try_from(length.saturating_sub(5)).unwrap_or(0);
    with_byte(heap, front(heap, sheet, length)?.as_slice(), 4, left)
}

/// A changed copy: its first bytes, these with the length field to match, or all with one byte changed.
#[derive(Clone, Copy)]
pub enum Case {
    Front(usize),
    Fitted(usize),
    Change(usize, u8),
}

impl Case {
    /// The copy of a file.
    pub fn file(self, heap: Global, sheet: &[u8]) -> Result<Vec<u8>, AllocError> {
        match self {
            Case::Front(length) => front(heap, sheet, length),
            Case::Fitted(length) => fitted(heap, sheet, length),
            Case::Change(place, value) => with_byte(heap, sheet, place, value),
        }
    }
}

impl fmt::Display for Case {
    fn fmt<W: fmt::Write>(&self, f: &mut fmt::Formatter<W>) -> fmt::Result {
        match *self {
            Case::Front(length) | Case::Fitted(length) => write!(f, "{length}"),
            Case::Change(place, value) => write!(f, "{place}={value}"),
        }
    }
}

/// What a byte is changed to in a pair of changes: one more, or 255.
#[derive(Clone, Copy)]
pub enum Turn {
    OneMore,
    Full,
}

impl Turn {
    /// Both changes.
    pub const ALL: [Turn; 2] = [Turn::OneMore, Turn::Full];

    /// The copy of a file with the byte at a place changed.
    pub fn file(self, heap: Global, sheet: &[u8], place: usize) -> Result<Vec<u8>, AllocError> {
        let value = match self {
            Turn::OneMore => sheet.get(place).copied().unwrap_or(0).wrapping_add(1),
            Turn::Full => 255,
        };
        with_byte(heap, sheet, place, value)
    }
}
