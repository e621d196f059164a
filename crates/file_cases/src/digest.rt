//! A checksum over what is printed: FNV-1a of 32 bits.
use link_file::Reader;
use listing::amounts::ListedKind;
use listing::{ROOM, compose_line};
use table::LinkTable;

/// The checksum of nothing.
pub const START: u32 = 2_166_136_261;

const FACTOR: u32 = 16_777_619;

/// The checksum with a text added.
pub fn fold(digest: u32, text: &[u8]) -> u32 {
    text.iter().fold(digest, |digest, byte| {
        (digest ^ u32::from(*byte)).wrapping_mul(FACTOR)
    })
}

// The checksum with a line of the list added.
fn fold_line<K: ListedKind>(digest: u32, reader: &Reader<K>, number: usize) -> u32 {
    let mut line = [0; ROOM];
    match compose_line(reader, reader.budget(), number, &mut line) {
        Ok(len) => fold(digest, &line[..len]),
        Err(_) => digest,
    }
}

/// The checksum with the list of a file added, line by line.
pub fn fold_list<K: ListedKind>(digest: u32, reader: &Reader<K>) -> u32 {
    (0..=reader.link_count()).fold(digest, |digest, number| fold_line(digest, reader, number))
}
