//! The fields of a record.
ghost use Rattle.std.specs.Prelude.{◌≡◌, slice_index};
ghost use Rattle.link_file.specs.Format.{number16, four};

use super::check::RECORD;

// What stands in a record, not judged yet: the mark is a number and the price a form.
#[derive(Clone, Copy)]
pub(super) struct Fields {
    pub(super) length: u8,
    pub(super) first: u16,
    pub(super) second: u16,
    pub(super) mark: u8,
    pub(super) price: [u8; 4],
}

impl Fields {
    // The fields of these bytes.
    pub(super) fn of(bytes: &[u8; RECORD]) -> Fields
        ensures length { result.length ≡ slice_index bytes.now 0 }
        ensures first { result.first ≡ number16 bytes.now 1 }
        ensures second { result.second ≡ number16 bytes.now 3 }
        ensures mark { result.mark ≡ slice_index bytes.now 5 }
        ensures price { result.price ≡ four bytes.now 6 }
    {
        let [length, a, b, c, d, mark, e, f, g, h] = *bytes;
        Fields {
            length,
            first: u16::from_be_bytes([a, b]),
            second: u16::from_be_bytes([c, d]),
            mark,
            price: [e, f, g, h],
        }
    }
}
