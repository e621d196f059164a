//! The reader of a link file.
ghost use Rattle.std.specs.Prelude.{◌≤◌, length};
ghost use Rattle.table.specs.Table.{most_links};

use super::check::RECORD;

/// A link file that passed the check, or no file yet: then it reads as one point, no links and a zero budget.
/// Its links are decoded where they stand in the bytes.
#[derive(Drop)]
pub struct Reader<'a, K> {
    pub(crate) records: &'a [[u8; RECORD]],
    pub(crate) points: u16,
    pub(crate) budget: K,
    ghost few: { length records.now ≤ most_links },
}
