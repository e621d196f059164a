//! The methods of the reader.
ghost use Rattle.std.specs.Prelude.{◌≡◌};
ghost use Rattle.link_file.specs.Format.{link_at};
ghost use Rattle.link_file.specs.Reading.{reader_table, Unfilled};

use super::check::RECORD;
use super::fields::Fields;
use super::input::Reader;
use price::StorableKind;
use table::LinkTable;
use table::links::Link;
use table::marks::Mark;

impl<'a, K: StorableKind> Reader<'a, K> {
    /// A reader with no file: one point, no links, zero budget.
    pub fn new() -> Reader<'a, K>
        ensures { Unfilled K.PriceKind.operations K.StorableKind.forms result }
    {
        Reader {
            records: &[],
            points: 1,
            budget: K::zero(),
        }
    }

    /// The file's budget.
    pub fn budget(&self) -> K
        ensures { result ≡ self.now.budget }
    {
        self.budget
    }
}

// The link of a record. Bytes that stand for nothing, which no checked file has, read as a free mark and a zero price.
fn decode_record<K: StorableKind>(bytes: &[u8; RECORD]) -> Link<K>
    ensures { result ≡ link_at K.StorableKind.forms K.PriceKind.operations.zero bytes.now }
{
    let fields = Fields::of(bytes);
    Link {
        first: fields.first,
        second: fields.second,
        mark: Mark::try_from(fields.mark).unwrap_or(Mark::Free),
        price: K::price_of(fields.price).unwrap_or(K::zero()),
    }
}

impl<'a, K: StorableKind> LinkTable<K> for Reader<'a, K> {
    ghost meaning = { reader_table K.PriceKind.operations K.StorableKind.forms };

    fn points(&self) -> u16 {
        self.points
    }

    fn link_count(&self) -> usize {
        self.records.len()
    }

    fn link(&self, number: usize) -> Option<Link<K>> {
        self.records.get(number).map(|bytes| decode_record(bytes))
    }

    fn carried(&self) -> K {
        K::zero()
    }
}
