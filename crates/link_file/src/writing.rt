//! The writer of link files.
ghost use Rattle.std.specs.Prelude.{◌≡◌, ◌+◌, ◌*◌, ◌^◌, ◌<◌, ◌≤◌, T, ◌++◌, length, take, drop, IfOk};
ghost use Rattle.std.specs.List.{flat_map};
ghost use Rattle.table.specs.Buffers.{written_length, written_to};
ghost use Rattle.table.specs.Table.{Lawful};
ghost use Rattle.link_file.specs.Format.{record_length, record_bytes, header_bytes, file_bytes};
ghost use Rattle.link_file.specs.Reading.{Stored};

use super::check::{HEADER, RECORD};
use price::StorableKind;
use table::LinkTable;
use table::links::Link;
use table::refusals::PlanFault;

// The bytes before the first record.
fn header_bytes<K: StorableKind>(links: usize, points: u16, budget: K) -> [u8; HEADER]
    requires { 7 + record_length * links < 2 ^ 64 }
    ensures { result ≡ header_bytes K.StorableKind.forms links points budget }
{
    // The low 32 bits of the length are written.
    let [.., a, b, c, d] = (7 + RECORD * links).to_be_bytes();
    let [e, f] = points.to_be_bytes();
    let [g, h, i, j] = budget.budget_form();
    [1, a, b, c, d, K::code(), e, f, g, h, i, j]
}

// The bytes of a link's record.
fn record_bytes<K: StorableKind>(link: Link<K>) -> [u8; RECORD]
    ensures { result ≡ record_bytes K.StorableKind.forms link }
{
    let [a, b] = link.first.to_be_bytes();
    let [c, d] = link.second.to_be_bytes();
    let [e, f, g, h] = link.price.price_form();
    [9, a, b, c, d, u8::from(link.mark), e, f, g, h]
}

// Writes the records to the front.
// By number, since the chunks that `as_chunks_mut` lends do not say what the buffer holds at the end.
fn put_records<K: StorableKind, L: LinkTable<K>>(table: &L, out: &mut [u8])
    requires { record_length * length (L.LinkTable.meaning table.now).links ≤ length out.old }
    ensures { out.new ≡ flat_map (record_bytes K.StorableKind.forms) (L.LinkTable.meaning table.now).links ++ drop (record_length * length (L.LinkTable.meaning table.now).links) out.old }
{
    // A table is asked by number: it lends no list to walk.
    for number in 0..table.link_count() {
        if let Some(link) = table.link(number) {
            let at = RECORD * number;
            out[at..at + RECORD].copy_from_slice(&record_bytes(link));
        }
    }
}

/// Writes a link file to the front of the buffer, and answers its length. The buffer is left as it was where it is too short.
pub fn write<K: StorableKind, L: LinkTable<K>>(
    table: &L,
    budget: K,
    out: &mut [u8],
) -> Result<usize, PlanFault>
    ensures result { result ≡ written_length (file_bytes K.StorableKind.forms (L.LinkTable.meaning table.now) budget) out.old }
    ensures buffer { out.new ≡ written_to (file_bytes K.StorableKind.forms (L.LinkTable.meaning table.now) budget) out.old }
    ensures stored { IfOk result (λ n. Lawful K.PriceKind.operations (L.LinkTable.meaning table.now) → T (K.PriceKind.operations.budget budget) → Stored K.PriceKind.operations K.StorableKind.forms (L.LinkTable.meaning table.now) budget (take n out.new)) }
{
    let count = table.link_count();
    let Some((header, records)) = out.split_first_chunk_mut::<HEADER>() else {
        return Err(PlanFault::ShortBuffer);
    };
    if count > records.len() / RECORD {
        return Err(PlanFault::ShortBuffer);
    }
    *header = header_bytes(count, table.points(), budget);
    put_records(table, records);
    Ok(HEADER + RECORD * count)
}
