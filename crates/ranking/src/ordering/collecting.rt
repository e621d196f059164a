//! The free links in the order of their numbers.
ghost use Rattle.std.specs.Prelude.{◌≡◌};
ghost use Rattle.ranking.specs.Orders.{free_numbers};

use super::LINKS;
use super::ranking::is_free;
use arrayvec::ArrayVec;
use price::PriceKind;
use table::LinkTable;

// The numbers of the free links. Links past the first 2,048 are passed over.
// The table is asked by number; a narrowing's links are collected by going over a slice, so the two loops stay apart.
pub(super) fn collect<K: PriceKind, L: LinkTable<K>>(table: &L) -> ArrayVec<u16, LINKS>
    ensures { result.items ≡ free_numbers (L.LinkTable.meaning table.now) }
{
    let mut numbers = ArrayVec::new();
    // A table is asked by number: it lends no list to walk.
    for number in 0..table.link_count().min(LINKS) {
        if is_free(table, number) {
            numbers.push(number as u16);
        }
    }
    numbers
}
