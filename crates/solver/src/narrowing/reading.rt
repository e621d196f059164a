//! A narrowing read as a link table.
ghost use Rattle.std.specs.Prelude.{◌≡◌};
ghost use Rattle.std.specs.List.{slice_get};
ghost use Rattle.solver.specs.Narrowing.{relinked, narrowing_table};

use super::Narrowing;
use price::PriceKind;
use table::LinkTable;
use table::links::Link;
use table::marks::Mark;

impl<'a, K: PriceKind, L: LinkTable<K>> Narrowing<'a, K, L> {
    /// The number below of a link, and none past the links.
    pub fn number_below(&self, link: usize) -> Option<u16>
        ensures { result ≡ slice_get self.now.numbers.items link }
    {
        self.numbers.get(link).copied()
    }

    // A link below, as a free link between parts. A number without a link reads as one of price zero from the part of point 0 to itself.
    fn relink(&self, number: u16) -> Link<K>
        ensures { result ≡ relinked K.PriceKind.operations self.now.parts.numbers.items (L.LinkTable.meaning self.now.table.now) number }
    {
        let (first, second, price) = match self.table.link(number as usize) {
            Some(link) => (link.first, link.second, link.price),
            // A lawful table is never asked for a number without a link; of any other this is what the link reads as.
            None => (0, 0, K::zero()),
        };
        Link {
            first: self.parts.part_of(first),
            second: self.parts.part_of(second),
            mark: Mark::Free,
            price,
        }
    }
}

impl<'a, K: PriceKind, L: LinkTable<K>> LinkTable<K> for Narrowing<'a, K, L> {
    ghost meaning = { narrowing_table K.PriceKind.operations L.LinkTable.meaning };

    fn points(&self) -> u16 {
        self.parts.count()
    }

    fn link_count(&self) -> usize {
        self.numbers.len()
    }

    fn link(&self, number: usize) -> Option<Link<K>> {
        Some(self.relink(self.number_below(number)?))
    }

    fn carried(&self) -> K {
        self.carried
    }
}
