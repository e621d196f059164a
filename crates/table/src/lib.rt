//! Link tables: points joined by priced and marked links. Their links, marks and refusals.
//! A function that answers nothing stands for a theorem: its clause is all that it is.
#![tactic(auto)]

ghost use Rattle.std.specs.Prelude.{◌≡◌, length};
ghost use Rattle.std.specs.List.{slice_get};
ghost use Rattle.table.specs.Table.{Table};
ghost use Rattle.table.specs.Laws.{RanksOrder, TablesTell, SupportsTell, FindingsTell, OneExchange};
ghost use Rattle.table.specs.Narrows.{NarrowingKeeps};

use links::Link;
use price::PriceKind;

pub mod links;
pub mod marks;
pub mod refusals;
pub mod verdicts;

/// The most points that a lawful table has.
pub const MOST_POINTS: u16 = 1_024;

/// The most links that a lawful table has.
pub const MOST_LINKS: usize = 2_048;

/// A link table: a point count, a list of links numbered from 0, and a carried total. It answers each part, always alike.
pub trait LinkTable<K> {
    /// What the table stands for.
    ghost meaning: { Self → Table K };

    /// How many points there are.
    fn points(&self) -> u16
        ensures { result ≡ (meaning self.now).points };

    /// How many links there are.
    fn link_count(&self) -> usize
        ensures { result ≡ length (meaning self.now).links };

    /// The link of this number, and none past the list.
    fn link(&self, number: usize) -> Option<Link<K>>
        ensures { result ≡ slice_get (meaning self.now).links number };

    /// The total that counts towards the cost of every tree.
    fn carried(&self) -> K
        ensures { result ≡ (meaning self.now).carried };
}

/// The ranks of a lawful table's free links are a strict total order, which never puts a dearer link first.
pub fn ranks_order<K: PriceKind>()
    ensures { RanksOrder K.operations }
{}

/// If kept links of a lawful table close no ring and links that are not barred join all points, there is exactly one tree shown, and
/// else no lawful tree. The verdict by computation is the one that is true, and the only one.
pub fn tables_tell<K: PriceKind>()
    ensures { TablesTell K.operations }
{}

/// Where lawful trees exist, the support by computation is the one defined, and tells the least lawful tree that holds a free link
/// outside the tree shown, and the least that lacks one in it.
pub fn supports_tell<K: PriceKind>()
    ensures { SupportsTell K.operations }
{}

/// Where the least cost of a lawful table is within the budget, the finding by computation is the one that is true, and the only one.
pub fn findings_tell<K: PriceKind>()
    ensures { FindingsTell K.operations }
{}

/// Where two lawful tables differ in one link, at most one link leaves the tree shown and at most one enters, both or neither, and the
/// changed link is then one of the two.
pub fn one_exchange<K: PriceKind>()
    ensures { OneExchange K.operations }
{}

/// The narrowing of a lawful table whose kept links close no ring is lawful, and its trees, costs, ranks, verdict, tree shown,
/// findings and supports are those below, link by link.
pub fn narrowing_keeps<K: PriceKind>()
    ensures { NarrowingKeeps K.operations }
{}
