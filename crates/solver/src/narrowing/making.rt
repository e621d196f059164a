//! Making a narrowing.
ghost use Rattle.table.specs.Table.{Lawful};
ghost use Rattle.solver.specs.Narrowing.{NarrowingMade};

use super::Narrowing;
use super::parts::Parts;
use forest::growing::keep_all;
use forest::networks::Network;
use price::PriceKind;
use ranking::totals::tree_total;
use table::LinkTable;
use table::refusals::PlanFault;

impl<'a, K: PriceKind, L: LinkTable<K>> Narrowing<'a, K, L> {
    /// The narrowing of a table: the parts that kept links join taken as points, the free links between different parts, and the kept
    /// prices carried. Refused with 61 where kept links close a ring. A table that is not lawful is read as far as it goes.
    pub fn of(table: &'a L) -> Result<Narrowing<'a, K, L>, PlanFault>
        ensures { Lawful K.PriceKind.operations (L.LinkTable.meaning table.now) → NarrowingMade K.PriceKind.operations L.LinkTable.meaning table.now result }
    {
        let network = Network::of(table);
        let mut kept = keep_all(&network);
        if kept.ring.is_some() {
            return Err(PlanFault::Ring);
        }
        let parts = Parts::of(&mut kept.parts, network.points());
        let numbers = parts.collect(&network);
        Ok(Narrowing {
            table,
            parts,
            numbers,
            carried: tree_total(table, &kept.tree),
        })
    }
}
