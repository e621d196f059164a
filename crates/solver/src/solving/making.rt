//! Solving a table.
ghost use Rattle.table.specs.Table.{Lawful};
ghost use Rattle.solver.specs.Solved.{Solves};

use super::Solution;
use forest::growing::grow;
use forest::networks::Network;
use price::PriceKind;
use ranking::ordering::Order;
use table::LinkTable;

impl Solution {
    /// Orders the links of a table, and grows its tree.
    pub fn of<K: PriceKind, L: LinkTable<K>>(table: &L) -> Solution
        ensures { Lawful K.PriceKind.operations (L.LinkTable.meaning table.now) → Solves K.PriceKind.operations (L.LinkTable.meaning table.now) result }
    {
        let order = Order::of(table);
        let network = Network::of(table);
        let growth = grow(&network, order.as_slice());
        Solution {
            order,
            network,
            growth,
        }
    }
}
