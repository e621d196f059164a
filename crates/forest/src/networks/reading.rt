//! Reading the links of a table.
ghost use Rattle.std.specs.Prelude.{◌≡◌, ◌+◌, ◌<◌, ◌≤◌, [], ◌∷◌, ◌++◌};
ghost use Rattle.table.specs.Table.{Lawful};
ghost use Rattle.forest.specs.Networks.{nowhere};
ghost use Rattle.forest.specs.Readings.{count_of, ends_in, Reads};

use super::ends::Ends;
use super::{LINKS, Network};
use arrayvec::ArrayVec;
use price::PriceKind;
use table::links::Link;
use table::marks::Role;
use table::{LinkTable, MOST_POINTS};

impl<K: PriceKind> From<Link<K>> for Ends {
    ghost from_gives = { λ link ends. ends ≡ ends_in link };

    fn from(link: Link<K>) -> Ends {
        Ends {
            first: link.first,
            second: link.second,
            role: Role::from(link.mark),
        }
    }
}

impl Network {
    /// The ends and roles of a table's links. A lawful table is read as it is. Of any other, the invariant holds: one point at least,
    /// 1,024 at most, 2,048 links at most, ends below the points.
    pub fn of<K: PriceKind, L: LinkTable<K>>(table: &L) -> Network
        ensures { Lawful K.PriceKind.operations (L.LinkTable.meaning table.now) → Reads (L.LinkTable.meaning table.now) result }
    {
        let mut network = Network::empty(table.points());
        // A table is asked by number: it lends no list to walk.
        for number in 0..table.link_count().min(LINKS) {
            if let Some(link) = table.link(number) {
                network.push(Ends::from(link));
            }
        }
        network
    }

    // No links on so many points, at least one and at most 1,024.
    fn empty(points: u16) -> Network
        ensures none { result.links.items ≡ [] }
        ensures points { 1 ≤ points → points ≤ 1024 → result.points ≡ points }
    {
        Network {
            points: points.clamp(1, MOST_POINTS),
            links: ArrayVec::new(),
        }
    }

    // One link more; barred, from point 0 to itself, if its ends are not below the points.
    fn push(&mut self, link: Ends)
        requires { count_of self.old < 2048 }
        ensures points { self.new.points ≡ self.old.points }
        ensures counted { count_of self.new ≡ count_of self.old + 1 }
        ensures added { link.first < self.old.points → link.second < self.old.points → self.new.links.items ≡ self.old.links.items ++ link ∷ [] }
        ensures skipped { (link.first < self.old.points → link.second < self.old.points → ⊥) → self.new.links.items ≡ self.old.links.items ++ nowhere ∷ [] }
    {
        let below = link.first < self.points && link.second < self.points;
        self.links.push(if below { link } else { Ends::default() });
    }
}
