//! Telling the last-ranked free link on a path.
ghost use Rattle.std.specs.Prelude.{◌≡◌, ℕ, ◌<◌, Bool, None, slice_index_or};
ghost use Rattle.spanning.specs.Joined.{NoRing};
ghost use Rattle.spanning.specs.Sets.{held};
ghost use Rattle.forest.specs.Growing.{free_of, FreeInOrder};
ghost use Rattle.forest.specs.Paths.{LastFree, LastLink, PathsOf, ToldRightly};
ghost use Rattle.forest.specs.Readings.{links_of};

use super::Paths;
use crate::networks::{LINKS, Network, Tree};

impl Paths {
    /// The last-ranked free link on the path between two points. If the last link that they needed is not free, no link on their path
    /// is, for the kept links were joined first.
    pub fn last_free(&self, network: &Network, first: u16, second: u16) -> Option<u16>
        ensures { (X : ℕ → Bool) (before : ℕ → ℕ → Bool) → PathsOf network.now X before self.now → LastFree (links_of network.now) (free_of network.now) before X first second result }
    {
        self.merges
            .last_between(first, second)
            .filter(|link| network.is_free(*link))
    }

    // The last-ranked free link on the path between the ends of a link, if that is free and outside the tree.
    fn last_link(&self, tree: &Tree, link: u16) -> Option<u16>
        ensures { ToldRightly tree.now self.now link result }
    {
        let network = tree.network;
        if tree.holds(link) || !network.is_free(link) {
            return None;
        }
        self.last_free(network, network.first(link), network.second(link))
    }
}

/// For each free link outside a tree the last-ranked free link on the tree's path between its ends, if any; for any other link none.
/// In whatever order the links are ranked, the list given has to have the free links in that order, and the tree to have no ring.
pub fn last_links(tree: &Tree, order: &[u16]) -> [Option<u16>; LINKS]
    ensures { let n = tree.now.network.now in let X = held tree.now.bits.now in (before : ℕ → ℕ → Bool) → FreeInOrder n before order.now → NoRing (links_of n) X → (k : ℕ) → LastLink n X before k (slice_index_or result k None) }
{
    let paths = Paths::of(tree, order);
    let mut told = [None; LINKS];
    for (link, last) in told[..tree.network.count()].iter_mut().enumerate() {
        *last = paths.last_link(tree, link as u16);
    }
    told
}
