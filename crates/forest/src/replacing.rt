//! For each link of a tree, the first-ranked link that takes its place.
ghost use Rattle.std.specs.Prelude.{◌≡◌, ℕ, ◌+◌, ◌<◌, Bool, T, List, length, Some, None, slice_index, slice_index_or, slice_set};
ghost use Rattle.spanning.specs.Roots.{root_of, under};
ghost use Rattle.forest.specs.Readings.{links_of};
ghost use Rattle.spanning.specs.Sets.{held};
ghost use Rattle.forest.specs.Rooted.{count_of, parent_at, link_above, Replaced};
ghost use Rattle.forest.specs.Trees.{SpansWithoutRing};

use super::networks::{LINKS, Network, Tree};
use super::rooted::Rooted;
use spanning::components::Components;

// The places of a tree in parts that covered links join, and for each covered link the first link that covers it.
#[derive(Drop)]
struct Cover<'a> {
    network: &'a Network,
    rooted: Rooted,
    parts: Components,
    covers: [Option<u16>; LINKS],
    ghost long: { length covers ≡ 2048 },
}

impl<'a> Cover<'a> {
    ghost use Rattle.forest.specs.Covers.{CoveredTo};

    // Covers the link above a place that is the lowest of its part, and answers the lowest of the part that it is joined to.
    fn climb(&mut self, place: u16, link: u16) -> u16
        requires not_root { 0 < place }
        requires within { place < count_of self.old.rooted }
        requires lowest { root_of self.old.parts.parents place ≡ place }
        ensures network { self.new.network ≡ self.old.network }
        ensures rooted { self.new.rooted ≡ self.old.rooted }
        ensures value { result ≡ root_of self.old.parts.parents (parent_at self.old.rooted place) }
        ensures lower { result < place }
        ensures after { (z : ℕ) → root_of self.new.parts.parents z ≡ under self.old.parts.parents result place z }
        ensures told { self.new.covers ≡ slice_set self.old.covers (link_above self.old.rooted place) (Some link) }
    {
        let above = self.rooted.above(place).unwrap();
        self.covers[above.link as usize] = Some(link);
        self.parts.join(place, above.parent);
        self.parts.find(place)
    }

    // Covers the links of the tree's path between the ends of a link, but those that are covered already.
    fn cover(&mut self, link: u16)
        ensures network { self.new.network ≡ self.old.network }
        ensures rooted { self.new.rooted ≡ self.old.rooted }
        ensures covered { (X : ℕ → Bool) (ranked : List ℕ) (i : ℕ) → i < length ranked → slice_index ranked i ≡ link → (T (X link) → ⊥) → CoveredTo X ranked i self.old → CoveredTo X ranked (i + 1) self.new }
    {
        // In a tree that joins all points each has a place.
        let Some(first) = self.rooted.place(self.network.first(link)) else {
            return;
        };
        let Some(second) = self.rooted.place(self.network.second(link)) else {
            return;
        };
        let mut x = self.parts.find(first);
        let mut y = self.parts.find(second);
        // Two places climb in turn, and each climb joins parts that the next one reads: no iterator takes these steps.
        while x != y {
            if y < x {
                x = self.climb(x, link);
            } else {
                y = self.climb(y, link);
            }
        }
    }
}

/// For each link of the tree the first link in the order that is outside the tree and rejoins the halves which the tree without the
/// link leaves, if any. The tree has to join all points and to have no ring; for a link outside the tree there is none.
pub fn replacements(tree: &Tree, order: &[u16]) -> [Option<u16>; LINKS]
    ensures first { let n = tree.now.network.now in let X = held tree.now.bits.now in SpansWithoutRing n X → (e : ℕ) → T (X e) → Replaced (links_of n) X order.now e (slice_index_or result e None) }
    ensures outside { let X = held tree.now.bits.now in SpansWithoutRing tree.now.network.now X → (e : ℕ) → (T (X e) → ⊥) → slice_index_or result e None ≡ None }
{
    let mut cover = Cover {
        network: tree.network,
        rooted: Rooted::new(tree.network, tree.bits),
        parts: Components::new(),
        covers: [None; LINKS],
    };
    for link in order {
        if !tree.holds(*link) {
            cover.cover(*link);
        }
    }
    cover.covers
}
