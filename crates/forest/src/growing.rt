//! The greedy tree, by one pass over the links in the order of their ranks.
ghost use Rattle.std.specs.Prelude.{◌≡◌, ℕ, Bool, length};
ghost use Rattle.spanning.specs.Roots.{Represents};
ghost use Rattle.spanning.specs.Sets.{held};
ghost use Rattle.forest.specs.Growing.{FreeInOrder, usable_of, ring_of, cut_of, tree_of, KeptTo};
ghost use Rattle.forest.specs.Readings.{count_of, links_of};

use super::networks::{LINKS, Network};
use spanning::components::Components;
use table::marks::Role;

/// A tree as it grows, link by link: the parts of points that the links so far join, the tree of them, one bit a link, and the
/// lowest-numbered kept link whose ends kept links of lower number join already.
#[derive(Drop)]
pub struct Grower {
    pub parts: Components,
    pub tree: [bool; LINKS],
    pub ring: Option<u16>,
}

/// What one pass finds: the tree, one bit a link; the lowest-numbered kept link whose ends kept links of lower number join already; and
/// the lowest point that links which are not barred do not join to point 0.
#[derive(Drop)]
pub struct Growth {
    pub tree: [bool; LINKS],
    pub ring: Option<u16>,
    pub cut: Option<u16>,
}

impl Grower {
    // Joins all kept links, where no link is joined yet.
    fn keep(&mut self, network: &Network)
        requires long { length self.old.tree ≡ 2048 }
        ensures long { length self.new.tree ≡ 2048 }
        ensures kept { KeptTo network.now 0 self.old → KeptTo network.now (count_of network.now) self.new }
    {
        for (number, link) in network.links().iter().enumerate() {
            if link.role == Role::Kept {
                self.tree[number] = true;
                if !self.parts.join(link.first, link.second) {
                    self.ring = self.ring.or(Some(number as u16));
                }
            }
        }
    }
}

/// Joins all kept links.
pub fn keep_all(network: &Network) -> Grower
    ensures { KeptTo network.now (count_of network.now) result }
{
    let mut grower = Grower {
        parts: Components::new(),
        tree: [false; LINKS],
        ring: None,
    };
    grower.keep(network);
    grower
}

// The lowest point whose part is not that of point 0.
fn first_apart(network: &Network, parts: &mut Components) -> Option<u16>
    ensures { Represents parts.old.parents (links_of network.now) (usable_of network.now) → result ≡ cut_of network.now }
{
    // A loop and not the range's `find`, whose proof is twice as long and says no more.
    for x in 0..network.points() {
        if parts.find(x) != 0 {
            return Some(x);
        }
    }
    None
}

/// The greedy tree of a network, its ring and its cut, by one pass over the free links in the order of their ranks. In whatever order
/// the links are ranked, if the list given has the free links in that order, then the bits are those of the greedy tree.
pub fn grow(network: &Network, order: &[u16]) -> Growth
    ensures ring { result.ring ≡ ring_of network.now }
    ensures tree { (before : ℕ → ℕ → Bool) → FreeInOrder network.now before order.now → (k : ℕ) → held result.tree k ≡ tree_of network.now before k }
    ensures cut { (before : ℕ → ℕ → Bool) → FreeInOrder network.now before order.now → result.cut ≡ cut_of network.now }
{
    // A grower is large: this one is filled where it stands.
    let mut grower = Grower {
        parts: Components::new(),
        tree: [false; LINKS],
        ring: None,
    };
    grower.keep(network);
    for link in order {
        let ends = network.link(*link);
        if grower.parts.join(ends.first, ends.second) {
            grower.tree[*link as usize] = true;
        }
    }
    let cut = first_apart(network, &mut grower.parts);
    let Grower { tree, ring, .. } = grower;
    Growth { tree, ring, cut }
}
