//! Listing a tree's links by their ends.
ghost use Rattle.std.specs.Prelude.{◌≡◌, ◌↔◌, ℕ, T, Contains};
ghost use Rattle.spanning.specs.Sets.{held};
ghost use Rattle.forest.specs.Readings.{links_of};
ghost use Rattle.forest.specs.LinkEnds.{with_end};

use super::super::super::networks::{LINKS, Network};
use super::LinksByEnd;
use super::ends::End;
use groups::{Group, Groups};

impl<'a> LinksByEnd<'a> {
    /// The links of a tree, listed by either end.
    pub fn new(network: &'a Network, tree: &'a [bool; LINKS]) -> LinksByEnd<'a>
        ensures network { result.network ≡ network.entry }
        ensures tree { result.tree ≡ tree.entry }
    {
        let mut firsts = Groups::new();
        let mut seconds = Groups::new();
        for (link, held) in tree.iter().enumerate() {
            if *held {
                let link = link as u16;
                firsts.put(network.first(link) as usize, link);
                seconds.put(network.second(link) as usize, link);
            }
        }
        LinksByEnd {
            network,
            tree,
            firsts,
            seconds,
        }
    }

    /// The links of the tree that have a point at this end.
    pub fn at(&self, end: End, point: u16) -> Group<'_>
        ensures { (e : ℕ) → Contains result e ↔ T (with_end (links_of self.now.network.now) (held self.now.tree.now) end point e) }
    {
        match end {
            End::First => self.firsts.of(point as usize),
            End::Second => self.seconds.of(point as usize),
        }
    }
}
