//! The links of a tree, listed by either end.
ghost use Rattle.std.specs.Prelude.{◌≡◌, length};
ghost use Rattle.groups.specs.Groups.{GroupedTo};
ghost use Rattle.std.proofs.Props.{props};
ghost use Rattle.spanning.specs.Sets.{held};
ghost use Rattle.forest.specs.Readings.{links_of};
ghost use Rattle.forest.specs.LinkEnds.{with_end};
ghost use Rattle.forest.specs.declared.rooted.links_by_end.ends.End.TheVariants as ends;

use super::super::networks::{LINKS, Network, POINTS};
use groups::Groups;

pub mod ends;
mod listing;

/// The links of a tree by their first ends, and by their second.
#[derive(Drop)]
pub struct LinksByEnd<'a> {
    pub network: &'a Network,
    pub tree: &'a [bool; LINKS],
    firsts: Groups<POINTS, LINKS>,
    seconds: Groups<POINTS, LINKS>,
    ghost long: { length tree.now ≡ 2048 },
    ghost by_first: { GroupedTo 1024 (with_end (links_of network.now) (held tree.now) ends.First) 2048 firsts } by { Prim.hlevel props },
    ghost by_second: { GroupedTo 1024 (with_end (links_of network.now) (held tree.now) ends.Second) 2048 seconds } by { Prim.hlevel props },
}
