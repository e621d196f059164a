//! The free links between different parts.
ghost use Rattle.std.specs.Prelude.{◌≡◌};
ghost use Rattle.table.specs.Narrowed.{numbers_of};
ghost use Rattle.forest.specs.Readings.{count_of};
ghost use Rattle.solver.specs.Narrowing.{are_apart, apart_in};

use super::parts::Parts;
use arrayvec::ArrayVec;
use forest::networks::ends::Ends;
use forest::networks::{LINKS, Network};
use table::marks::Role;

impl Parts {
    // Whether a link is free and between different parts.
    fn are_apart(&self, link: Ends) -> bool
        ensures { result ≡ are_apart self.now.numbers.items link }
    {
        link.role == Role::Free && self.part_of(link.first) != self.part_of(link.second)
    }

    // The numbers of the free links between different parts.
    // An order's links are collected by asking a table by number, these by going over a slice: each is plainer than a shared loop.
    pub(super) fn collect(&self, network: &Network) -> ArrayVec<u16, LINKS>
        ensures { result.items ≡ numbers_of (count_of network.now) (apart_in network.now self.now.numbers.items) }
    {
        let mut numbers = ArrayVec::new();
        for (number, link) in network.links().iter().enumerate() {
            if self.are_apart(*link) {
                numbers.push(number as u16);
            }
        }
        numbers
    }
}
