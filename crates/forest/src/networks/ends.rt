//! The links of a network: their counts, ends and roles.
ghost use Rattle.std.specs.Prelude.{◌≡◌};
ghost use Rattle.forest.specs.Growing.{free_of};
ghost use Rattle.forest.specs.Networks.{link_at};
ghost use Rattle.forest.specs.Readings.{count_of, links_of};

use super::Network;
use table::marks::Role;

/// The ends and the role of a link. By default it is barred, and joins point 0 to itself.
#[derive(Clone, Copy, PartialEq, Eq, Debug, Default)]
pub struct Ends {
    pub first: u16,
    pub second: u16,
    pub role: Role,
}

impl Network {
    /// How many points there are.
    pub fn points(&self) -> u16
        ensures { result ≡ self.now.points }
    {
        self.points
    }

    /// How many links there are.
    pub fn count(&self) -> usize
        ensures { result ≡ count_of self.now }
    {
        self.links.len()
    }

    /// The links, in the order of their numbers.
    pub fn links(&self) -> &[Ends]
        ensures { result.now ≡ self.now.links.items }
    {
        self.links.as_slice()
    }

    /// The ends and the role of a link; past the links it is barred, and joins point 0 to itself.
    pub fn link(&self, number: u16) -> Ends
        ensures { result ≡ link_at self.now.links.items number }
    {
        self.links.get(number as usize).copied().unwrap_or_default()
    }

    /// The first end of a link, and point 0 past the links.
    pub fn first(&self, link: u16) -> u16
        ensures { result ≡ (links_of self.now).first link }
    {
        self.link(link).first
    }

    /// The second end of a link, and point 0 past the links.
    pub fn second(&self, link: u16) -> u16
        ensures { result ≡ (links_of self.now).second link }
    {
        self.link(link).second
    }

    /// The role of a link, barred past the links.
    pub fn role(&self, link: u16) -> Role
        ensures { result ≡ (link_at self.now.links.items link).role }
    {
        self.link(link).role
    }

    /// Whether a link is free; past the links none is.
    pub fn is_free(&self, link: u16) -> bool
        ensures { result ≡ free_of self.now link }
    {
        self.role(link) == Role::Free
    }
}
