//! The two ends of a link.
ghost use Rattle.std.specs.Prelude.{◌≡◌};
ghost use Rattle.forest.specs.Readings.{links_of};
ghost use Rattle.forest.specs.LinkEnds.{end_of, other};

use super::super::super::networks::Network;

/// One of the two ends of a link.
#[derive(Clone, Copy, Debug, PartialEq, Eq)]
pub enum End {
    First,
    Second,
}

impl End {
    /// The other of the two.
    pub fn other(self) -> End
        ensures { result ≡ other self }
    {
        match self {
            End::First => End::Second,
            End::Second => End::First,
        }
    }

    /// The point at this end of a link.
    pub fn point(self, network: &Network, link: u16) -> u16
        ensures { result ≡ end_of (links_of network.now) self link }
    {
        match self {
            End::First => network.first(link),
            End::Second => network.second(link),
        }
    }
}
