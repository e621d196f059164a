//! Links in groups, by the link that their swap takes out.
ghost use Rattle.std.specs.Prelude.{◌≡◌, ◌<◌, length};
ghost use Rattle.groups.specs.Groups.{those_below};
ghost use Rattle.ranking.specs.Totals.{goes, swap_of};

use super::super::ordering::LINKS;
use super::Swap;
use groups::{Group, Groups};
use std::marker::Model;

/// The swap of each link, and the links in groups by the link that their swap takes out.
#[derive(Drop)]
pub struct GroupedSwaps<'a> {
    swaps: &'a [Option<Swap>; LINKS],
    groups: Groups<LINKS, LINKS>,
}

// Clauses see the swap of each link.
impl<'a> Model for GroupedSwaps<'a> {
    ghost use Rattle.std.specs.Prelude.{◌≡◌, List, Option as Maybe, length};
    ghost use Rattle.groups.specs.Groups.{GroupedTo};
    ghost use Rattle.ranking.specs.declared.totals.Swap.{Swap as Exchange};
    ghost use Rattle.ranking.specs.Totals.{goes};

    ghost Value = { List (Maybe Exchange) };

    ghost view = { λ g. g.swaps.now };

    ghost invariant = { λ g. (length g.swaps.now ≡ 2048) × GroupedTo 2048 (goes g.swaps.now) 2048 g.groups };
}

impl<'a> GroupedSwaps<'a> {
    /// All links in their groups.
    pub fn new(swaps: &'a [Option<Swap>; LINKS]) -> Self
        ensures { result ≡ swaps.now }
    {
        let mut groups = Groups::new();
        for (number, swap) in swaps.iter().enumerate() {
            if let Some(swap) = swap {
                groups.put(swap.gone as usize, number as u16);
            }
        }
        GroupedSwaps { swaps, groups }
    }

    /// The swap of a link, if it has one.
    pub fn swap(&self, number: usize) -> Option<Swap>
        ensures { result ≡ swap_of self.now number }
    {
        let swaps = self.swaps;
        *swaps.get(number)?
    }

    /// The links whose swap takes out this link, from the last to the first.
    pub fn of(&self, gone: usize) -> Group<'_>
        requires { gone < 2048 }
        ensures all { result ≡ those_below (goes self.now gone) 2048 }
        ensures links { length self.now ≡ 2048 }
    {
        self.groups.of(gone)
    }
}
