//! Items in groups: each item is put under a key, in rising order, and the items of a key are walked from the last to the first.
#![tactic(auto)]

ghost use Rattle.std.specs.Prelude.{◌≡◌};
ghost use Rattle.groups.specs.Groups.{no_items, put_under, group};

use std::marker::Model;

mod walking;

pub use walking::Group;

/// Items under keys: for each key the last item put under it, for each item the one put before it under the same key, and the least
/// item that may come next.
// The items of a key are a chain through one fixed array: there is no heap, and any key may get all items.
#[derive(Drop)]
pub struct Groups<const KEYS: usize, const ITEMS: usize> {
    heads: [Option<u16>; KEYS],
    nexts: [Option<u16>; ITEMS],
    least: usize,
}

// Clauses see the items of each key, from the last to the first.
impl<const KEYS: usize, const ITEMS: usize> Model for Groups<KEYS, ITEMS> {
    ghost use Rattle.std.specs.Prelude.{map};
    ghost use Rattle.groups.specs.Groups.{Grouping};
    ghost use Rattle.groups.specs.Chains.{items_from, Chained};

    ghost Value = { Grouping };

    ghost view = { λ g. record { lists = map (items_from g.nexts) g.heads; least = g.least } };

    ghost invariant = { λ g. Chained ITEMS g.least g.heads g.nexts };
}

impl<const KEYS: usize, const ITEMS: usize> Groups<KEYS, ITEMS> {
    /// No item under any key.
    pub fn new() -> Self
        ensures { result ≡ no_items KEYS }
    {
        Groups {
            heads: [None; KEYS],
            nexts: [None; ITEMS],
            least: 0,
        }
    }

    /// Puts an item under a key. Where there is no such key or no such item, or it is not above all items so far, nothing happens.
    pub fn put(&mut self, key: usize, item: u16)
        ensures { self.new ≡ put_under KEYS ITEMS self.old key item }
    {
        let place = item as usize;
        if key < KEYS && place < ITEMS && self.least <= place {
            self.nexts[place] = self.heads[key];
            self.heads[key] = Some(item);
            self.least = place + 1;
        }
    }

    /// The items of a key, from the last to the first; none where there is no such key.
    pub fn of(&self, key: usize) -> Group<'_>
        ensures { result ≡ group self.now key }
    {
        Group {
            nexts: &self.nexts,
            at: self.heads.get(key).copied().flatten(),
        }
    }
}
