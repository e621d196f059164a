//! The items of one key.
ghost use Rattle.std.specs.Iterator.{YieldsFirst, item_count};

use std::marker::Model;

/// The items of a key that are left, from the last to the first.
#[derive(Drop)]
pub struct Group<'a> {
    pub(crate) nexts: &'a [Option<u16>],
    pub(crate) at: Option<u16>,
}

// Clauses see the list of the items that are left.
impl<'a> Model for Group<'a> {
    ghost use Rattle.std.specs.Prelude.{List, ℕ, length};
    ghost use Rattle.groups.specs.Chains.{items_from, Below, Falling};

    ghost Value = { List ℕ };

    ghost view = { λ g. items_from g.nexts.now g.at };

    ghost invariant = { λ g. Falling g.nexts.now × Below (length g.nexts.now) g.at };
}

impl<'a> Iterator for Group<'a> {
    type Item = u16;

    ghost next_gives = { YieldsFirst (λ items. items) };

    ghost remaining = { item_count (λ items. items) };

    fn next(&mut self) -> Option<u16> {
        let item = self.at?;
        self.at = self.nexts[item as usize];
        Some(item)
    }
}
