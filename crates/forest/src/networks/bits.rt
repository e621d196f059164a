//! Trees as one bit a link.
ghost use Rattle.std.specs.Prelude.{◌≡◌};
ghost use Rattle.spanning.specs.Sets.{held};

use super::{LINKS, Tree};

/// Whether a link is in the tree.
pub fn holds(tree: &[bool; LINKS], link: u16) -> bool
    ensures { result ≡ held tree.now link }
{
    tree.get(link as usize).is_some_and(|bit| *bit)
}

impl Tree<'_> {
    /// Whether a link is in the tree.
    pub fn holds(&self, link: u16) -> bool
        ensures { result ≡ held self.now.bits.now link }
    {
        holds(self.bits, link)
    }
}
