//! Joining the links of a tree by rank.
ghost use Rattle.std.specs.Prelude.{◌≡◌, ℕ, Bool};
ghost use Rattle.spanning.specs.Joined.{NoRing};
ghost use Rattle.spanning.specs.Sets.{held, with_link};
ghost use Rattle.forest.specs.Growing.{FreeInOrder};
ghost use Rattle.forest.specs.Paths.{ComesNext, JoinedByRank, PathsOf, rest_of};
ghost use Rattle.forest.specs.Readings.{links_of};

use super::Paths;
use crate::merges::Merges;
use crate::networks::Tree;

impl Tree<'_> {
    // Joins a link of the tree, after other links of the tree of which no free one ranks after it.
    fn join(&self, link: u16, merges: &mut Merges)
        ensures { let n = self.now.network.now in let X = held self.now.bits.now in (before : ℕ → ℕ → Bool) (S : ℕ → Bool) → NoRing (links_of n) X → ComesNext n X before S link → JoinedByRank n before S merges.old → JoinedByRank n before (with_link S link) merges.new }
    {
        merges.join(self.network.first(link), self.network.second(link), link);
    }

    // The links of the tree that are not free, the kept ones, joined one after the other.
    fn join_kept(&self) -> Merges
        ensures { let n = self.now.network.now in let X = held self.now.bits.now in (before : ℕ → ℕ → Bool) → NoRing (links_of n) X → JoinedByRank n before (rest_of n X) result }
    {
        let mut merges = Merges::new();
        for (link, held) in self.bits[..self.network.count()].iter().enumerate() {
            if *held && !self.network.is_free(link as u16) {
                self.join(link as u16, &mut merges);
            }
        }
        merges
    }

    // Joins the free links of the tree, one after the other, in the order of their ranks.
    fn join_free(&self, order: &[u16], merges: &mut Merges)
        ensures { let n = self.now.network.now in let X = held self.now.bits.now in (before : ℕ → ℕ → Bool) → FreeInOrder n before order.now → NoRing (links_of n) X → JoinedByRank n before (rest_of n X) merges.old → JoinedByRank n before X merges.new }
    {
        for link in order {
            if self.holds(*link) {
                self.join(*link, merges);
            }
        }
    }
}

impl Paths {
    /// The paths of a tree. In whatever order the links are ranked, if the list given has the free links in that order and the tree has
    /// no ring, then its links have been joined by rank, the kept ones first.
    pub fn of(tree: &Tree, order: &[u16]) -> Paths
        ensures { let n = tree.now.network.now in let X = held tree.now.bits.now in (before : ℕ → ℕ → Bool) → FreeInOrder n before order.now → NoRing (links_of n) X → PathsOf n X before result }
    {
        let mut merges = tree.join_kept();
        tree.join_free(order, &mut merges);
        Paths { merges }
    }
}
