//! Joining points, and finding the join that two points needed.
ghost use Rattle.std.specs.Prelude.{◌≡◌, ℕ, ◌+◌, ◌<◌, ◌≤◌, false, T, ◌⊎◌, [], ◌∷◌, ◌++◌, MatchOption, ◌≢◌, slice_index, slice_set};
ghost use Rattle.forest.specs.Merges.{among, hang_of, joins_of, join_count, root_after, NoLater, Remembers, LastJoin, LastJoinTells};
ghost use Rattle.spanning.specs.Joined.{Graph, Joined};

use super::{Hang, Merges, Node};
use crate::networks::POINTS;
use arrayvec::ArrayVec;

impl Merges {
    /// No joins: each point by itself.
    pub fn new() -> Merges
        ensures none { joins_of result ≡ [] }
        ensures remembers { (g : Graph) → Remembers result g }
    {
        Merges {
            nodes: [Node {
                hang: None,
                size: 0,
            }; POINTS],
            links: ArrayVec::new(),
        }
    }

    // Where a point hangs, if a join hung it.
    fn hang_of(&self, point: u16) -> Option<Hang>
        requires { point < 1024 }
        ensures { result ≡ hang_of self.now point }
    {
        self.nodes[point as usize].hang
    }

    // The root above a point.
    fn root(&self, point: u16) -> u16
        requires { point < 1024 }
        ensures value { result ≡ root_after (hang_of self.now) (join_count self.now) point }
        ensures within { result < 1024 }
        ensures root { hang_of self.now result ≡ None }
    {
        // A walk up the parents: each step starts where the one before ended, so there is no list to go over.
        let mut at = point;
        while let Some(hang) = self.hang_of(at) {
            at = hang.parent;
        }
        at
    }

    // Hangs a root from another, as the next join.
    fn hang(&mut self, low: u16, high: u16, link: u16)
        requires low_point { low < 1024 }
        requires low_root { hang_of self.old low ≡ None }
        requires high_point { high < 1024 }
        requires high_root { hang_of self.old high ≡ None }
        requires apart { low ≢ high }
        ensures hung { hang_of self.new low ≡ Some (record { parent = high; join = join_count self.old }) }
        ensures others { (x : ℕ) → x ≢ low → hang_of self.new x ≡ hang_of self.old x }
        ensures joins { joins_of self.new ≡ joins_of self.old ++ link ∷ [] }
    {
        let size = self.nodes[low as usize].size;
        let above = &mut self.nodes[high as usize];
        above.size = above.size.saturating_add(size).saturating_add(1);
        self.nodes[low as usize].hang = Some(Hang {
            parent: high,
            join: self.links.len() as u16,
        });
        self.links.push(link);
    }

    /// Joins two points by a link: the root of the smaller part is hung from the other's. False, and nothing changes, if they were
    /// joined already or one of them is past the last point. There is always room: each join leaves one root fewer.
    pub fn join(&mut self, first: u16, second: u16, link: u16) -> bool
        ensures within { T result → (first < 1024) × (second < 1024) }
        ensures joins { T result → joins_of self.new ≡ joins_of self.old ++ link ∷ [] }
        ensures same { result ≡ false → self.new ≡ self.old }
        ensures fresh { (g : Graph) → Remembers self.old g → T result → Joined g (among (joins_of self.old)) first second → ⊥ }
        ensures stale { (g : Graph) → Remembers self.old g → first < 1024 → second < 1024 → result ≡ false → Joined g (among (joins_of self.old)) first second }
        ensures remembers { (g : Graph) → Remembers self.old g → g.first link ≡ first → g.second link ≡ second → Remembers self.new g }
    {
        if first as usize >= POINTS || second as usize >= POINTS {
            return false;
        }
        let a = self.root(first);
        let b = self.root(second);
        if a == b {
            return false;
        }
        if self.nodes[a as usize].size < self.nodes[b as usize].size {
            self.hang(a, b, link);
        } else {
            self.hang(b, a, link);
        }
        true
    }

    // Of two points, where the one hangs that was hung first, and the other point; a root comes last.
    fn first_hung(&self, a: u16, b: u16) -> (Option<Hang>, u16)
        requires a { a < 1024 }
        requires b { b < 1024 }
        ensures both { ((result.0 ≡ hang_of self.now a) × (result.1 ≡ b)) ⊎ ((result.0 ≡ hang_of self.now b) × (result.1 ≡ a)) }
        ensures order { NoLater result.0 (hang_of self.now result.1) }
        ensures within { result.1 < 1024 }
    {
        let first = self.hang_of(a);
        let second = self.hang_of(b);
        match (first, second) {
            (Some(hang), Some(other)) => {
                if hang.join <= other.join {
                    (first, b)
                } else {
                    (second, a)
                }
            }
            (Some(_), None) => (first, b),
            (None, _) => (second, a),
        }
    }

    /// The link of the last join that was needed to join two points. None for one point, and for points that are not joined.
    pub fn last_between(&self, first: u16, second: u16) -> Option<u16>
        ensures { (g : Graph) → Remembers self.now g → MatchOption result ((first ≡ second) ⊎ (Joined g (among (joins_of self.now)) first second → ⊥)) (λ l. LastJoin g (joins_of self.now) first second l) }
    {
        if first as usize >= POINTS || second as usize >= POINTS {
            return None;
        }
        let mut a = first;
        let mut b = second;
        let mut last = None;
        // The two points climb in turn, whichever was hung first, so there is no list to go over.
        while a != b {
            let (found, other) = self.first_hung(a, b);
            let hang = found?;
            last = Some(hang.join);
            a = hang.parent;
            b = other;
        }
        Some(self.links[last? as usize])
    }
}

/// The last join that the ends of a link needed is the last of the joined links on the path between them.
pub fn last_join_tells()
    ensures { LastJoinTells }
{}
