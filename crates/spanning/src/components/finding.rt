//! Finding and joining parts.
ghost use Rattle.std.specs.Prelude.{◌≡◌, ℕ, ◌<◌, min, max, Bool, false, not, ◌==◌, slice_index};
ghost use Rattle.spanning.specs.Joined.{Graph};
ghost use Rattle.spanning.specs.Sets.{with_link};
ghost use Rattle.spanning.specs.Roots.{root_of, under, Represents};

use super::{Components, POINTS};
use std::array;

impl Components {
    /// Each point by itself.
    pub fn new() -> Components
        ensures roots { (z : ℕ) → z < 1024 → root_of result.parents z ≡ z }
        ensures represents { (g : Graph) → Represents result.parents g (λ _. false) }
    {
        Components {
            parents: array::from_fn(|point| point as u16),
        }
    }

    /// The lowest point of the part of a point, and 0 past the points. Paths are halved on the way.
    pub fn find(&mut self, point: u16) -> u16
        ensures value { result ≡ root_of self.old.parents point }
        ensures same { (z : ℕ) → root_of self.new.parents z ≡ root_of self.old.parents z }
    {
        if point as usize >= POINTS {
            return 0;
        }
        let mut at = point;
        // A walk up the parents, whose length is not known.
        while self.parents[at as usize] != at {
            at = self.halve(at);
        }
        at
    }

    // Hangs a point from its parent's parent, and answers that.
    fn halve(&mut self, point: u16) -> u16
        requires { point < 1024 }
        ensures value { result ≡ slice_index self.old.parents (slice_index self.old.parents point) }
        ensures same { (z : ℕ) → root_of self.new.parents z ≡ root_of self.old.parents z }
    {
        let up = self.parents[self.parents[point as usize] as usize];
        self.parents[point as usize] = up;
        up
    }

    // Hangs a root from a lower root.
    fn hang(&mut self, high: u16, low: u16)
        requires lower { low < high }
        requires within { high < 1024 }
        requires low_root { slice_index self.old.parents low ≡ low }
        requires high_root { slice_index self.old.parents high ≡ high }
        ensures { (z : ℕ) → root_of self.new.parents z ≡ under self.old.parents low high z }
    {
        self.parents[high as usize] = low;
    }

    /// Joins the parts of two points, and tells whether they were two; a number past the points stands for point 0. If the parts were
    /// those that the links of a set join, they are now those that these links and one between the two points join.
    pub fn join(&mut self, first: u16, second: u16) -> bool
        ensures value { result ≡ not (root_of self.old.parents first == root_of self.old.parents second) }
        ensures after { (z : ℕ) → root_of self.new.parents z ≡ under self.old.parents (min (root_of self.old.parents first) (root_of self.old.parents second)) (max (root_of self.old.parents first) (root_of self.old.parents second)) z }
        ensures represents { (g : Graph) (S : ℕ → Bool) (e : ℕ) → g.first e ≡ first → g.second e ≡ second → first < 1024 → second < 1024 → Represents self.old.parents g S → Represents self.new.parents g (with_link S e) }
    {
        let a = self.find(first);
        let b = self.find(second);
        if a == b {
            return false;
        }
        self.hang(a.max(b), a.min(b));
        true
    }
}
