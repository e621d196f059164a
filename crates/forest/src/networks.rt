//! The ends and roles of a table's links, on fixed memory.
ghost use Rattle.std.specs.Prelude.{ℕ, ◌<◌, ◌≤◌};
ghost use Rattle.arrayvec.specs.ArrayVec.{array_vec_len};
ghost use Rattle.forest.specs.Networks.{link_at};

use arrayvec::ArrayVec;
use ends::Ends;
pub use spanning::components::POINTS;
pub use table::MOST_LINKS as LINKS;

pub mod bits;
pub mod ends;
mod reading;
pub mod telling;

/// A graph with marks: for each link its two ends, which are below the point count, and its role. A number past the links reads as
/// a barred link from point 0 to itself.
// Clauses read the fields, and not a view of them: callers rest on the facts about them.
#[derive(Drop)]
pub struct Network {
    points: u16,
    links: ArrayVec<Ends, LINKS>,
    ghost some: { 1 ≤ points },
    ghost few: { points ≤ 1024 },
    ghost short: { array_vec_len links ≤ 2048 },
    ghost first_below: { ((k : ℕ) → (link_at links.items k).first < points) },
    ghost second_below: { ((k : ℕ) → (link_at links.items k).second < points) },
}

/// A tree of a network, as one bit for each link: whether it is in the tree.
#[derive(Clone, Copy, Drop)]
pub struct Tree<'a> {
    pub network: &'a Network,
    pub bits: &'a [bool; LINKS],
}
