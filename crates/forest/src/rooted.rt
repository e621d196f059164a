//! A tree of links rooted at point 0.
ghost use Rattle.std.specs.Prelude.{◌≡◌, ℕ, ◌-◌, ◌<◌, ◌≤◌, IsSome, length, Some, None, slice_index_or};
ghost use Rattle.std.proofs.Props.{props};
ghost use Rattle.forest.specs.Places.{Agree, above_in, parent_in, link_in};

use super::networks::POINTS;
use arrayvec::ArrayVec;

mod links_by_end;
mod reading;
mod walking;

/// What is above a place: the place of its parent, and the link between the two.
#[derive(Clone, Copy)]
pub struct Above {
    pub parent: u16,
    pub link: u16,
}

/// The place of a point: the point, and what is above it. Nothing is above the root.
#[derive(Clone, Copy, Default)]
struct Place {
    point: u16,
    above: Option<Above>,
}

// Places name their parents by number, in one fixed array: there is no heap.
/// Points numbered by places, so that the parent of each place is a lower one. The root, point 0, has place 0.
#[derive(Drop)]
pub struct Rooted {
    places: [Option<u16>; POINTS],
    order: ArrayVec<Place, POINTS>,
    ghost long: { length places ≡ 1024 },
    ghost root: { slice_index_or places 0 None ≡ Some 0 } by { Prim.hlevel props },
    ghost agree: { Agree places order.items } by { Prim.hlevel props },
    ghost hung: { ((p : ℕ) → 0 < p → p < length order.items → IsSome (above_in order.items p)) } by { Prim.hlevel props },
    ghost lower: { ((p : ℕ) → parent_in order.items p ≤ p - 1) },
    ghost below: { ((p : ℕ) → link_in order.items p < 2048) },
}
