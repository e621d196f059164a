//! Points joined one link after the other, on fixed memory: a union-find without compression that remembers its joins.
ghost use Rattle.std.specs.Prelude.{◌≡◌, ℕ, ◌+◌, ◌<◌, Some, length, count_by};
ghost use Rattle.forest.specs.Hangs.{hang_in, is_root};
ghost use Rattle.forest.specs.declared.merges.Hang.{Hang};

use crate::networks::POINTS;
use arrayvec::ArrayVec;

pub mod walking;

/// Where a point hangs: its parent, and the number of the join that hung it.
#[derive(Clone, Copy)]
struct Hang {
    parent: u16,
    join: u16,
}

/// A point: where it hangs, if a join hung it; and how many points hung below it when it was last a root.
#[derive(Clone, Copy)]
struct Node {
    hang: Option<Hang>,
    size: u16,
}

/// Each join hangs one root from another, and its link is remembered. The numbers of the joins rise on the way up.
// Nodes name their parents by number, in one fixed array: there is no heap.
#[derive(Drop)]
pub struct Merges {
    nodes: [Node; POINTS],
    links: ArrayVec<u16, POINTS>,
    ghost each_point: { length nodes ≡ 1024 },
    ghost parent_is_point: { ((x : ℕ) (h : Hang) → hang_in nodes x ≡ Some h → h.parent < 1024) },
    ghost hung_by_join: { ((x : ℕ) (h : Hang) → hang_in nodes x ≡ Some h → h.join < length links.items) },
    ghost rises: { ((x : ℕ) (h above : Hang) → hang_in nodes x ≡ Some h → hang_in nodes h.parent ≡ Some above → h.join < above.join) },
    ghost joins_and_roots: { length links.items + count_by is_root nodes ≡ 1024 },
}
