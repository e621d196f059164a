//! Parts of points that links join: a union-find on fixed memory.
ghost use Rattle.std.specs.Prelude.{◌≡◌, ◌≤◌, length};
ghost use Rattle.spanning.specs.Roots.{Forest};

mod finding;

/// The most points.
pub const POINTS: usize = 1_024;

/// For each point its parent, which is no higher; the root of a part is its lowest point.
// The parents lie in one fixed array, since there is no heap. Clauses read them, and not a view: callers rest on both facts.
#[derive(Drop)]
pub struct Components {
    parents: [u16; POINTS],
    ghost long: { length parents ≡ 1024 },
    ghost lower: { Forest parents },
}
