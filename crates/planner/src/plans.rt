//! Plans.
ghost use Rattle.std.specs.Prelude.{◌≤◌, length};
ghost use Rattle.std.specs.List.{All};

pub use super::changes::Change;
use super::lending::Lent;
use arrayvec::ArrayVec;
use table::links::Link;

mod opening;
mod trying;

/// The most trials that can be open.
pub const DEEPEST: usize = 16;

/// A sheet that can be edited, on memory that the caller lends: a pool of links, a trail and room for the budget. For each open trial,
/// the outermost first, it has the lines that were taken as that began.
pub struct Plan<'a, K> {
    pool: Lent<'a, Link<K>>,
    trail: Lent<'a, Change<K>>,
    budget: &'a mut K,
    points: u16,
    starts: ArrayVec<usize, DEEPEST>,
    number: u32,
    ghost some: { 1 ≤ points },
    ghost few: { points ≤ 1024 },
    ghost short: { length pool.taken ≤ 2048 },
    ghost brief: { length trail.taken ≤ 4096 },
    ghost pooled: { length pool.taken ≤ pool.places },
    ghost trailed: { length trail.taken ≤ trail.places },
    ghost shallow: { length starts.items ≤ 16 },
    ghost starts_below: { All (λ start. start ≤ length trail.taken) starts.items },
}
