//! The narrowing of a table, as a link table on fixed memory.
ghost use Rattle.std.specs.Prelude.{◌≤◌};
ghost use Rattle.arrayvec.specs.ArrayVec.{array_vec_len};

use arrayvec::ArrayVec;
use forest::networks::LINKS;
use parts::Parts;

mod collecting;
mod making;
mod parts;
mod reading;

/// A table with the points that kept links join taken as one: the part of each point below, the number below of each link, and the
/// carried total with the kept prices. Its links are read from the table below.
#[derive(Drop)]
pub struct Narrowing<'a, K, L> {
    table: &'a L,
    parts: Parts,
    numbers: ArrayVec<u16, LINKS>,
    carried: K,
    ghost short: { array_vec_len numbers ≤ 2048 },
}
