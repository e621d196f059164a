//! The paths of a tree: the last-ranked free link on the path between two points.
use crate::merges::Merges;

mod joining;
pub mod telling;

/// The links of a tree, joined one after the other: the kept ones in the order of their numbers, and then the free ones in the order of
/// their ranks.
#[derive(Drop)]
pub struct Paths {
    merges: Merges,
}
