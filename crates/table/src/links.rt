//! Links.
use super::marks::Mark;

/// A link: it joins two points, and has a mark and a price.
#[derive(Clone, Copy, PartialEq, Eq, Debug)]
pub struct Link<K> {
    pub first: u16,
    pub second: u16,
    pub mark: Mark,
    pub price: K,
}
