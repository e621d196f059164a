//! A table with its links ordered and its tree grown.
use forest::growing::Growth;
use forest::networks::Network;
use ranking::ordering::Order;

mod making;

/// The free links by rank, the ends and roles of all links, and what one pass over them finds.
// Which table it is of is not kept in it, so each function that reads the table again says by a clause that it is that table's.
#[derive(Drop)]
pub struct Solution {
    pub order: Order,
    pub network: Network,
    pub growth: Growth,
}
