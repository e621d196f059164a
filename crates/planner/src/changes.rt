//! Changes of a sheet, noted so that they can be taken back.
use table::marks::Mark;

/// A line of the trail: what was there before the change.
#[derive(Clone, Copy)]
pub enum Change<K> {
    /// A link was appended.
    Added,
    /// A link had this mark.
    Marked(u16, Mark),
    /// A link had this price.
    Repriced(u16, K),
    /// The budget was this.
    Budgeted(K),
}
