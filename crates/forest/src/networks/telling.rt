//! What a network tells of its table.
ghost use Rattle.forest.specs.Tables.{NetworksTell, PathsTell};

use price::PriceKind;

/// What is computed on the network of a lawful table is what the table's definitions say: ring, cut and the tree shown.
pub fn networks_tell<K: PriceKind>()
    ensures { NetworksTell K.operations }
{}

/// In the tree shown, the last-ranked free link on the path of a free link outside it, and the first replacement of a free link in it,
/// are their supports.
pub fn paths_tell<K: PriceKind>()
    ensures { PathsTell K.operations }
{}
