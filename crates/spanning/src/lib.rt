//! The theory of least spanning trees, proved once: for any graph, any strict order of links that never puts a dearer link first,
//! and any price kind with the laws. Each function's contract is a theorem, and all that the function is.
#![tactic(auto)]

ghost use Rattle.spanning.specs.Laws.{JoinedIsDecided, LabelsDecide, FewerThanPoints, GraphsClose, OneTreeShown, GreedyIsLeast, OneExchange, SupportsTell, VerdictsTell, ContractionKeeps, FindingsTell};

use price::PriceKind;

pub mod components;

/// Whether points are joined by a set of links is decided by computation.
pub fn joined_is_decided()
    ensures { JoinedIsDecided }
{}

/// Whether points are joined by a set of links is decided by the labels of their parts, each the lowest point of its part.
pub fn labels_decide()
    ensures { LabelsDecide }
{}

/// Links that close no ring are fewer than the points that they are on.
pub fn fewer_than_points()
    ensures { FewerThanPoints }
{}

/// Graphs have the facts of a closure with exchange.
pub fn graphs_close()
    ensures { GraphsClose }
{}

/// If the kept links close no ring, there is exactly one tree shown.
pub fn one_tree_shown()
    ensures { OneTreeShown }
{}

/// Every tree costs at least as much as the greedy tree.
pub fn greedy_is_least<K: PriceKind>()
    ensures { GreedyIsLeast K.operations }
{}

/// Where one link is changed, at most one link leaves the tree shown and at most one enters.
pub fn one_exchange()
    ensures { OneExchange }
{}

/// The least tree that holds a link, and the least that lacks one, by the link's support.
pub fn supports_tell<K: PriceKind>()
    ensures { SupportsTell K.operations }
{}

/// Lawful trees exist exactly if the kept links close no ring and the links that are not barred join all points; the greedy tree is
/// then one, and it is within a budget exactly if some lawful tree is.
pub fn verdicts_tell<K: PriceKind>()
    ensures { VerdictsTell K.operations }
{}

/// With the kept links taken for granted, trees, the greedy tree and costs are those below without them.
pub fn contraction_keeps<K: PriceKind>()
    ensures { ContractionKeeps K.operations }
{}

/// Where the tree shown is within the budget, the cost of one more tree tells whether a link is out, forced or neither.
pub fn findings_tell<K: PriceKind>()
    ensures { FindingsTell K.operations }
{}
