//! Totals of a tree, and of the trees that one swap makes of it.
ghost use Rattle.std.specs.Prelude.{◌≡◌, ℕ, ◌≤◌, false, T, slice_index_or};
ghost use Rattle.spanning.specs.Joined.{NoRing};
ghost use Rattle.table.specs.Ranks.{ends, usable, price_of};
ghost use Rattle.table.specs.Table.{Lawful};
ghost use Rattle.table.specs.Trees.{cost_of};
ghost use Rattle.spanning.specs.Sets.{held};
ghost use Rattle.ranking.specs.Totals.{added_cost, added_cost_of, from, takes, swap_of, SwapsAnswered};

use super::ordering::LINKS;
use super::ordering::ranking::price_at;
use grouped::GroupedSwaps;
use price::PriceKind;
use std::ops::Range;
use table::LinkTable;
use walking::Walk;

mod grouped;
mod walking;

/// One link of a tree goes, and another comes instead.
#[derive(Clone, Copy)]
pub struct Swap {
    pub gone: u16,
    pub come: u16,
}

// An amount with the prices of the tree's links of these numbers added.
fn add_range<K: PriceKind, L: LinkTable<K>>(
    table: &L,
    tree: &[bool; LINKS],
    numbers: Range<usize>,
    amount: K,
) -> K
    requires ordered { numbers.start ≤ numbers.end }
    requires within { numbers.end ≤ 2048 }
    ensures { result ≡ added_cost K.PriceKind.operations amount (price_of K.PriceKind.operations (L.LinkTable.meaning table.now)) numbers.end (from numbers.start (held tree.now)) }
{
    numbers
        .filter(|number| tree[*number])
        .fold(amount, |total, number| {
            total.plus(price_at(table, number))
        })
}

/// The carried total with the prices of the tree's links added; it is exact for usable links of a lawful table that close no ring.
pub fn tree_total<K: PriceKind, L: LinkTable<K>>(table: &L, tree: &[bool; LINKS]) -> K
    ensures added { result ≡ added_cost_of K.PriceKind.operations (L.LinkTable.meaning table.now) (held tree.now) }
    ensures exact { Lawful K.PriceKind.operations (L.LinkTable.meaning table.now) → ((k : ℕ) → T (held tree.now k) → T (usable (L.LinkTable.meaning table.now) k)) → NoRing (ends (L.LinkTable.meaning table.now)) (held tree.now) → result ≡ cost_of K.PriceKind.operations (L.LinkTable.meaning table.now) (held tree.now) }
{
    let count = table.link_count().min(LINKS);
    add_range(table, tree, 0..count, table.carried())
}

/// For each link with a swap, whether the tree with one link for the other is within the budget, where the link that comes is usable
/// and not among those that stay; no for a link without a swap, and where the link that goes is not in the tree.
pub fn swaps_within<'a, K: PriceKind, L: LinkTable<K>>(
    table: &'a L,
    tree: &'a [bool; LINKS],
    swaps: &'a [Option<Swap>; LINKS],
    budget: K,
) -> [bool; LINKS]
    ensures swapped { SwapsAnswered K.PriceKind.operations (L.LinkTable.meaning table.now) (held tree.now) swaps.now budget result }
    ensures others { (e : ℕ) → (T (takes (held tree.now) (swap_of swaps.now e)) → ⊥) → slice_index_or result e false ≡ false }
{
    let grouped = GroupedSwaps::new(swaps);
    let walk = Walk {
        table,
        tree,
        swaps: &grouped,
        budget,
    };
    let mut fits = [false; LINKS];
    let count = table.link_count().min(LINKS);
    walk.answer_range(0..count, table.carried(), &mut fits);
    fits
}
