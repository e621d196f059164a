//! Settling a table.
ghost use Rattle.std.specs.Prelude.{◌≡◌, length, Some, Ok, Err};
ghost use Rattle.table.specs.Table.{Lawful};
ghost use Rattle.table.specs.Verdicts.{VerdictIs, verdict_of};
ghost use Rattle.solver.specs.Settling.{settle_refusal, unless, unless_kept, has_tree, tree_written};
ghost use Rattle.solver.specs.Solved.{Solves};

use crate::admitting::admit;
use crate::solving::Solution;
use crate::writing::write_each;
use forest::networks::LINKS;
use price::PriceKind;
use ranking::totals::tree_total;
use table::LinkTable;
use table::refusals::PlanFault;
use table::verdicts::Verdict;

impl Solution {
    // The verdict on the table that was solved.
    pub(super) fn judge<K: PriceKind, L: LinkTable<K>>(&self, table: &L, budget: K) -> Verdict<K>
        ensures { Lawful K.PriceKind.operations (L.LinkTable.meaning table.now) → Solves K.PriceKind.operations (L.LinkTable.meaning table.now) self.now → result ≡ verdict_of K.PriceKind.operations (L.LinkTable.meaning table.now) budget }
    {
        if let Some(link) = self.growth.ring {
            return Verdict::Ring(link);
        }
        if let Some(point) = self.growth.cut {
            return Verdict::Cut(point);
        }
        let total = tree_total(table, &self.growth.tree);
        if total.not_above(budget) {
            Verdict::Fits(total)
        } else {
            Verdict::Over(total)
        }
    }
}

// Whether there is a tree to show.
fn has_tree<K>(verdict: &Verdict<K>) -> bool
    ensures { result ≡ has_tree verdict.now }
{
    matches!(verdict, Verdict::Over(_) | Verdict::Fits(_))
}

/// The verdict on a table with a budget. For over and fits it writes the tree shown, one byte a link, 1 or 0; places past the links
/// stay. Refused with 33 where there are fewer places than links, then with 46 where the budget is not admitted; nothing is written
/// then.
pub fn settle<K: PriceKind, L: LinkTable<K>>(
    table: &L,
    budget: K,
    out: &mut [u8],
) -> Result<Verdict<K>, PlanFault>
    ensures refused { (fault : PlanFault) → settle_refusal K.PriceKind.operations (L.LinkTable.meaning table.now) budget (length out.old) ≡ Some fault → (result ≡ Err fault) × (out.new ≡ out.old) }
    ensures result { Lawful K.PriceKind.operations (L.LinkTable.meaning table.now) → result ≡ unless (settle_refusal K.PriceKind.operations (L.LinkTable.meaning table.now) budget (length out.old)) (verdict_of K.PriceKind.operations (L.LinkTable.meaning table.now) budget) }
    ensures buffer { Lawful K.PriceKind.operations (L.LinkTable.meaning table.now) → out.new ≡ unless_kept (settle_refusal K.PriceKind.operations (L.LinkTable.meaning table.now) budget (length out.old)) (tree_written K.PriceKind.operations (L.LinkTable.meaning table.now) budget out.old) out.old }
    ensures law { Lawful K.PriceKind.operations (L.LinkTable.meaning table.now) → (v : Verdict K) → result ≡ Ok v → VerdictIs K.PriceKind.operations (L.LinkTable.meaning table.now) budget v }
{
    let count = table.link_count();
    admit(count, out.len(), budget)?;
    let solution = Solution::of(table);
    let verdict = solution.judge(table, budget);
    if has_tree(&verdict) {
        // The rules write a tree as a byte for each link, 1 or 0.
        let written = count.min(LINKS);
        write_each(
            &mut out[..written],
            &solution.growth.tree,
            |bit| u8::from(*bit),
        );
    }
    Ok(verdict)
}
