//! Sifting a table.
ghost use Rattle.std.specs.Prelude.{◌≡◌, ℕ, ◌<◌, Bool, T, length, take, Some, None, Ok, Err, IfOk, IfErr, slice_index_or};
ghost use Rattle.spanning.specs.Sets.{held};
ghost use Rattle.forest.specs.Growing.{FreeInOrder};
ghost use Rattle.forest.specs.Trees.{SpansWithoutRing};
ghost use Rattle.table.specs.Ranks.{is_free};
ghost use Rattle.table.specs.Laws.{Supports};
ghost use Rattle.solver.specs.Sifting.{chosen, swap_for, judged_link, SupportedBy, verdict_refusal, entry_refusal, sift_refusal, findings_written, supports_written};
ghost use Rattle.table.specs.declared.verdicts.Verdict.TheVariants as verdicts;
ghost use Rattle.table.specs.Findings.{FindingIs, finding_of, support_of};
ghost use Rattle.table.specs.Table.{Lawful};
ghost use Rattle.table.specs.Verdicts.{verdict_of};
ghost use Rattle.solver.specs.Settling.{unless, unless_kept};
ghost use Rattle.solver.specs.Solved.{Solves};

use crate::admitting::admit;
use crate::solving::Solution;
use crate::writing::write_each;
use forest::networks::{LINKS, Tree};
use forest::paths::telling::last_links;
use forest::replacing::replacements;
use price::PriceKind;
use ranking::totals::{Swap, swaps_within};
use std::array;
use table::LinkTable;
use table::marks::Role;
use table::refusals::PlanFault;
use table::verdicts::{Finding, Verdict};

/// How the rules write that a link has no support.
const NO_SUPPORT: u16 = u16::MAX;

/// What is told of a link.
#[derive(Clone, Copy)]
struct Sifted {
    finding: Finding,
    support: Option<u16>,
}

// The support of a link, from what is told of it.
fn choose(role: Role, taken: bool, first: Option<u16>, last: Option<u16>) -> Option<u16>
    ensures { result ≡ chosen (is_free role) taken first last }
{
    if role != Role::Free {
        return None;
    }
    if taken { first } else { last }
}

// The finding of a link.
fn judge_link(role: Role, taken: bool, support: Option<u16>, within: bool) -> Finding
    ensures { result ≡ judged_link role taken support within }
{
    match (role, support) {
        (Role::Kept, _) => Finding::Forced,
        (Role::Barred, _) => Finding::Out,
        (Role::Free, Some(_)) if within => Finding::Open,
        (Role::Free, _) if taken => Finding::Forced,
        (Role::Free, _) => Finding::Out,
    }
}

// The exchange that a link's support makes.
fn swap_for(taken: bool, link: u16, support: Option<u16>) -> Option<Swap>
    ensures { result ≡ swap_for taken link support }
{
    support.map(|other| {
        if taken {
            Swap {
                gone: link,
                come: other,
            }
        } else {
            Swap {
                gone: other,
                come: link,
            }
        }
    })
}

impl Solution {
    // The support of each link: of a free link outside the tree the last-ranked free link on its path, of a free link in it the first
    // to take its place.
    fn supports(&self) -> [Option<u16>; LINKS]
        ensures { let n = self.now.network in let X = held self.now.growth.tree in (before : ℕ → ℕ → Bool) → FreeInOrder n before self.now.order → SpansWithoutRing n X → (e : ℕ) → SupportedBy n X before self.now.order e (slice_index_or result e None) }
    {
        let tree = Tree {
            network: &self.network,
            bits: &self.growth.tree,
        };
        let last = last_links(&tree, self.order.as_slice());
        let first = replacements(&tree, self.order.as_slice());
        array::from_fn(|link| {
            choose(
                tree.network.role(link as u16),
                tree.bits[link],
                first[link],
                last[link],
            )
        })
    }

    // The exchange of each link that has a support.
    fn swaps(&self, supports: &[Option<u16>; LINKS]) -> [Option<Swap>; LINKS]
        ensures { (e : ℕ) → e < 2048 → slice_index_or result e None ≡ swap_for (held self.now.growth.tree e) e (slice_index_or supports.now e None) }
    {
        array::from_fn(|link| swap_for(self.growth.tree[link], link as u16, supports[link]))
    }

    // The finding and the support of each link, of a table that fits.
    fn sift<K: PriceKind, L: LinkTable<K>>(&self, table: &L, budget: K) -> [Sifted; LINKS]
        ensures { Lawful K.PriceKind.operations (L.LinkTable.meaning table.now) → Solves K.PriceKind.operations (L.LinkTable.meaning table.now) self.now → T (K.PriceKind.operations.budget budget) → (c : K) → verdict_of K.PriceKind.operations (L.LinkTable.meaning table.now) budget ≡ verdicts.Fits c → (e : ℕ) (d : Sifted) → e < 2048 → slice_index_or result e d ≡ record { finding = finding_of K.PriceKind.operations (L.LinkTable.meaning table.now) budget e; support = support_of K.PriceKind.operations (L.LinkTable.meaning table.now) e } }
    {
        let supports = self.supports();
        let swaps = self.swaps(&supports);
        let within = swaps_within(table, &self.growth.tree, &swaps, budget);
        array::from_fn(|link| {
            let role = self.network.role(link as u16);
            let taken = self.growth.tree[link];
            Sifted {
                finding: judge_link(role, taken, supports[link], within[link]),
                support: supports[link],
            }
        })
    }
}

// The cost of a table that fits; any other is refused.
fn fits<K: PriceKind>(verdict: Verdict<K>) -> Result<K, PlanFault>
    ensures cost { IfOk result (λ cost. verdict ≡ verdicts.Fits cost) }
    ensures refused { IfErr result (λ fault. verdict_refusal verdict ≡ Some fault) }
{
    match verdict {
        Verdict::Ring(_) => Err(PlanFault::Ring),
        Verdict::Cut(_) => Err(PlanFault::Cut),
        Verdict::Over(_) => Err(PlanFault::Over),
        Verdict::Fits(cost) => Ok(cost),
    }
}

/// The finding of each link, a byte, and its support, a number: 0 out, 1 open, 2 forced; 65,535 for no support. Places past the links
/// stay. Refused with 33 where either buffer has fewer places than there are links, 46 where the budget is not admitted, 61 for a ring,
/// 62 for a cut, 63 where no tree fits; nothing is written then.
pub fn sift<K: PriceKind, L: LinkTable<K>>(
    table: &L,
    budget: K,
    findings: &mut [u8],
    supports: &mut [u16],
) -> Result<(), PlanFault>
    ensures refused { (fault : PlanFault) → entry_refusal K.PriceKind.operations (L.LinkTable.meaning table.now) budget (length findings.old) (length supports.old) ≡ Some fault → (result ≡ Err fault) × (findings.new ≡ findings.old) × (supports.new ≡ supports.old) }
    ensures result { Lawful K.PriceKind.operations (L.LinkTable.meaning table.now) → result ≡ unless (sift_refusal K.PriceKind.operations (L.LinkTable.meaning table.now) budget (length findings.old) (length supports.old)) tt }
    ensures told { Lawful K.PriceKind.operations (L.LinkTable.meaning table.now) → findings.new ≡ unless_kept (sift_refusal K.PriceKind.operations (L.LinkTable.meaning table.now) budget (length findings.old) (length supports.old)) (findings_written K.PriceKind.operations (L.LinkTable.meaning table.now) budget findings.old) findings.old }
    ensures held { Lawful K.PriceKind.operations (L.LinkTable.meaning table.now) → supports.new ≡ unless_kept (sift_refusal K.PriceKind.operations (L.LinkTable.meaning table.now) budget (length findings.old) (length supports.old)) (supports_written K.PriceKind.operations (L.LinkTable.meaning table.now) supports.old) supports.old }
    ensures law { Lawful K.PriceKind.operations (L.LinkTable.meaning table.now) → result ≡ Ok tt → (e : ℕ) → FindingIs K.PriceKind.operations (L.LinkTable.meaning table.now) budget e (finding_of K.PriceKind.operations (L.LinkTable.meaning table.now) budget e) × Supports K.PriceKind.operations (L.LinkTable.meaning table.now) e }
{
    let count = table.link_count();
    admit(count, findings.len().min(supports.len()), budget)?;
    let solution = Solution::of(table);
    fits(solution.judge(table, budget))?;
    let sifted = solution.sift(table, budget);
    // The rules write a finding as a byte, and a support as two.
    let written = count.min(LINKS);
    write_each(
        &mut findings[..written],
        &sifted,
        |told| u8::from(told.finding),
    );
    write_each(
        &mut supports[..written],
        &sifted,
        |told| told.support.unwrap_or(NO_SUPPORT),
    );
    Ok(())
}
