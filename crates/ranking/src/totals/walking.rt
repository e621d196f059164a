//! Totals of a tree without each of its links: a walk that halves the numbers and takes one amount along.
ghost use Rattle.std.specs.Prelude.{◌≡◌, ℕ, ◌<◌, ◌≤◌, false, T, slice_index_or};
ghost use Rattle.spanning.specs.Sets.{held};
ghost use Rattle.ranking.specs.Totals.{between, takes, swap_of, goes, fits_in, RangeAnswered};

use super::super::ordering::LINKS;
use super::super::ordering::ranking::price_at;
use super::grouped::GroupedSwaps;
use super::{Swap, add_range};
use price::PriceKind;
use std::ops::Range;
use table::LinkTable;

/// What a walk reads: a tree of a table, the swaps in groups, and the budget.
pub struct Walk<'a, K, L> {
    pub table: &'a L,
    pub tree: &'a [bool; LINKS],
    pub swaps: &'a GroupedSwaps<'a>,
    pub budget: K,
}

// A derive would ask that the table may be let go too, which the walk only borrows.
impl<K: Drop, L> Drop for Walk<'_, K, L> {
    fn drop(self) {
        let Walk {
            table: _,
            tree: _,
            swaps: _,
            budget: _,
        } = self;
    }
}

impl<K: PriceKind, L: LinkTable<K>> Walk<'_, K, L> {
    // Whether the total of the links that stay and of the one that comes is not above the budget.
    fn fits_in(&self, swap: Option<Swap>, stays: K) -> bool
        ensures { result ≡ fits_in K.PriceKind.operations (L.LinkTable.meaning self.now.table.now) stays self.now.budget swap }
    {
        let table = self.table;
        let budget = self.budget;
        swap.is_some_and(|swap| {
            stays
                .plus(price_at(table, swap.come as usize))
                .not_above(budget)
        })
    }

    // Writes the answer of each link of a group.
    fn answer_group(&self, gone: usize, stays: K, fits: &mut [bool; LINKS])
        requires { gone < 2048 }
        ensures group { (e : ℕ) → T (goes self.now.swaps.now gone e) → slice_index_or fits.new e false ≡ fits_in K.PriceKind.operations (L.LinkTable.meaning self.now.table.now) stays self.now.budget (swap_of self.now.swaps.now e) }
        ensures rest { (e : ℕ) → (T (goes self.now.swaps.now gone e) → ⊥) → slice_index_or fits.new e false ≡ slice_index_or fits.old e false }
    {
        for number in self.swaps.of(gone) {
            let number = number as usize;
            fits[number] = self.fits_in(self.swaps.swap(number), stays);
        }
    }

    /// Writes the answer of each link whose swap takes out a tree link of these numbers. What stays outside of them is the carried
    /// total and all tree links but those.
    pub fn answer_range(&self, numbers: Range<usize>, outside: K, fits: &mut [bool; LINKS])
        requires ordered { numbers.start ≤ numbers.end }
        requires within { numbers.end ≤ 2048 }
        ensures range { RangeAnswered K.PriceKind.operations (L.LinkTable.meaning self.now.table.now) (held self.now.tree.now) self.now.swaps.now numbers.start numbers.end outside self.now.budget fits.new }
        ensures rest { (e : ℕ) → (T (takes (between numbers.start numbers.end (held self.now.tree.now)) (swap_of self.now.swaps.now e)) → ⊥) → slice_index_or fits.new e false ≡ slice_index_or fits.old e false }
    {
        let Range {
            start: low,
            end: high,
        } = numbers;
        match high - low {
            0 => {}
            1 => {
                if self.tree[low] {
                    self.answer_group(low, outside, fits);
                }
            }
            length => {
                let middle = low + length / 2;
                let left = add_range(self.table, self.tree, middle..high, outside);
                self.answer_range(low..middle, left, fits);
                let right = add_range(self.table, self.tree, low..middle, outside);
                self.answer_range(middle..high, right, fits);
            }
        }
    }
}
