//! How often a sort reads links.
use price::bottleneck::Drift;
use ranking::ordering::Order;
use std::cell::Cell;
use table::LinkTable;
use table::links::Link;
use table::marks::Mark;

// A table of four links that counts how often one is read.
#[derive(Drop)]
struct Counting {
    links: [Link<Drift>; 4],
    carried: Drift,
    reads: Cell<usize>,
}

impl LinkTable<Drift> for Counting {
    ghost meaning = { λ t. record { points = 2; links = t.links; carried = t.carried } };

    fn points(&self) -> u16 {
        2
    }

    fn link_count(&self) -> usize {
        self.links.len()
    }

    fn link(&self, number: usize) -> Option<Link<Drift>> {
        self.reads.set(self.reads.get().wrapping_add(1));
        self.links.get(number).copied()
    }

    fn carried(&self) -> Drift {
        self.carried
    }
}

fn free_at(price: u32) -> Link<Drift> {
    Link {
        first: 0,
        second: 1,
        mark: Mark::Free,
        price: Drift(price),
    }
}

// Each merge takes from its two lists in turn, so that the merges of 2 and 4 numbers take 1 and 3 comparisons: one for each number
// but the last. With one reading of each link to collect them, and two for each comparison, that is 4 + 2 * (1 + 1 + 3).
#[test]
fn one_comparison_for_each_step(rt: HostRuntime) {
    let table = Counting {
        links: [free_at(6), free_at(2), free_at(8), free_at(4)],
        carried: Drift(0),
        reads: Cell::new(0),
    };
    let order = Order::of(&table);
    assert_eq!(rt; order.as_slice(), [1, 3, 0, 2].as_slice());
    assert_eq!(rt; table.reads.get(), 14);
}
