//! The kind `bytes`: a price is a whole number of bytes, negative where a link saves them, and a total is the sum.
ghost use Rattle.price.specs.Additive.{operations as summed, forms as signed};
ghost use Rattle.price.specs.Sums;
ghost use Rattle.price.specs.Sums.{storable};

use super::{PriceKind, StorableKind};

/// The largest price; the smallest is its negative.
pub const LARGEST_PRICE: i32 = 1_000_000;

/// A number of bytes: a price, a total or a budget.
#[derive(Clone, Copy, PartialEq, Eq, PartialOrd, Ord, Debug)]
pub struct Bytes(pub i32);

impl PriceKind for Bytes {
    ghost operations = { summed };

    ghost lawful = { Sums.lawful };

    fn zero() -> Self {
        Bytes(0)
    }

    // Exact up to 1,023 prices, and the nearest 32-bit number past that.
    fn plus(self, other: Self) -> Self {
        Bytes(self.0.saturating_add(other.0))
    }

    fn not_above(self, other: Self) -> bool {
        self <= other
    }

    fn is_price(self) -> bool {
        (-LARGEST_PRICE..=LARGEST_PRICE).contains(&self.0)
    }

    // Any signed 32-bit number.
    fn is_budget(self) -> bool {
        true
    }
}

impl StorableKind for Bytes {
    ghost forms = { signed };

    ghost tied = { storable };

    fn code() -> u8 {
        1
    }

    // A kind may store prices and budgets differently, so that each has a form of its own; here each is a line or two.
    fn price_form(self) -> [u8; 4] {
        let Bytes(price) = self;
        price.to_be_bytes()
    }

    fn price_of(form: [u8; 4]) -> Option<Self> {
        let price = Bytes(i32::from_be_bytes(form));
        price.is_price().then_some(price)
    }

    fn budget_form(self) -> [u8; 4] {
        let Bytes(budget) = self;
        budget.to_be_bytes()
    }

    fn budget_of(form: [u8; 4]) -> Option<Self> {
        let budget = Bytes(i32::from_be_bytes(form));
        budget.is_budget().then_some(budget)
    }
}
