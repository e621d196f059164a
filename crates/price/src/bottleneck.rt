//! The kind `drift`: a price is a number of sixty-fourths of a pixel, and a total is the largest price.
ghost use Rattle.price.specs.Bottleneck.{operations as largest_of, forms as unsigned};
ghost use Rattle.price.specs.Maxima;
ghost use Rattle.price.specs.Maxima.{storable};

use super::{PriceKind, StorableKind};

/// The largest price.
pub const LARGEST_PRICE: u32 = 65_535;

/// The largest budget.
pub const LARGEST_BUDGET: u32 = 65_535;

/// A number of sixty-fourths of a pixel: a price, a total or a budget.
#[derive(Clone, Copy, PartialEq, Eq, PartialOrd, Ord, Debug)]
pub struct Drift(pub u32);

impl PriceKind for Drift {
    ghost operations = { largest_of };

    ghost lawful = { Maxima.lawful };

    fn zero() -> Self {
        Drift(0)
    }

    fn plus(self, other: Self) -> Self {
        Drift(self.0.max(other.0))
    }

    fn not_above(self, other: Self) -> bool {
        self <= other
    }

    fn is_price(self) -> bool {
        self.0 <= LARGEST_PRICE
    }

    fn is_budget(self) -> bool {
        self.0 <= LARGEST_BUDGET
    }
}

impl StorableKind for Drift {
    ghost forms = { unsigned };

    ghost tied = { storable };

    fn code() -> u8 {
        2
    }

    // A kind may store prices and budgets differently, so that each has a form of its own; here each is a line or two.
    fn price_form(self) -> [u8; 4] {
        let Drift(price) = self;
        price.to_be_bytes()
    }

    fn price_of(form: [u8; 4]) -> Option<Self> {
        let price = Drift(u32::from_be_bytes(form));
        price.is_price().then_some(price)
    }

    fn budget_form(self) -> [u8; 4] {
        let Drift(budget) = self;
        budget.to_be_bytes()
    }

    fn budget_of(form: [u8; 4]) -> Option<Self> {
        let budget = Drift(u32::from_be_bytes(form));
        budget.is_budget().then_some(budget)
    }
}
