//! The kind `steps`: a price is an even number of steps, with a tag that is added up but not compared.
//!
//! It keeps the laws of a price kind and few others. Different amounts may compare as equal. No total and no budget has an odd
//! count, so the laws do not speak of one, and there they fail: such an amount is above every other and above itself, and what
//! is added to it is lost.
ghost use Rattle.kind_tests.specs.Steps.{operations as stepwise};
ghost use Rattle.kind_tests.specs.Evens;

use price::PriceKind;

/// The largest count of a price.
pub const MOST_STEPS: u32 = 200;

/// The largest tag of a price.
pub const LARGEST_TAG: u32 = 255;

/// A number of steps, with a tag.
#[derive(Clone, Copy, PartialEq, Eq, Debug)]
pub struct Steps {
    pub count: u32,
    pub tag: u32,
}

impl PriceKind for Steps {
    ghost operations = { stepwise };

    ghost lawful = { Evens.lawful };

    fn zero() -> Self {
        Steps { count: 0, tag: 0 }
    }

    fn plus(self, other: Self) -> Self {
        if self.count % 2 != 0 {
            return self;
        }
        Steps {
            count: self.count.saturating_add(other.count),
            tag: self.tag.saturating_add(other.tag),
        }
    }

    fn not_above(self, other: Self) -> bool {
        self.count % 2 == 0 && self.count <= other.count
    }

    fn is_price(self) -> bool {
        self.count % 2 == 0 && self.count <= MOST_STEPS && self.tag <= LARGEST_TAG
    }

    fn is_budget(self) -> bool {
        self.count % 2 == 0
    }
}
