//! Opening a plan.
ghost use Rattle.std.specs.Prelude.{◌≡◌};
ghost use Rattle.planner.specs.Model.{opened};
ghost use Rattle.planner.specs.Modelled.{model_of};

use super::{Change, Plan};
use crate::lending::Lent;
use arrayvec::ArrayVec;
use price::PriceKind;
use table::links::Link;

impl<'a, K: PriceKind> Plan<'a, K> {
    /// A plan on memory that the caller lends, with one point, no links, zero budget, no trial and the caller's number. It cannot fail.
    pub fn open(
        pool: &'a mut [Link<K>],
        trail: &'a mut [Change<K>],
        budget: &'a mut K,
        number: u32,
    ) -> Plan<'a, K>
        ensures model { model_of result ≡ opened K.operations }
        ensures number { result.number ≡ number }
    {
        *budget = K::zero();
        Plan {
            pool: Lent::new(pool),
            trail: Lent::new(trail),
            budget,
            points: 1,
            starts: ArrayVec::new(),
            number,
        }
    }
}
