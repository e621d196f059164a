//! What settling and sifting ask first.
ghost use Rattle.std.specs.Prelude.{◌≡◌};
ghost use Rattle.solver.specs.Settling.{admit_refusal, unless};

use price::PriceKind;
use table::refusals::PlanFault;

// Whether there is a place for each link, and the budget is admitted.
pub(super) fn admit<K: PriceKind>(links: usize, places: usize, budget: K) -> Result<(), PlanFault>
    ensures { result ≡ unless (admit_refusal K.PriceKind.operations links places budget) tt }
{
    if places < links {
        return Err(PlanFault::ShortBuffer);
    }
    if !budget.is_budget() {
        return Err(PlanFault::Budget);
    }
    Ok(())
}
