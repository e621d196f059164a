//! Opening and ending trials.
ghost use Rattle.std.specs.Prelude.{◌≡◌};
ghost use Rattle.planner.specs.Model.{after_begin, trial_of};
ghost use Rattle.planner.specs.Modelled.{model_of};

use super::Plan;
use crate::trials::Trial;
use table::refusals::PlanFault;

impl<'a, K> Plan<'a, K> {
    /// Opens a trial. Refused with 51 where 16 are open.
    pub fn begin(&mut self) -> Result<Trial, PlanFault>
        ensures result { result ≡ trial_of self.old.number (model_of self.old) }
        ensures model { model_of self.new ≡ after_begin (model_of self.old) }
        ensures number { self.new.number ≡ self.old.number }
    {
        self.starts
            .try_push(self.trail.len())
            .map_err(|_| PlanFault::TooDeep)?;
        Ok(Trial {
            plan: self.number,
            depth: self.starts.len(),
        })
    }
}
