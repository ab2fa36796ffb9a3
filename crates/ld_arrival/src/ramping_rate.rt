// Arrivals at a rate that ramps through stages.
use crate::fault::ArrivalFault;
use crate::limits::{GREATEST_DURATION, GREATEST_RATE, GREATEST_UNIT};
use crate::ramp::{has_fast_stage, length_of, reached_at};
use ld_base::Stage;

/// More than what any ramp within the limits has of arrivals, times the unit, doubled.
const MOST_WANTED: u128 = 6_000_000_000_000_000_000_000;

// A rate that goes from a start rate through the targets of stages: so many arrivals in each unit of time, which is in
// nanoseconds.
#[derive(Drop)]
pub struct RampingRate {
    pub start_rate: u64,
    pub unit: u64,
    pub stages: Vec<Stage>,
}

impl RampingRate {
    ghost use Rattle.std.specs.Prelude.{◌≡◌, ◌<◌, ◌≤◌, ◌*◌, ◌+◌, ℕ, length, vec_len, IfOk, IfErr};
    ghost use Rattle.ld_arrival.specs.Timetable.{moment_of, planned_count};
    ghost use Rattle.ld_arrival.specs.Limits.{IsWithinLimits};
    ghost use Rattle.ld_arrival.specs.RampStage.{most_wanted};
    ghost use Rattle.ld_arrival.specs.RampingRate.{timetable_of};
    ghost use Rattle.ld_arrival.specs.ArrivalFault.{IsRefusal};

    // Refuses a rate, the unit or the length of all stages that isn't within the limits.
    pub fn check(&self) -> Result<(), ArrivalFault>
        requires { vec_len self.now.stages ≤ 100 }
        ensures within { IfOk result (λ _. IsWithinLimits (timetable_of self.now)) }
        ensures refused { IfErr result (λ f. IsRefusal (timetable_of self.now) f) }
    {
        if self.start_rate > GREATEST_RATE || has_fast_stage(&self.stages) {
            return Err(ArrivalFault::RateRange);
        }
        if self.unit == 0 || self.unit > GREATEST_UNIT {
            return Err(ArrivalFault::DurationRange);
        }
        if length_of(&self.stages) > GREATEST_DURATION as u128 {
            return Err(ArrivalFault::DurationRange);
        }
        Ok(())
    }

    // How many arrivals are planned: the number of the first that isn't.
    pub fn count(&self) -> u128
        requires few { vec_len self.now.stages ≤ 100 }
        requires limits { IsWithinLimits (timetable_of self.now) }
        ensures { result ≡ planned_count (timetable_of self.now) }
    {
        let end = length_of(&self.stages);
        let mut low = 0;
        let mut high = MOST_WANTED / (2 * self.unit as u128);
        while low < high {
            let middle = low + (high - low) / 2;
            if (self.moment(middle) as u128) < end {
                low = middle + 1;
            } else {
                high = middle;
            }
        }
        low
    }

    // The moment of arrival `k`, counted from 0; the end where no stage reaches it.
    pub fn moment(&self, k: u128) -> u64
        requires limits { IsWithinLimits (timetable_of self.now) }
        requires wanted { 2 * self.now.unit * (k + 1) ≤ most_wanted }
        ensures { result ≡ moment_of (timetable_of self.now) k }
    {
        let wanted = 2 * self.unit as u128 * (k + 1);
        reached_at(self.start_rate, wanted, &self.stages)
    }
}
