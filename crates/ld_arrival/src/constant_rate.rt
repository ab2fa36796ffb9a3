// Arrivals at a constant rate.
use crate::fault::ArrivalFault;
use crate::limits::{GREATEST_DURATION, GREATEST_RATE, GREATEST_UNIT};

// So many arrivals in each unit of time, for a duration. Unit and duration are in nanoseconds.
#[derive(Clone, Copy)]
pub struct ConstantRate {
    pub rate: u64,
    pub unit: u64,
    pub duration: u64,
}

impl ConstantRate {
    ghost use Rattle.std.specs.Prelude.{◌≡◌, ◌<◌, IfOk, IfErr};
    ghost use Rattle.ld_arrival.specs.Timetable.{IsPlanned, end_of, moment_of, planned_count};
    ghost use Rattle.ld_arrival.specs.Limits.{IsWithinLimits};
    ghost use Rattle.ld_arrival.specs.ConstantRate.{timetable_of};
    ghost use Rattle.ld_arrival.specs.ArrivalFault.{IsRefusal};

    // Refuses a rate, a unit or a duration that isn't within the limits.
    pub fn check(self) -> Result<(), ArrivalFault>
        ensures within { IfOk result (λ _. IsWithinLimits (timetable_of self)) }
        ensures refused { IfErr result (λ f. IsRefusal (timetable_of self) f) }
    {
        if self.rate == 0 || self.rate > GREATEST_RATE {
            return Err(ArrivalFault::RateRange);
        }
        if self.unit == 0 || self.unit > GREATEST_UNIT {
            return Err(ArrivalFault::DurationRange);
        }
        if self.duration == 0 || self.duration > GREATEST_DURATION {
            return Err(ArrivalFault::DurationRange);
        }
        Ok(())
    }

    // How many arrivals are planned.
    pub fn count(self) -> u128
        requires { IsWithinLimits (timetable_of self) }
        ensures { result ≡ planned_count (timetable_of self) }
    {
        (self.duration as u128 * self.rate as u128).div_ceil(self.unit as u128)
    }

    // The moment of arrival `k`, counted from 0.
    pub fn moment(self, k: u64) -> u64
        requires limits { IsWithinLimits (timetable_of self) }
        requires planned { IsPlanned (timetable_of self) k }
        ensures moment { result ≡ moment_of (timetable_of self) k }
        ensures before { result < end_of (timetable_of self) }
    {
        (k as u128 * self.unit as u128 / self.rate as u128) as u64
    }
}
