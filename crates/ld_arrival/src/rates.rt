// The rates at which arrivals come, of either kind.
use crate::constant_rate::ConstantRate;
use crate::ramping_rate::RampingRate;
use std::alloc::{AllocError, Global};

// A constant rate, or one that ramps through stages.
#[derive(Drop)]
pub enum Rates {
    Constant(ConstantRate),
    Ramping(RampingRate),
}

impl Rates {
    ghost use Rattle.std.specs.Prelude.{◌≡◌, ◌<◌, IfOk};
    ghost use Rattle.ld_arrival.specs.Timetable.{IsPlanned, end_of, moment_of};
    ghost use Rattle.ld_arrival.specs.Limits.{IsWithinLimits};
    ghost use Rattle.ld_arrival.specs.Rates.{timetable_of};

    // Equal rates.
    pub fn copy(&self, alloc: Global) -> Result<Rates, AllocError>
        ensures { IfOk result (λ rates. timetable_of rates ≡ timetable_of self.now) }
    {
        match self {
            Rates::Constant(rate) => Ok(Rates::Constant(*rate)),
            Rates::Ramping(rate) => Ok(Rates::Ramping(RampingRate {
                start_rate: rate.start_rate,
                unit: rate.unit,
                stages: Vec::from_slice(alloc, &rate.stages)?,
            })),
        }
    }

    // The moment of arrival `k`, counted from 0.
    pub fn moment(&self, k: u64) -> u64
        requires limits { IsWithinLimits (timetable_of self.now) }
        requires planned { IsPlanned (timetable_of self.now) k }
        ensures moment { result ≡ moment_of (timetable_of self.now) k }
        ensures before { result < end_of (timetable_of self.now) }
    {
        match self {
            Rates::Constant(rate) => rate.moment(k),
            Rates::Ramping(rate) => rate.moment(k as u128),
        }
    }
}
