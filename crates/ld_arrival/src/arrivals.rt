ghost use Rattle.std.specs.Prelude.{◌≡◌, ◌-◌, ◌^◌, min};

use crate::constant_rate::ConstantRate;
use crate::fault::ArrivalFault;
use crate::ramping_rate::RampingRate;
use crate::rates::Rates;
use ld_base::Stage;
use std::alloc::{AllocError, Global};
use std::marker::Model;

/// The most arrivals that may be planned.
const MOST_ARRIVALS: u128 = 400_000;

/// The arrivals of a test: how many are planned, at most 400,000, and when each is due. They are seen
/// as their timetable.
#[derive(Drop)]
pub struct Arrivals {
    rates: Rates,
    count: u64,
}

impl Model for Arrivals {
    ghost use Rattle.ld_arrival.specs.Timetable.{Timetable};

    ghost Value = { Timetable };

    ghost use Rattle.ld_arrival.specs.Rates.{timetable_of, IsCounted};

    ghost view = { λ a. timetable_of a.rates };

    ghost invariant = { λ a. IsCounted (timetable_of a.rates) a.count };
}

impl Arrivals {
    ghost use Rattle.std.specs.Prelude.{◌≡◌, ◌≢◌, ◌<◌, ◌≤◌, ◌↔◌, ℕ, IfOk, IfErr, length};
    ghost use Rattle.ld_arrival.specs.Timetable.{Constant, Ramping, IsPlanned, moment_of, end_of, planned_count};
    ghost use Rattle.ld_arrival.specs.Limits.{IsWithinLimits, most_arrivals};
    ghost use Rattle.ld_arrival.specs.ArrivalFault.{IsRefusal};
    ghost use Rattle.ld_arrival.specs.declared.fault.ArrivalFault.{ArrivalFault};

    /// Arrivals at a constant rate: `rate` in each `unit`, from the begin on for `duration`, both in
    /// nanoseconds.
    ///
    /// Refused are, in this order, a rate that isn't from 1 to 1,000,000; a unit that isn't above 0
    /// and at most 1 day, or a duration that isn't above 0 and at most 30 days; and more than 400,000
    /// planned arrivals.
    pub fn constant(
        _alloc: Global,
        rate: u64,
        unit: u64,
        duration: u64,
    ) -> Result<Arrivals, ArrivalFault>
        ensures timetable { IfOk result (λ arrivals. arrivals ≡ Constant rate unit duration) }
        ensures accepted { IfOk result (λ _. (f : ArrivalFault) → IsRefusal (Constant rate unit duration) f → ⊥) }
        ensures refused { IfErr result (λ f. f ≢ ArrivalFault.Memory → IsRefusal (Constant rate unit duration) f) }
    {
        let rate = ConstantRate {
            rate,
            unit,
            duration,
        };
        rate.check()?;
        let count = rate.count();
        if count > MOST_ARRIVALS {
            return Err(ArrivalFault::TooManyArrivals(capped(count)));
        }
        let count = count as u64;
        Ok(Arrivals {
            rates: Rates::Constant(rate),
            count,
        })
    }

    /// Arrivals at a rate that goes in a straight line from `start_rate` to the target of the first
    /// stage, reached at its end, and on from there to the next; a stage of length 0 jumps. Rates are
    /// arrivals in each `unit`, which is in nanoseconds. There are at most 100 stages.
    ///
    /// Refused are, in this order, a rate over 1,000,000; a unit that isn't above 0 and at most 1 day,
    /// or stages that together last more than 30 days; and more than 400,000 planned arrivals. Fails
    /// also where there is no memory for the stages.
    pub fn ramping(
        alloc: Global,
        start_rate: u64,
        unit: u64,
        stages: &[Stage],
    ) -> Result<Arrivals, ArrivalFault>
        requires { length stages.now ≤ 100 }
        ensures timetable { IfOk result (λ arrivals. arrivals ≡ Ramping start_rate unit stages.now) }
        ensures accepted { IfOk result (λ _. (f : ArrivalFault) → IsRefusal (Ramping start_rate unit stages.now) f → ⊥) }
        ensures refused { IfErr result (λ f. f ≢ ArrivalFault.Memory → IsRefusal (Ramping start_rate unit stages.now) f) }
    {
        let rate = RampingRate {
            start_rate,
            unit,
            stages: Vec::from_slice(alloc, stages)?,
        };
        rate.check()?;
        let count = rate.count();
        if count > MOST_ARRIVALS {
            return Err(ArrivalFault::TooManyArrivals(capped(count)));
        }
        let count = count as u64;
        Ok(Arrivals {
            rates: Rates::Ramping(rate),
            count,
        })
    }

    /// Equal arrivals. Fails where there is no memory.
    pub fn copy(&self, alloc: Global) -> Result<Arrivals, AllocError>
        ensures { IfOk result (λ arrivals. arrivals ≡ self.now) }
    {
        Ok(Arrivals {
            rates: self.rates.copy(alloc)?,
            count: self.count,
        })
    }

    /// How many arrivals are planned, at most 400,000: those below this number are.
    pub fn count(&self) -> u64
        ensures count { result ≡ planned_count self.now }
        ensures planned { (k : ℕ) → IsPlanned self.now k ↔ (k < result) }
        ensures few { result ≤ most_arrivals }
        ensures limits { IsWithinLimits self.now }
    {
        self.count
    }

    /// The moment at which arrival `k`, counted from 0, is due, in nanoseconds from the scenario's
    /// begin.
    pub fn moment(&self, k: u64) -> u64
        requires { k < planned_count self.now }
        ensures moment { result ≡ moment_of self.now k }
        ensures before { result < end_of self.now }
    {
        self.rates.moment(k)
    }
}

// The number, or the greatest `u64` where that is less.
fn capped(number: u128) -> u64
    ensures { result ≡ min number (2 ^ 64 - 1) }
{
    u64::try_from(number).unwrap_or(u64::MAX)
}
