ghost use Rattle.std.specs.Prelude.{◌≡◌, IfOk};

use crate::kind::Kind;
use ld_base::Stages;
use std::alloc::{AllocError, Global};

/// How the iterations of a scenario are planned, as k6's executors
/// (<https://grafana.com/docs/k6/latest/using-k6/scenarios/executors/>).
#[derive(Drop)]
pub enum Executor {
    /// `shared-iterations`: all users share one number of iterations, and who is idle takes the next one.
    SharedIterations {
        /// How many users there are, `vus`: from 1 to 1,000.
        vus: u32,
        /// How many iterations all users share, `iterations`: from 1 to 400,000.
        iterations: u64,
        /// How long iterations begin at most, `maxDuration`, in nanoseconds: above 0, and at most 30 days.
        max_duration: u64,
    },
    /// `per-vu-iterations`: each user has the same number of iterations.
    PerVuIterations {
        /// How many users there are, `vus`: from 1 to 1,000.
        vus: u32,
        /// How many iterations each user has, `iterations`: from 1, and at most 400,000 for all users together.
        iterations: u64,
        /// How long iterations begin at most, `maxDuration`, in nanoseconds: above 0, and at most 30 days.
        max_duration: u64,
    },
    /// `constant-vus`: each user begins one iteration after another.
    ConstantVus {
        /// How many users there are, `vus`: from 1 to 1,000.
        vus: u32,
        /// How long iterations begin, `duration`, in nanoseconds: above 0, and at most 30 days.
        duration: u64,
    },
    /// `constant-arrival-rate`: iterations begin at a constant rate, whether earlier ones have
    /// ended or not.
    ConstantArrivals {
        /// How many iterations begin in each unit of time, `rate`: from 1 to 1,000,000.
        rate: u64,
        /// The unit of time, `timeUnit`, in nanoseconds: above 0, and at most 1 day.
        unit: u64,
        /// How long iterations begin, `duration`, in nanoseconds: above 0, and at most 30 days.
        duration: u64,
        /// How many users are made before the scenario begins, `preAllocatedVUs`: at most 1,000.
        pre: u32,
        /// How many users there may be, `maxVUs`: from 1 to 1,000, and not below `pre`.
        max: u32,
    },
    /// `ramping-arrival-rate`: iterations begin at a rate that changes in stages, whether earlier ones
    /// have ended or not.
    RampingArrivals {
        /// How many iterations begin in each unit of time at the begin, `startRate`: at most 1,000,000.
        start_rate: u64,
        /// The unit of time, `timeUnit`, in nanoseconds: above 0, and at most 1 day.
        unit: u64,
        /// The stages, `stages`: from 1 to 100, with targets of at most 1,000,000 in each unit of time,
        /// and together no longer than 30 days.
        stages: Stages,
        /// How many users are made before the scenario begins, `preAllocatedVUs`: at most 1,000.
        pre: u32,
        /// How many users there may be, `maxVUs`: from 1 to 1,000, and not below `pre`.
        max: u32,
    },
}

impl Executor {
    ghost use Rattle.ld_options.specs.Executors.{executor_kind, executor_name};

    /// The name that k6 gives the executor. Takes no memory.
    pub fn name(&self) -> &'static str
        ensures { result.now ≡ executor_name self.now }
    {
        self.kind().name()
    }

    // The kind of the executor.
    fn kind(&self) -> Kind
        ensures { result ≡ executor_kind self.now }
    {
        match self {
            Executor::SharedIterations { .. } => Kind::SharedIterations,
            Executor::PerVuIterations { .. } => Kind::PerVuIterations,
            Executor::ConstantVus { .. } => Kind::ConstantVus,
            Executor::ConstantArrivals { .. } => Kind::ConstantArrivals,
            Executor::RampingArrivals { .. } => Kind::RampingArrivals,
        }
    }

    // An equal executor.
    pub(crate) fn copy(&self, alloc: Global) -> Result<Executor, AllocError>
        ensures { IfOk result (λ executor. executor ≡ self.now) }
    {
        match self {
            Executor::SharedIterations {
                vus,
                iterations,
                max_duration,
            } => Ok(Executor::SharedIterations {
                vus: *vus,
                iterations: *iterations,
                max_duration: *max_duration,
            }),
            Executor::PerVuIterations {
                vus,
                iterations,
                max_duration,
            } => Ok(Executor::PerVuIterations {
                vus: *vus,
                iterations: *iterations,
                max_duration: *max_duration,
            }),
            Executor::ConstantVus { vus, duration } => Ok(Executor::ConstantVus {
                vus: *vus,
                duration: *duration,
            }),
            Executor::ConstantArrivals {
                rate,
                unit,
                duration,
                pre,
                max,
            } => Ok(Executor::ConstantArrivals {
                rate: *rate,
                unit: *unit,
                duration: *duration,
                pre: *pre,
                max: *max,
            }),
            Executor::RampingArrivals {
                start_rate,
                unit,
                stages,
                pre,
                max,
            } => Ok(Executor::RampingArrivals {
                start_rate: *start_rate,
                unit: *unit,
                stages: copy_of(alloc, stages)?,
                pre: *pre,
                max: *max,
            }),
        }
    }
}

// Equal stages.
fn copy_of(alloc: Global, stages: &Stages) -> Result<Stages, AllocError>
    ensures { IfOk result (λ copy. copy ≡ stages.now) }
{
    Ok(Stages::of(Vec::from_slice(alloc, stages.as_slice())?))
}
