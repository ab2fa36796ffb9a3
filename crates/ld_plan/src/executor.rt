// What the executor of a scenario says of the whole test.
ghost use Rattle.std.specs.Prelude.{◌≡◌};
ghost use Rattle.ld_options.specs.Ranges.{IsInRange};
ghost use Rattle.ld_plan.specs.Executor.{length_of};

use crate::stages_length::stages_length;
use ld_options::Executor;

// How long iterations begin, in nanoseconds from the scenario's begin.
pub fn length_of(executor: &Executor) -> u64
    requires { IsInRange executor.now }
    ensures { result ≡ length_of executor.now }
{
    match executor {
        Executor::SharedIterations { max_duration, .. } => *max_duration,
        Executor::PerVuIterations { max_duration, .. } => *max_duration,
        Executor::ConstantVus { duration, .. } => *duration,
        Executor::ConstantArrivals { duration, .. } => *duration,
        Executor::RampingArrivals { stages, .. } => stages_length(stages.as_slice()),
    }
}
