// Arrivals at a rate that ramps through stages.
ghost use Rattle.std.specs.Prelude.{◌≡◌, ◌<◌, ◌≤◌, ◌↔◌, IsTrue, Any, length};
ghost use Rattle.ld_arrival.specs.Limits.{greatest_rate};
ghost use Rattle.ld_arrival.specs.Ramp.{ramp_length, reached_at};
ghost use Rattle.ld_arrival.specs.RampStage.{AreSmallStages, most_wanted};

use crate::limits::GREATEST_RATE;
use crate::ramp_stage::RampStage;
use ld_base::Stage;

// The moment at which stages have reached `wanted`, in nanoseconds from their begin; the end, where none does.
pub fn reached_at(start_rate: u64, wanted: u128, stages: &[Stage]) -> u64
    requires small { AreSmallStages start_rate stages.now }
    requires wanted { wanted ≤ most_wanted }
    ensures { result ≡ reached_at start_rate 0 wanted stages.now }
{
    let mut begin = 0;
    let mut rate = start_rate;
    let mut done = 0;
    for stage in stages {
        let ramp = RampStage {
            rate,
            done,
            stage: *stage,
        };
        if let Some(t) = ramp.first_reached(wanted) {
            return begin + t;
        }
        begin += stage.length;
        rate = stage.target;
        done = ramp.sum();
    }
    begin
}

// Whether the target of a stage is over the limit.
pub fn has_fast_stage(stages: &[Stage]) -> bool
    ensures { IsTrue result ↔ Any (λ stage. greatest_rate < stage.target) stages.now }
{
    stages.iter().any(|stage| stage.target > GREATEST_RATE)
}

// The length of all stages, in nanoseconds.
pub fn length_of(stages: &[Stage]) -> u128
    requires { length stages.now ≤ 100 }
    ensures { result ≡ ramp_length stages.now }
{
    let mut total = 0;
    for stage in stages {
        total += stage.length as u128;
    }
    total
}
