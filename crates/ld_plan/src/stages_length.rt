// How long the stages of a ramp are.
ghost use Rattle.std.specs.Prelude.{◌≡◌, ◌≤◌};
ghost use Rattle.ld_arrival.specs.Ramp.{ramp_length};
ghost use Rattle.ld_options.specs.Ranges.{longest};

use ld_base::Stage;

// The length of all stages, in nanoseconds.
pub fn stages_length(stages: &[Stage]) -> u64
    requires { ramp_length stages.now ≤ longest }
    ensures { result ≡ ramp_length stages.now }
{
    let mut length = 0;
    for stage in stages {
        length += stage.length;
    }
    length
}
