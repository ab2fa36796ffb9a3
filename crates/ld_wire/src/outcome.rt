// What a step of the reading makes of the reader.
ghost use Rattle.std.specs.Prelude.{◌≡◌};
ghost use Rattle.ld_wire.specs.Reader.{feed_of, stage_behind};

use crate::fault::WireFault;
use crate::feed::Feed;
use crate::stage::{Advance, Stage};

// Where the reading stands behind a step.
pub fn stage_behind(step: Result<Advance, WireFault>) -> Stage
    ensures { result ≡ stage_behind step }
{
    match step {
        Ok(advance) => advance.stage,
        Err(fault) => Stage::Refused(fault),
    }
}

// What a step answers.
pub fn feed_of(step: Result<Advance, WireFault>) -> Result<Feed, WireFault>
    ensures { result ≡ feed_of step }
{
    match step {
        Ok(advance) if advance.stage == Stage::Whole => Ok(Feed::Whole { used: advance.used }),
        Ok(_) => Ok(Feed::Again),
        Err(fault) => Err(fault),
    }
}
