ghost use Rattle.std.specs.Prelude.{◌≡◌};
ghost use Rattle.ld_ramping.specs.declared.fault.ExecFault.TheVariants.{Memory};

use std::alloc::AllocError;
use thiserror::Error;

/// Why the intervals of a scenario or its state can't be made.
#[derive(Debug, Drop, PartialEq, Eq, Error)]
pub enum ExecFault {
    /// There is no memory left.
    #[error("out of memory")]
    Memory,
}

impl From<AllocError> for ExecFault {
    ghost from_gives = { λ _ fault. fault ≡ Memory };

    fn from(_error: AllocError) -> ExecFault {
        ExecFault::Memory
    }
}
