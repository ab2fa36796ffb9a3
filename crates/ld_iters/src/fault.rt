ghost use Rattle.std.specs.Prelude.{◌≡◌};
ghost use Rattle.ld_iters.specs.declared.fault.ExecFault.TheVariants.{Memory};

use std::alloc::AllocError;
use thiserror::Error;

/// Why a scenario can't be set up.
#[derive(Debug, Drop, PartialEq, Eq, Error)]
pub enum ExecFault {
    /// There is no memory left.
    #[error("out of memory")]
    Memory,
}

impl From<AllocError> for ExecFault {
    ghost from_gives = { λ _ fault. fault ≡ Memory };

    fn from(_error: AllocError) -> ExecFault {
        ExecFault::Memory
    }
}
