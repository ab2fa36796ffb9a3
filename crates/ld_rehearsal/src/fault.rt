ghost use Rattle.std.specs.Prelude.{◌≡◌};
ghost use Rattle.ld_rehearsal.specs.declared.fault.RehearsalFault.TheVariants.{Memory};

use ld_core::CoreFault;
use std::alloc::AllocError;
use thiserror::Error;

/// Why there is no rehearsal.
#[derive(Debug, Drop, PartialEq, Eq, Error)]
pub enum RehearsalFault {
    /// There is no memory left.
    #[error("out of memory")]
    Memory,
}

impl From<AllocError> for RehearsalFault {
    ghost from_gives = { λ _ fault. fault ≡ Memory };

    fn from(_fault: AllocError) -> RehearsalFault {
        RehearsalFault::Memory
    }
}

impl From<CoreFault> for RehearsalFault {
    ghost from_gives = { λ _ fault. fault ≡ Memory };

    fn from(_fault: CoreFault) -> RehearsalFault {
        RehearsalFault::Memory
    }
}
