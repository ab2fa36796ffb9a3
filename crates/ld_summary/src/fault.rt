ghost use Rattle.std.specs.Prelude.{◌≡◌};
ghost use Rattle.ld_summary.specs.declared.fault.SummaryFault.TheVariants.{Memory};

use ld_base::BaseFault;
use std::alloc::AllocError;
use thiserror::Error;

/// Why there is no summary, or no text of a plan: the only cause is want of memory.
#[derive(Clone, Copy, Debug, PartialEq, Eq, Error)]
pub enum SummaryFault {
    /// There is no memory left.
    #[error("out of memory")]
    Memory,
}

impl From<AllocError> for SummaryFault {
    ghost from_gives = { λ _ fault. fault ≡ Memory };

    fn from(_error: AllocError) -> SummaryFault {
        SummaryFault::Memory
    }
}

impl From<BaseFault> for SummaryFault {
    ghost from_gives = { λ _ fault. fault ≡ Memory };

    fn from(_fault: BaseFault) -> SummaryFault {
        SummaryFault::Memory
    }
}
