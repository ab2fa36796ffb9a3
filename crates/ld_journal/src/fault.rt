ghost use Rattle.std.specs.Prelude.{◌≡◌};
ghost use Rattle.ld_journal.specs.declared.fault.JournalFault.TheVariants.{Memory};

use ld_base::BaseFault;
use std::alloc::AllocError;
use thiserror::Error;

/// Why a journal isn't written: the only cause is want of memory.
#[derive(Clone, Copy, Debug, PartialEq, Eq, Error)]
pub enum JournalFault {
    /// There is no memory left.
    #[error("out of memory")]
    Memory,
}

impl From<AllocError> for JournalFault {
    ghost from_gives = { λ _ fault. fault ≡ Memory };

    fn from(_error: AllocError) -> JournalFault {
        JournalFault::Memory
    }
}

impl From<BaseFault> for JournalFault {
    ghost from_gives = { λ _ fault. fault ≡ Memory };

    fn from(_fault: BaseFault) -> JournalFault {
        JournalFault::Memory
    }
}
