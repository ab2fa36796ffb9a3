ghost use Rattle.std.specs.Prelude.{◌≡◌};
ghost use Rattle.ld_base.specs.declared.fault.BaseFault.TheVariants.{Memory};

use std::alloc::AllocError;
use thiserror::Error;

/// Why a call of this crate failed: its only cause is want of memory.
#[derive(Clone, Copy, Debug, PartialEq, Eq, Error)]
pub enum BaseFault {
    /// The allocator gave no memory.
    #[error("out of memory")]
    Memory,
}

impl From<AllocError> for BaseFault {
    ghost from_gives = { λ _ fault. fault ≡ Memory };

    fn from(_error: AllocError) -> BaseFault {
        BaseFault::Memory
    }
}
