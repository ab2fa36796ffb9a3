ghost use Rattle.std.specs.Prelude.{◌≡◌};
ghost use Rattle.ld_pool.specs.declared.fault.PoolFault.TheVariants.{Memory};

use std::alloc::AllocError;
use thiserror::Error;

/// Why no pool was made: its only cause is want of memory.
#[derive(Clone, Copy, Debug, PartialEq, Eq, Error)]
pub enum PoolFault {
    /// The allocator gave no memory.
    #[error("out of memory")]
    Memory,
}

impl From<AllocError> for PoolFault {
    ghost from_gives = { λ _ fault. fault ≡ Memory };

    fn from(_error: AllocError) -> PoolFault {
        PoolFault::Memory
    }
}
