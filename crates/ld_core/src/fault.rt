ghost use Rattle.std.specs.Prelude.{◌≡◌};
ghost use Rattle.ld_core.specs.declared.fault.CoreFault.TheVariants.{Memory};

use ld_base::BaseFault;
use ld_executor::ExecutorFault;
use ld_pool::PoolFault;
use std::alloc::AllocError;
use thiserror::Error;

/// Why there is no core.
#[derive(Debug, Drop, PartialEq, Eq, Error)]
pub enum CoreFault {
    /// There is no memory left.
    #[error("out of memory")]
    Memory,
}

impl From<AllocError> for CoreFault {
    ghost from_gives = { λ _ fault. fault ≡ Memory };

    fn from(_fault: AllocError) -> CoreFault {
        CoreFault::Memory
    }
}

impl From<BaseFault> for CoreFault {
    ghost from_gives = { λ _ fault. fault ≡ Memory };

    fn from(_fault: BaseFault) -> CoreFault {
        CoreFault::Memory
    }
}

impl From<PoolFault> for CoreFault {
    ghost from_gives = { λ _ fault. fault ≡ Memory };

    fn from(_fault: PoolFault) -> CoreFault {
        CoreFault::Memory
    }
}

impl From<ExecutorFault> for CoreFault {
    ghost from_gives = { λ _ fault. fault ≡ Memory };

    fn from(_fault: ExecutorFault) -> CoreFault {
        CoreFault::Memory
    }
}
