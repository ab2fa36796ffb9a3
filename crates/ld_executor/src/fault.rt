ghost use Rattle.std.specs.Prelude.{◌≡◌};
ghost use Rattle.ld_executor.specs.declared.fault.ExecutorFault.TheVariants.{Memory};

use ld_iters::ExecFault as ItersFault;
use ld_plan::PlanFault;
use ld_rates::ExecFault;
use thiserror::Error;

/// Why a scenario's state can't be made.
#[derive(Debug, Drop, PartialEq, Eq, Error)]
pub enum ExecutorFault {
    /// There is no memory left.
    #[error("out of memory")]
    Memory,
}

impl From<PlanFault> for ExecutorFault {
    ghost from_gives = { λ _ fault. fault ≡ Memory };

    fn from(_fault: PlanFault) -> ExecutorFault {
        ExecutorFault::Memory
    }
}

impl From<ExecFault> for ExecutorFault {
    ghost from_gives = { λ _ fault. fault ≡ Memory };

    fn from(_fault: ExecFault) -> ExecutorFault {
        ExecutorFault::Memory
    }
}

impl From<ItersFault> for ExecutorFault {
    ghost from_gives = { λ _ fault. fault ≡ Memory };

    fn from(_fault: ItersFault) -> ExecutorFault {
        ExecutorFault::Memory
    }
}
