ghost use Rattle.std.specs.Prelude.{◌≡◌};
ghost use Rattle.ld_plan.specs.declared.fault.PlanFault.TheVariants.{Memory};

use std::alloc::AllocError;
use thiserror::Error;

/// Why a segment of a test has no plan.
#[derive(Debug, Drop, PartialEq, Eq, Error)]
pub enum PlanFault {
    /// The segment is none of the sequence.
    #[error("the segment isn't in the sequence")]
    NotInSequence,
    /// The pattern of the sequence repeats only after this many indices, which is more than 100,000.
    /// The number is 2^64 - 1 where the period is more than that.
    #[error("the pattern repeats only after {0} indices")]
    PeriodTooLarge(u64),
    /// The scenario with this number, from 0 in byte order of the names, plans so many arrivals over
    /// the whole test, which is more than 400,000. It is the first such scenario, and the count is
    /// 2^64 - 1 where they are more than that.
    #[error("scenario {scenario} has {count} arrivals, which is too many")]
    TooManyArrivals { scenario: u16, count: u64 },
    /// All scenarios together may have so many users at one moment of the whole test, which is more than
    /// 1,000.
    #[error("there may be {0} users at once, which is too many")]
    TooManyUsers(u32),
    /// A journal of the owned items may need so many entries, which is more than the limit.
    #[error("a journal needs {needed} entries, and has room for {limit}")]
    JournalTooSmall { needed: u64, limit: u32 },
    /// There is no memory left.
    #[error("out of memory")]
    Memory,
}

impl From<AllocError> for PlanFault {
    ghost from_gives = { λ _ fault. fault ≡ Memory };

    fn from(_error: AllocError) -> PlanFault {
        PlanFault::Memory
    }
}
