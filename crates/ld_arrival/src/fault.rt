ghost use Rattle.std.specs.Prelude.{◌≡◌};
ghost use Rattle.ld_arrival.specs.declared.fault.ArrivalFault.TheVariants.{Memory};

use std::alloc::AllocError;
use thiserror::Error;

/// Why arrivals can't be planned so.
#[derive(Debug, Drop, PartialEq, Eq, Error)]
pub enum ArrivalFault {
    /// A rate is over 1,000,000, or a constant one is zero.
    #[error("the rate is out of range")]
    RateRange,
    /// The unit is zero or over 1 day, a constant rate's duration is zero, or arrivals last over 30 days.
    #[error("the unit or the duration is out of range")]
    DurationRange,
    /// So many arrivals are planned, which is more than 400,000. The number is 2^64 - 1 where they
    /// are more than that.
    #[error("there are {0} arrivals, which is too many")]
    TooManyArrivals(u64),
    /// There is no memory left.
    #[error("out of memory")]
    Memory,
}

impl From<AllocError> for ArrivalFault {
    ghost from_gives = { λ _ fault. fault ≡ Memory };

    fn from(_error: AllocError) -> ArrivalFault {
        ArrivalFault::Memory
    }
}
