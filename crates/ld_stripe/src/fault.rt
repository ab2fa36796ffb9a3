ghost use Rattle.std.specs.Prelude.{◌≡◌};
ghost use Rattle.ld_stripe.specs.declared.fault.StripeFault.TheVariants.{Memory};

use std::alloc::AllocError;
use thiserror::Error;

/// Why weights have no striping here.
#[derive(Debug, Drop, PartialEq, Eq, Error)]
pub enum StripeFault {
    /// There are no weights.
    #[error("there are no weights")]
    NoWeights,
    /// There are more than 100 weights.
    #[error("there are more than 100 weights")]
    TooMany,
    /// The weight at this position, counted from 0, is zero. It is the first such position.
    #[error("the weight at position {0} is zero")]
    ZeroWeight(usize),
    /// The pattern repeats only after this many indices, which is more than 100,000. The number is
    /// 2^64 - 1 where the period is more than that.
    #[error("the pattern repeats only after {0} indices")]
    PeriodTooLarge(u64),
    /// There is no memory left.
    #[error("out of memory")]
    Memory,
}

impl From<AllocError> for StripeFault {
    ghost from_gives = { λ _ fault. fault ≡ Memory };

    fn from(_error: AllocError) -> StripeFault {
        StripeFault::Memory
    }
}
