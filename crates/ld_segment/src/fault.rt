ghost use Rattle.std.specs.Prelude.{◌≡◌};
ghost use Rattle.ld_segment.specs.declared.fault.SegmentFault.TheVariants.{Memory};

use ld_num::NumFault;
use std::alloc::AllocError;
use thiserror::Error;

/// Why a text is no segment or sequence here, or a sequence has no weights. Places of values count
/// from 0; in a segment written `x`, which is short for `0:x`, the value has the place 1.
#[derive(Debug, Drop, PartialEq, Eq, Error)]
pub enum SegmentFault {
    /// The value at this place is no fraction.
    #[error("the value at place {at} is refused: {fault}")]
    Number { at: usize, fault: NumFault },
    /// The value at this place has a sign.
    #[error("the value at place {0} is below zero")]
    BelowZero(usize),
    /// The value at this place isn't above the one before it.
    #[error("the value at place {0} isn't above the one before it")]
    NotLess(usize),
    /// The value at this place is above one.
    #[error("the value at place {0} is above one")]
    AboveOne(usize),
    /// The segment at this place doesn't begin where the one before it ends.
    #[error("the segment at place {0} doesn't begin where the one before it ends")]
    Gap(usize),
    /// A sequence has two points or more.
    #[error("there are fewer than two points")]
    FewPoints,
    /// The pattern of the sequence repeats only after this many indices, which is more than 100,000.
    /// The number is 2^64 - 1 where the period is more than that.
    #[error("the pattern repeats only after {0} indices")]
    PeriodTooLarge(u64),
    /// The filled sequence has more than 100 segments.
    #[error("there are more than 100 segments")]
    TooMany,
    /// There is no memory left.
    #[error("out of memory")]
    Memory,
}

impl From<AllocError> for SegmentFault {
    ghost from_gives = { λ _ fault. fault ≡ Memory };

    fn from(_error: AllocError) -> SegmentFault {
        SegmentFault::Memory
    }
}
