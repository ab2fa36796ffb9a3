ghost use Rattle.std.specs.Prelude.{◌≡◌};
ghost use Rattle.ld_num.specs.declared.fault.NumFault.TheVariants.{Memory};

use std::alloc::AllocError;
use thiserror::Error;

/// Why a text is no number here.
#[derive(Debug, Drop, PartialEq, Eq, Error)]
pub enum NumFault {
    /// The text is empty.
    #[error("there is no number")]
    Empty,
    /// The text isn't written as a number is.
    #[error("this is no number")]
    BadDigit,
    /// The number is divided by zero.
    #[error("the number is divided by zero")]
    ZeroDenominator,
    /// The number is too large, or has too many digits.
    #[error("the number is too large")]
    TooLarge,
    /// No unit has this name.
    #[error("no unit has this name")]
    BadUnit,
    /// A part is no whole number of nanoseconds.
    #[error("a part is no whole number of nanoseconds")]
    NotWhole,
    /// There is no memory left.
    #[error("out of memory")]
    Memory,
}

impl From<AllocError> for NumFault {
    ghost from_gives = { λ _ fault. fault ≡ Memory };

    fn from(_error: AllocError) -> NumFault {
        NumFault::Memory
    }
}
