ghost use Rattle.std.specs.Prelude.{◌≡◌};
ghost use Rattle.ld_words.specs.declared.fault.WordsFault.TheVariants.{Memory};

use std::alloc::AllocError;
use thiserror::Error;

/// Why the words of a command line aren't read.
#[derive(Debug, Drop, PartialEq, Eq, Error)]
pub enum WordsFault {
    /// The word at this place, counted from 0, can't stand there, or the words end before it.
    #[error("the words are refused at place {0}")]
    Refused(usize),
    /// There is no memory left.
    #[error("out of memory")]
    Memory,
}

impl From<AllocError> for WordsFault {
    ghost from_gives = { λ _ fault. fault ≡ Memory };

    fn from(_error: AllocError) -> WordsFault {
        WordsFault::Memory
    }
}
