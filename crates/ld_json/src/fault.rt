ghost use Rattle.std.specs.Prelude.{◌≡◌};
ghost use Rattle.ld_json.specs.declared.fault.JsonFault.TheVariants.{Memory};

use crate::path::Path;
use ld_base::BaseFault;
use std::alloc::AllocError;
use thiserror::Error;

/// Why a document isn't read, or isn't as it is asked to be.
#[derive(Debug, Drop, Error)]
pub enum JsonFault {
    /// The text is no JSON, or has a number that is no whole number below 2^64.
    #[error("the text is no JSON of whole numbers")]
    NotJson,
    /// An object has no member where one is needed: the path of that member.
    #[error("a member is missing")]
    Missing(Path),
    /// A value is of another kind than the one asked for: its path.
    #[error("a value is of another kind")]
    WrongKind(Path),
    /// An object has a member of a name that it may not have: the path of that member.
    #[error("a member is unknown")]
    Unknown(Path),
    /// The allocator gave no memory.
    #[error("out of memory")]
    Memory,
}

impl From<AllocError> for JsonFault {
    ghost from_gives = { λ _ fault. fault ≡ Memory };

    fn from(_error: AllocError) -> JsonFault {
        JsonFault::Memory
    }
}

impl From<BaseFault> for JsonFault {
    ghost from_gives = { λ _ fault. fault ≡ Memory };

    fn from(_error: BaseFault) -> JsonFault {
        JsonFault::Memory
    }
}
