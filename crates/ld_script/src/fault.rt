ghost use Rattle.std.specs.Prelude.{◌≡◌};
ghost use Rattle.ld_script.specs.Fault.{of_json};
ghost use Rattle.ld_script.specs.declared.fault.ScriptFault.TheVariants.{Memory};

use ld_base::BaseFault;
use ld_json::{JsonFault, Path};
use ld_num::NumFault;
use std::alloc::AllocError;
use thiserror::Error;

/// Why scripts aren't read.
#[derive(Debug, Drop, Error)]
pub enum ScriptFault {
    /// The text is no JSON, or has a number that is no whole number below 2^64.
    #[error("the text is no JSON of whole numbers")]
    NotJson,
    /// An object has no member where one is needed: the path of that member.
    #[error("a member is missing")]
    Missing(Path),
    /// A value is of another kind than the one that stands there: its path.
    #[error("a value is of another kind")]
    WrongKind(Path),
    /// An object has a member of a name that it may not have: the path of that member.
    #[error("a member is unknown")]
    Unknown(Path),
    /// A script's name is none: the path of the script.
    #[error("a name isn't 1 to 64 letters, digits, `_` and `-`")]
    BadName(Path),
    /// A value is out of its range, or a list or an object has too many items: its path.
    #[error("a value is out of range")]
    Range(Path),
    /// A value is no span of time.
    #[error("{fault}")]
    Number {
        /// The value's path.
        path: Path,
        /// Why its text is no span of time.
        fault: NumFault,
    },
    /// The allocator gave no memory.
    #[error("out of memory")]
    Memory,
}

impl From<JsonFault> for ScriptFault {
    ghost from_gives = { λ error fault. fault ≡ of_json error };

    fn from(error: JsonFault) -> ScriptFault {
        match error {
            JsonFault::NotJson => ScriptFault::NotJson,
            JsonFault::Missing(path) => ScriptFault::Missing(path),
            JsonFault::WrongKind(path) => ScriptFault::WrongKind(path),
            JsonFault::Unknown(path) => ScriptFault::Unknown(path),
            JsonFault::Memory => ScriptFault::Memory,
        }
    }
}

impl From<BaseFault> for ScriptFault {
    ghost from_gives = { λ _ fault. fault ≡ Memory };

    fn from(_error: BaseFault) -> ScriptFault {
        ScriptFault::Memory
    }
}

impl From<AllocError> for ScriptFault {
    ghost from_gives = { λ _ fault. fault ≡ Memory };

    fn from(_error: AllocError) -> ScriptFault {
        ScriptFault::Memory
    }
}
