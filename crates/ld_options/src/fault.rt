ghost use Rattle.std.specs.Prelude.{◌≡◌};
ghost use Rattle.ld_options.specs.Faults.{of_json, of_script};
ghost use Rattle.ld_options.specs.declared.fault.OptionsFault.TheVariants.{Memory};

use ld_base::BaseFault;
use ld_json::{JsonFault, Path};
use ld_num::NumFault;
use ld_script::ScriptFault;
use std::alloc::AllocError;
use thiserror::Error;

/// Why a text has no options.
#[derive(Debug, Drop, Error)]
pub enum OptionsFault {
    /// The text is no JSON, or has a number that is no whole number below 2^64.
    #[error("the text is no JSON of whole numbers")]
    NotJson,
    /// An object has no member where one is needed: the path of that member.
    #[error("a member is missing")]
    Missing(Path),
    /// A value is of another kind than the one asked for: its path.
    #[error("a value is of another kind")]
    WrongKind(Path),
    /// An object has a member of a name that it may not have: the path of that member.
    #[error("a member is unknown")]
    Unknown(Path),
    /// This scenario or script has no name of 1 to 64 letters, digits, `_` and `-`.
    #[error("a name has other letters, or too many or none")]
    BadName(Path),
    /// This field, `executor`, names none.
    #[error("no executor has this name")]
    BadExecutor(Path),
    /// This number, or this number of members, is out of its range.
    #[error("a number is out of its range")]
    Range(Path),
    /// This list, `stages`, has no stage.
    #[error("there are no stages")]
    NoStages(Path),
    /// This field, `maxVUs`, is below `preAllocatedVUs`.
    #[error("there are fewer users than are made before")]
    MaxBelowPre(Path),
    /// This field, `exec`, names no script.
    #[error("no script has this name")]
    ScriptUnknown(Path),
    /// This field is no span of time.
    #[error("{fault}")]
    Number {
        /// The field's path.
        path: Path,
        /// Why its text is no span of time.
        fault: NumFault,
    },
    /// There is no memory left.
    #[error("out of memory")]
    Memory,
}

impl From<AllocError> for OptionsFault {
    ghost from_gives = { λ _ fault. fault ≡ Memory };

    fn from(_error: AllocError) -> OptionsFault {
        OptionsFault::Memory
    }
}

impl From<BaseFault> for OptionsFault {
    ghost from_gives = { λ _ fault. fault ≡ Memory };

    fn from(_error: BaseFault) -> OptionsFault {
        OptionsFault::Memory
    }
}

impl From<JsonFault> for OptionsFault {
    ghost from_gives = { λ cause fault. fault ≡ of_json cause };

    fn from(fault: JsonFault) -> OptionsFault {
        match fault {
            JsonFault::NotJson => OptionsFault::NotJson,
            JsonFault::Missing(path) => OptionsFault::Missing(path),
            JsonFault::WrongKind(path) => OptionsFault::WrongKind(path),
            JsonFault::Unknown(path) => OptionsFault::Unknown(path),
            JsonFault::Memory => OptionsFault::Memory,
        }
    }
}

impl From<ScriptFault> for OptionsFault {
    ghost from_gives = { λ cause fault. fault ≡ of_script cause };

    fn from(fault: ScriptFault) -> OptionsFault {
        match fault {
            ScriptFault::NotJson => OptionsFault::NotJson,
            ScriptFault::Missing(path) => OptionsFault::Missing(path),
            ScriptFault::WrongKind(path) => OptionsFault::WrongKind(path),
            ScriptFault::Unknown(path) => OptionsFault::Unknown(path),
            ScriptFault::BadName(path) => OptionsFault::BadName(path),
            ScriptFault::Range(path) => OptionsFault::Range(path),
            ScriptFault::Number { path, fault } => OptionsFault::Number { path, fault },
            ScriptFault::Memory => OptionsFault::Memory,
        }
    }
}
