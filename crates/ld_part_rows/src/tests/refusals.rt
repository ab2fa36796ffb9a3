// Refusals of documents, as texts.

use crate::tests::table::{put, said, text_of};
use ld_num::NumFault;
use ld_options::OptionsFault;
use std::alloc::Global;
use std::test::Fail;

/// The name of a fault, and its path.
pub fn refusal(alloc: Global, fault: &OptionsFault) -> Result<String, Fail> {
    let mut line = said(alloc, cause_of(fault))?;
    let path = text_of(path_of(fault));
    if !path.is_empty() {
        put(&mut line, path)?;
    }
    Ok(line)
}

// The name of a fault.
fn cause_of(fault: &OptionsFault) -> &'static str {
    match fault {
        OptionsFault::NotJson => "NotJson",
        OptionsFault::Missing(_) => "Missing",
        OptionsFault::WrongKind(_) => "WrongKind",
        OptionsFault::Unknown(_) => "Unknown",
        OptionsFault::BadName(_) => "BadName",
        OptionsFault::BadExecutor(_) => "BadExecutor",
        OptionsFault::Range(_) => "Range",
        OptionsFault::NoStages(_) => "NoStages",
        OptionsFault::MaxBelowPre(_) => "MaxBelowPre",
        OptionsFault::ScriptUnknown(_) => "ScriptUnknown",
        OptionsFault::Number { path: _, fault } => cause_of_number(fault),
        OptionsFault::Memory => "Memory",
    }
}

// The name of a fault of a number.
fn cause_of_number(fault: &NumFault) -> &'static str {
    match fault {
        NumFault::Empty => "Empty",
        NumFault::BadDigit => "BadDigit",
        NumFault::TooLarge => "TooLarge",
        NumFault::BadUnit => "BadUnit",
        NumFault::NotWhole => "NotWhole",
        NumFault::ZeroDenominator | NumFault::Memory => "other",
    }
}

// The path of a fault.
fn path_of(fault: &OptionsFault) -> &[u8] {
    match fault {
        OptionsFault::NotJson | OptionsFault::Memory => &[],
        OptionsFault::Missing(path)
        | OptionsFault::WrongKind(path)
        | OptionsFault::Unknown(path)
        | OptionsFault::BadName(path)
        | OptionsFault::BadExecutor(path)
        | OptionsFault::Range(path)
        | OptionsFault::NoStages(path)
        | OptionsFault::MaxBelowPre(path)
        | OptionsFault::ScriptUnknown(path)
        | OptionsFault::Number { path, fault: _ } => path.as_slice(),
    }
}
