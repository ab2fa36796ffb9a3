// Lines of text.
ghost use Rattle.std.specs.Prelude.{◌≡◌, IfOk};
ghost use Rattle.ld_answer.specs.Answer.{full_line, room_word};
ghost use Rattle.ld_answer.specs.RefusalLine.{line_at, line_with, line_with_two, number_name, plan_line, segment_line, stripe_line, test_line};

use ld_base::{BaseFault, Room, put_number};
use ld_json::Path;
use ld_num::NumFault;
use ld_options::OptionsFault;
use ld_plan::PlanFault;
use ld_rehearsal::FullJournal;
use ld_segment::SegmentFault;
use ld_stripe::StripeFault;
use std::alloc::Global;

// A line of a text and a number behind it.
pub fn line_with(alloc: Global, text: &[u8], number: u64) -> Result<Vec<u8>, BaseFault>
    ensures { IfOk result (λ line. line.items ≡ line_with text.now number) }
{
    let mut line = Vec::from_slice(alloc, text)?;
    put_number(&mut line, number)?;
    line.extend_from_slice(b"\n")?;
    Ok(line)
}

// A line of a text and two numbers behind it.
fn line_with_two(alloc: Global, text: &[u8], one: u64, two: u64) -> Result<Vec<u8>, BaseFault>
    ensures { IfOk result (λ line. line.items ≡ line_with_two text.now one two) }
{
    let mut line = Vec::from_slice(alloc, text)?;
    put_number(&mut line, one)?;
    line.extend_from_slice(b" ")?;
    put_number(&mut line, two)?;
    line.extend_from_slice(b"\n")?;
    Ok(line)
}

// A line of a text and a path behind it.
fn line_at(alloc: Global, text: &[u8], path: &Path) -> Result<Vec<u8>, BaseFault>
    ensures { IfOk result (λ line. line.items ≡ line_at text.now path.now) }
{
    let mut line = Vec::from_slice(alloc, text)?;
    line.extend_from_slice(path.as_slice())?;
    line.extend_from_slice(b"\n")?;
    Ok(line)
}

/// The line on standard error that says that a journal had no room, with the number that was needed and the limit.
pub fn full_line(alloc: Global, full: FullJournal) -> Result<Vec<u8>, BaseFault>
    ensures { IfOk result (λ line. line.items ≡ full_line full) }
{
    let mut line = Vec::from_slice(alloc, b"error full ")?;
    line.extend_from_slice(room_word(full.room))?;
    line.extend_from_slice(b" ")?;
    put_number(&mut line, full.needed)?;
    line.extend_from_slice(b" ")?;
    put_number(&mut line, full.limit)?;
    line.extend_from_slice(b"\n")?;
    Ok(line)
}

// The word for a limit of a journal.
fn room_word(room: Room) -> &'static [u8]
    ensures { result.now ≡ room_word room }
{
    match room {
        Room::Entries => b"entries",
        Room::Samples => b"samples",
    }
}

// The line that says a fault of a test.
pub fn test_line(alloc: Global, fault: &OptionsFault) -> Result<Vec<u8>, BaseFault>
    ensures { IfOk result (λ line. line.items ≡ test_line fault.now) }
{
    match fault {
        OptionsFault::NotJson => Ok(Vec::from_slice(alloc, b"error 40 NotJson\n")?),
        OptionsFault::Missing(path) => line_at(alloc, b"error 41 Missing ", path),
        OptionsFault::WrongKind(path) => line_at(alloc, b"error 42 WrongKind ", path),
        OptionsFault::Unknown(path) => line_at(alloc, b"error 43 Unknown ", path),
        OptionsFault::BadName(path) => line_at(alloc, b"error 60 BadName ", path),
        OptionsFault::BadExecutor(path) => line_at(alloc, b"error 61 BadExecutor ", path),
        OptionsFault::Range(path) => line_at(alloc, b"error 62 Range ", path),
        OptionsFault::NoStages(path) => line_at(alloc, b"error 63 NoStages ", path),
        OptionsFault::MaxBelowPre(path) => line_at(alloc, b"error 64 MaxBelowPre ", path),
        OptionsFault::ScriptUnknown(path) => line_at(alloc, b"error 65 ScriptUnknown ", path),
        OptionsFault::Number { path, fault } => line_at(alloc, number_name(fault), path),
        OptionsFault::Memory => Ok(Vec::from_slice(alloc, b"error memory\n")?),
    }
}

// The line that says a fault of a plan.
pub fn plan_line(alloc: Global, fault: &PlanFault) -> Result<Vec<u8>, BaseFault>
    ensures { IfOk result (λ line. line.items ≡ plan_line fault.now) }
{
    match fault {
        PlanFault::NotInSequence => Ok(Vec::from_slice(alloc, b"error 15 NotInSequence\n")?),
        PlanFault::PeriodTooLarge(period) => line_with(alloc, b"error 16 PeriodTooLarge ", *period),
        PlanFault::TooManyArrivals { scenario, count } => {
            line_with_two(
                alloc,
                b"error 31 TooManyArrivals ",
                *scenario as u64,
                *count,
            )
        }
        PlanFault::TooManyUsers(users) => {
            line_with(alloc, b"error 80 TooManyUsers ", *users as u64)
        }
        PlanFault::JournalTooSmall { needed, limit } => {
            line_with_two(alloc, b"error 81 JournalTooSmall ", *needed, *limit as u64)
        }
        PlanFault::Memory => Ok(Vec::from_slice(alloc, b"error memory\n")?),
    }
}

// The line that says a fault of weights.
pub fn stripe_line(alloc: Global, fault: &StripeFault) -> Result<Vec<u8>, BaseFault>
    ensures { IfOk result (λ line. line.items ≡ stripe_line fault.now) }
{
    match fault {
        StripeFault::NoWeights => Ok(Vec::from_slice(alloc, b"error 20 NoWeights\n")?),
        StripeFault::TooMany => Ok(Vec::from_slice(alloc, b"error 17 TooMany\n")?),
        StripeFault::ZeroWeight(position) => {
            line_with(alloc, b"error 21 ZeroWeight ", *position as u64)
        }
        StripeFault::PeriodTooLarge(period) => {
            line_with(alloc, b"error 16 PeriodTooLarge ", *period)
        }
        StripeFault::Memory => Ok(Vec::from_slice(alloc, b"error memory\n")?),
    }
}

// The line that says a fault of a segment or a sequence.
pub fn segment_line(alloc: Global, fault: &SegmentFault) -> Result<Vec<u8>, BaseFault>
    ensures { IfOk result (λ line. line.items ≡ segment_line fault.now) }
{
    match fault {
        SegmentFault::Number { at, fault } => line_with(alloc, number_name(fault), *at as u64),
        SegmentFault::BelowZero(at) => line_with(alloc, b"error 10 BelowZero ", *at as u64),
        SegmentFault::NotLess(at) => line_with(alloc, b"error 11 NotLess ", *at as u64),
        SegmentFault::AboveOne(at) => line_with(alloc, b"error 12 AboveOne ", *at as u64),
        SegmentFault::Gap(at) => line_with(alloc, b"error 13 Gap ", *at as u64),
        SegmentFault::FewPoints => Ok(Vec::from_slice(alloc, b"error 14 FewPoints\n")?),
        SegmentFault::PeriodTooLarge(period) => {
            line_with(alloc, b"error 16 PeriodTooLarge ", *period)
        }
        SegmentFault::TooMany => Ok(Vec::from_slice(alloc, b"error 17 TooMany\n")?),
        SegmentFault::Memory => Ok(Vec::from_slice(alloc, b"error memory\n")?),
    }
}

// The number and the name of a fault of a number, with a space behind it.
fn number_name(fault: &NumFault) -> &'static [u8]
    ensures { result.now ≡ number_name fault.now }
{
    match fault {
        NumFault::Empty => b"error 1 Empty ",
        NumFault::BadDigit => b"error 2 BadDigit ",
        NumFault::ZeroDenominator => b"error 3 ZeroDenominator ",
        NumFault::TooLarge => b"error 4 TooLarge ",
        NumFault::BadUnit => b"error 5 BadUnit ",
        NumFault::NotWhole => b"error 6 NotWhole ",
        NumFault::Memory => b"error memory ",
    }
}
