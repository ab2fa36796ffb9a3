// The test of a request: its text, and the plan of the part of it that words cut.
ghost use Rattle.std.specs.Prelude.{◌≡◌, ◌≢◌, ◌≤◌, None, MatchResult, length};
ghost use Rattle.std.specs.Str.{IsUtf8};
ghost use Rattle.ld_segment.specs.Points.{IsFilled};
ghost use Rattle.ld_words.specs.RateTest.{rate_test};
ghost use Rattle.ld_answer.specs.Outcome.{IsFileOutcome};
ghost use Rattle.ld_answer.specs.Planned.{IsCutPlan, IsTestPlan, IsUncut, RefusesCutTest, RefusesTest, RefusesWhole};
ghost use Rattle.ld_answer.specs.TestFile.{entry_limit, HasRead, IsReadFault};
ghost use Rattle.ld_answer.specs.declared.refusal.Refusal.{Refusal};

use crate::name::name_of;
use crate::refusal::Refusal;
use crate::stripe::read_cut;
use ld_base::Text;
use ld_options::Options;
use ld_outside::{Shelf, ShelfFault};
use ld_plan::Plan;
use ld_segment::{Segment, Sequence};
use ld_words::rate_test_text;
use std::alloc::Global;

/// How many entries a journal may have, where the words don't say it.
const MOST_ENTRIES: u32 = 1_000_000;

/// The greatest length of a test's file, in bytes.
const MOST_BYTES: u64 = 1_048_576;

/// The place of the word that names the file: the one behind the command.
const FILE_PLACE: usize = 1;

/// A test's text, and the plan of a part of it.
#[derive(Drop)]
pub struct PlannedTest {
    pub text: Vec<u8>,
    pub plan: Plan,
}

// The test in a file, and the plan of the part that words cut from it.
pub fn planned_file<S: Shelf>(
    alloc: Global,
    name: &Text,
    segment: &Option<Text>,
    sequence: &Option<Text>,
    entries: Option<u32>,
    shelf: &mut S,
) -> Result<PlannedTest, Refusal>
    requires utf8 { IsUtf8 name.now }
    requires least { 10 ≤ entry_limit entries }
    requires most { entry_limit entries ≤ 1000000 }
    ensures { IsFileOutcome (record { name = name.now; segment = segment.now; sequence = sequence.now; limit = entry_limit entries })
        result (S.seen shelf.old) (S.seen shelf.new) }
{
    let (part, whole) = read_cut(alloc, segment, sequence)?;
    let text = read_test(alloc, name, shelf)?;
    let plan = plan_of_test(alloc, &text, part, whole, limit_of(entries))?;
    Ok(PlannedTest { text, plan })
}

// The whole of a test, and its plan.
pub fn planned_whole(
    alloc: Global,
    text: Vec<u8>,
    entries: Option<u32>,
) -> Result<PlannedTest, Refusal>
    requires least { 10 ≤ entry_limit entries }
    requires most { entry_limit entries ≤ 1000000 }
    ensures { MatchResult result
        (λ planned. (planned.text.items ≡ text.items) × IsCutPlan None None text.items (entry_limit entries) planned.plan)
        (λ refusal. refusal ≢ Refusal.Memory → RefusesWhole text.items (entry_limit entries) refusal) }
{
    let (part, whole) = read_cut(alloc, &None, &None)?;
    let plan = plan_of_test(alloc, &text, part, whole, limit_of(entries))?;
    Ok(PlannedTest { text, plan })
}

// How many entries a journal may have.
fn limit_of(entries: Option<u32>) -> u32
    ensures { result ≡ entry_limit entries }
{
    entries.unwrap_or(MOST_ENTRIES)
}

// The bytes of a test's file.
fn read_test<S: Shelf>(alloc: Global, name: &Text, shelf: &mut S) -> Result<Vec<u8>, Refusal>
    requires { IsUtf8 name.now }
    ensures { MatchResult result
        (λ text. HasRead (S.seen shelf.old) name.now text.items (S.seen shelf.new))
        (λ refusal. IsReadFault (S.seen shelf.old) name.now refusal (S.seen shelf.new)) }
{
    let mut text = Vec::new(alloc);
    match shelf.read(name_of(name), &mut text, MOST_BYTES) {
        Ok(()) => Ok(text),
        Err(ShelfFault::Failed) => Err(Refusal::Read),
        Err(ShelfFault::TooLong) => Err(Refusal::TooLong(FILE_PLACE)),
        Err(ShelfFault::Memory) => Err(Refusal::Memory),
    }
}

// The plan that a segment of a filled sequence has of a test, where a journal has so many entries.
fn plan_of_test(
    alloc: Global,
    test: &[u8],
    part: Segment,
    whole: Sequence,
    limit: u32,
) -> Result<Plan, Refusal>
    requires filled { IsFilled whole }
    requires least { 10 ≤ limit }
    requires most { limit ≤ 1000000 }
    ensures { MatchResult result
        (IsTestPlan test.now limit part whole)
        (λ refusal. refusal ≢ Refusal.Memory → RefusesTest test.now limit part whole refusal) }
{
    let options = Options::read(alloc, test)?;
    Ok(Plan::of(alloc, options, part, whole, limit)?)
}

// The text of a test of one scenario at a constant rate of arrivals.
pub fn rate_test(
    alloc: Global,
    rate: u32,
    unit: u64,
    duration: u64,
    pre: u32,
    max: u32,
) -> Result<Vec<u8>, Refusal>
    ensures { MatchResult result
        (λ text. (text.items ≡ rate_test rate unit duration pre max) × (length text.items ≤ 1048576))
        (λ refusal. refusal ≡ Refusal.Memory) }
{
    let mut text = Vec::new(alloc);
    rate_test_text(rate, unit, duration, pre, max, &mut text)?;
    Ok(text)
}
