// The answer of `rehearse`.
ghost use Rattle.std.specs.Prelude.{◌≡◌, ◌≤◌, ◌∷◌, [], MatchResult, length};
ghost use Rattle.ld_journal.specs.Journal.{journal_text};
ghost use Rattle.ld_journal.specs.Writable.{IsWritable};
ghost use Rattle.ld_machine.specs.History.{IsLegal};
ghost use Rattle.ld_summary.specs.Summary.{summary_text};
ghost use Rattle.ld_answer.specs.Rehearsal.{header_of, AreTexts, IsRehearsalAnswer};

use crate::answer::{Answer, NamedFile};
use crate::refusal::Refusal;
use crate::test_file::PlannedTest;
use ld_base::{Bytes, History, Text};
use ld_journal::{Header, write};
use ld_plan::Plan;
use ld_rehearsal::{Rehearsed, rehearse};
use ld_summary::summary_text;
use std::alloc::Global;
use std::slice;

// The answer of a rehearsal of a test's plan with iterations of this length, in nanoseconds. The journal
// has this name.
pub fn rehearsal_answer(
    alloc: Global,
    test: PlannedTest,
    iteration: u64,
    journal: &Text,
) -> Result<Answer, Refusal>
    requires short { length test.text.items ≤ 1048576 }
    requires lasts { 1 ≤ iteration }
    ensures { MatchResult result
        (IsRehearsalAnswer test.text.items test.plan iteration journal.now)
        (λ refusal. refusal ≡ Refusal.Memory) }
{
    let PlannedTest { text: test, plan } = test;
    let Rehearsed {
        plan,
        history,
        full,
    } = rehearse(alloc, plan, iteration)?;
    match texts_of(alloc, &test, &plan, history, journal) {
        Ok(texts) => Ok(Answer {
            file: Some(texts.file),
            text: texts.summary,
            full,
        }),
        Err(refusal) => Err(refusal),
    }
}

/// What is written of a history: its journal, and its summary.
#[derive(Drop)]
pub struct Texts {
    pub file: NamedFile,
    pub summary: Text,
}

// What is written of a history of a test's plan. The journal has this name.
fn texts_of(
    alloc: Global,
    test: &[u8],
    plan: &Plan,
    history: History,
    journal: &Text,
) -> Result<Texts, Refusal>
    requires legal { IsLegal plan.now.plan history.entries }
    requires writable { IsWritable (header_of test.now plan.now) history.entries }
    ensures { MatchResult result
        (AreTexts test.now plan.now history journal.now)
        (λ refusal. refusal ≡ Refusal.Memory) }
{
    let summary = summary_of(alloc, plan, &history)?;
    let bytes = journal_bytes(alloc, test, plan, history)?;
    let name = Text::of(Vec::from_slice(alloc, journal.as_slice())?);
    Ok(Texts {
        file: NamedFile { name, bytes },
        summary,
    })
}

// The summary of one history.
fn summary_of(alloc: Global, plan: &Plan, history: &History) -> Result<Text, Refusal>
    requires { IsLegal plan.now.plan history.now.entries }
    ensures { MatchResult result
        (λ text. text ≡ summary_text (plan.now ∷ []) (history.now ∷ []))
        (λ refusal. refusal ≡ Refusal.Memory) }
{
    let mut text = Vec::new(alloc);
    summary_text(slice::from_ref(plan), slice::from_ref(history), &mut text)?;
    Ok(Text::of(text))
}

// The journal of a history of a test's plan.
fn journal_bytes(
    alloc: Global,
    test: &[u8],
    plan: &Plan,
    history: History,
) -> Result<Bytes, Refusal>
    requires { IsWritable (header_of test.now plan.now) history.entries }
    ensures { MatchResult result
        (λ bytes. bytes ≡ journal_text (header_of test.now plan.now) history.entries)
        (λ refusal. refusal ≡ Refusal.Memory) }
{
    let header = header_of(alloc, test, plan)?;
    let entries = history.into_entries();
    let mut bytes = Vec::new(alloc);
    write(&header, &entries, &mut bytes)?;
    Ok(Bytes::of(bytes))
}

// The header of the journal of a test's plan.
fn header_of(alloc: Global, test: &[u8], plan: &Plan) -> Result<Header, Refusal>
    ensures { MatchResult result
        (λ header. header ≡ header_of test.now plan.now)
        (λ refusal. refusal ≡ Refusal.Memory) }
{
    let test = Bytes::of(Vec::from_slice(alloc, test)?);
    let mut segment = Vec::new(alloc);
    plan.sequence()
        .segment(plan.position())
        .print(&mut segment)?;
    let mut sequence = Vec::new(alloc);
    plan.sequence().print(&mut sequence)?;
    Ok(Header {
        test,
        segment: Text::of(segment),
        sequence: Text::of(sequence),
        entries: plan.entries(),
    })
}
