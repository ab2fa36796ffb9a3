// Texts and lists: what is lent of them, what they hold, and what is appended to them.

use crate::tests::journals::sample;
use crate::tests::table::{Call, check, number, parts, shown};
use ld_base::{Act, Bytes, Entry, Headers, History, Stage, Stages, Tally, Text};
use std::alloc::Global;
use std::test::Fail;

// Texts, bytes, stages and headers, and what is lent of them.
const LENT: &str = "\
text GET => GET
bytes GET => GET
stages 5 1000 => 1000
headers Accept GET => GET";

// What two samples or two entries of these numbers are told as, where there is room for two: how many there are, each
// of them, and what is behind them.
const KEPT: &str = "\
tally 4 5 => 2 Some(4) Some(5) None
empty => 0 None
history 0 10 => 2 Some(0) Some(10) None 2";

struct Lent;

impl Call for Lent {
    fn answer(alloc: Global, given: &str) -> Result<String, Fail> {
        let (kind, given) = parts(given, " ");
        let bytes = Vec::from_slice(alloc, given.as_bytes())?;
        match kind {
            "text" => shown(alloc, Text::of(bytes).as_slice()),
            "bytes" => shown(alloc, Bytes::of(bytes).as_slice()),
            "stages" => stages_text(alloc, given),
            _ => headers_text(alloc, given),
        }
    }
}

// What stages of one stage lend: its length.
fn stages_text(alloc: Global, given: &str) -> Result<String, Fail> {
    let (target, length) = parts(given, " ");
    let stage = Stage {
        target: number(target),
        length: number(length),
    };
    let mut stages = Vec::new(alloc);
    stages.push(stage)?;
    let stages = Stages::of(stages);
    match stages.as_slice().first() {
        Some(stage) => Ok(format!(in alloc; "{}", stage.length)?),
        None => Err(Fail::from("no stage")),
    }
}

// What headers of one pair lend: its value.
fn headers_text(alloc: Global, given: &str) -> Result<String, Fail> {
    let (name, value) = parts(given, " ");
    let name = Text::of(Vec::from_slice(alloc, name.as_bytes())?);
    let value = Text::of(Vec::from_slice(alloc, value.as_bytes())?);
    let mut pairs = Vec::new(alloc);
    pairs.push((name, value))?;
    let headers = Headers::of(pairs);
    match headers.as_slice().first() {
        Some((_, value)) => shown(alloc, value.as_slice()),
        None => Err(Fail::from("no pair")),
    }
}

struct Kept;

impl Call for Kept {
    fn answer(alloc: Global, given: &str) -> Result<String, Fail> {
        let (kind, given) = parts(given, " ");
        let (first, second) = parts(given, " ");
        match kind {
            "tally" => tally_text(alloc, number(first), number(second)),
            "history" => history_text(alloc, number(first), number(second)),
            _ => {
                let tally = Tally::empty(alloc);
                Ok(format!(in alloc; "{} {:?}", tally.len(), span(&tally, 0))?)
            }
        }
    }
}

// What a tally tells that was given two samples.
fn tally_text(alloc: Global, first: u64, second: u64) -> Result<String, Fail> {
    let mut tally = Tally::new(alloc, 2)?;
    tally.push(sample(1, 200, first, false, 3));
    tally.push(sample(1, 200, second, false, 3));
    let (count, first, second) = (tally.len(), span(&tally, 0), span(&tally, 1));
    Ok(format!(in alloc; "{count} {first:?} {second:?} {:?}", span(&tally, 2))?)
}

// The span of the sample at a place, if there is one.
fn span(tally: &Tally, at: u32) -> Option<u64> {
    Some(tally.get(at)?.span)
}

// What a history tells that was given two entries.
fn history_text(alloc: Global, first: u64, second: u64) -> Result<String, Fail> {
    let mut history = History::new(alloc, 2)?;
    history.push(entry(first));
    history.push(entry(second));
    let (count, first, second) = (history.len(), reading(&history, 0), reading(&history, 1));
    let end = reading(&history, 2);
    let all = history.into_entries().len();
    Ok(format!(in alloc; "{count} {first:?} {second:?} {end:?} {all}")?)
}

// An entry at a reading.
fn entry(reading: u64) -> Entry {
    Entry {
        turn: 0,
        thread: 0,
        act: Act::Close { scenario: 0 },
        reading,
    }
}

// The reading of the entry at a place, if there is one.
fn reading(history: &History, at: u32) -> Option<u64> {
    Some(history.get(at)?.reading)
}

/// Texts, bytes, stages and headers.
#[test]
fn lists_are_lent(rt: HostRuntime) -> Result<(), Fail> {
    check::<Lent, _>(&rt, LENT)
}

/// Tallies and histories.
#[test]
fn lists_are_kept(rt: HostRuntime) -> Result<(), Fail> {
    check::<Kept, _>(&rt, KEPT)
}
