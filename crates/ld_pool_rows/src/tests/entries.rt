// Histories as texts.

use ld_base::{Act, Entry, History, Outcome};
use std::alloc::Global;
use std::test::Fail;

/// The entries of a history: of each its turn, its act, the scenario, the user and the item or slot that it names, and
/// its reading.
pub fn history_text(alloc: Global, history: &History) -> Result<String, Fail> {
    let mut said = String::new(alloc);
    for at in 0..history.len() {
        if at > 0 {
            said.push_str(", ")?;
        }
        if let Some(entry) = history.get(at) {
            said.push_str(entry_text(alloc, entry)?.as_str())?;
        }
    }
    Ok(said)
}

// What an entry tells.
fn entry_text(alloc: Global, entry: &Entry) -> Result<String, Fail> {
    let (act, scenario, user, item) = act_of(&entry.act);
    let (turn, reading) = (entry.turn, entry.reading);
    Ok(format!(in alloc; "{turn} {act} {scenario} {user} {item} {reading}")?)
}

/// An act's name, and the scenario, the user and the item or slot that it names, or 0.
pub fn act_of(act: &Act) -> (&'static str, u16, u32, u64) {
    match act {
        Act::Take {
            scenario,
            user,
            slot,
        } => ("take", *scenario, *user, *slot as u64),
        Act::Grow {
            scenario,
            user,
            slot,
        } => ("grow", *scenario, *user, *slot as u64),
        Act::Start {
            scenario,
            user,
            item,
            ..
        } => ("start", *scenario, *user, *item),
        Act::Drop { scenario, item } => ("drop", *scenario, 0, *item),
        Act::Late { scenario, item } => ("late", *scenario, 0, *item),
        Act::Return {
            scenario,
            user,
            item,
            outcome,
            ..
        } => (outcome_name(*outcome), *scenario, *user, *item),
        Act::Release { scenario, user } => ("release", *scenario, *user, 0),
        Act::Stop { scenario } => ("stop", *scenario, 0, 0),
        Act::Close { scenario } => ("close", *scenario, 0, 0),
        Act::Control { .. } => ("control", 0, 0, 0),
    }
}

// The name of a return with this outcome.
fn outcome_name(outcome: Outcome) -> &'static str {
    match outcome {
        Outcome::Done => "return",
        Outcome::Interrupted => "interrupted",
    }
}
