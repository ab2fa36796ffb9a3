// The lines of one entry.
ghost use Rattle.std.specs.Prelude.{◌≡◌, ◌++◌, OnErr, OnOk, map};
ghost use Rattle.std.specs.List.{concat};
ghost use Rattle.ld_line.specs.Line.{Grows};
ghost use Rattle.ld_journal.specs.Journal.{entry_line, entry_lines, sample_line, samples_of};

use crate::act::{flag, put_act};
use ld_base::{Act, BaseFault, Entry, Sample, Tally};
use ld_line::{Word, put_line, put_words};

// Appends the line of an entry, and one line for each of its samples.
pub fn put_entry(entry: &Entry, into: &mut Vec<u8>) -> Result<(), BaseFault>
    ensures ok { OnOk result (into.new.items ≡ into.old.items ++ concat (entry_lines entry.now)) }
    ensures err { OnErr result (Grows into.old.items into.new.items) }
{
    put_entry_line(entry, into)?;
    match &entry.act {
        Act::Return {
            scenario: _,
            user: _,
            item: _,
            outcome: _,
            tally,
        } => put_samples(tally, into),
        _ => Ok(()),
    }
}

// Appends the line of an entry: its turn, its thread, its reading and its act.
fn put_entry_line(entry: &Entry, into: &mut Vec<u8>) -> Result<(), BaseFault>
    ensures ok { OnOk result (into.new.items ≡ into.old.items ++ entry_line entry.now) }
    ensures err { OnErr result (Grows into.old.items into.new.items) }
{
    let place = [
        Word::Number(entry.turn),
        Word::Number(entry.thread as u64),
        Word::Number(entry.reading),
    ];
    put_words(into, &place)?;
    into.extend_from_slice(b" ")?;
    put_act(&entry.act, into)?;
    into.extend_from_slice(b"\n")?;
    Ok(())
}

// Appends the lines of a tally's samples, in order.
fn put_samples(tally: &Tally, into: &mut Vec<u8>) -> Result<(), BaseFault>
    ensures ok { OnOk result (into.new.items ≡ into.old.items ++ concat (map sample_line tally.now.samples)) }
    ensures err { OnErr result (Grows into.old.items into.new.items) }
{
    for at in 0..tally.len() {
        put_sample(&tally.get(at).unwrap(), into)?;
    }
    Ok(())
}

// Appends the line of a sample.
fn put_sample(sample: &Sample, into: &mut Vec<u8>) -> Result<(), BaseFault>
    ensures ok { OnOk result (into.new.items ≡ into.old.items ++ sample_line sample.now) }
    ensures err { OnErr result (Grows into.old.items into.new.items) }
{
    put_line(
        into,
        &[
            Word::Text(b"s"),
            Word::Number(sample.name as u64),
            Word::Number(sample.status as u64),
            Word::Number(sample.span),
            Word::Number(sample.sent),
            Word::Number(sample.received),
            flag(sample.failed),
            Word::Number(sample.check_bits),
        ],
    )
}
