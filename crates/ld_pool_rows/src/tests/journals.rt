// Journals of one act.
ghost use Rattle.std.specs.Prelude.{◌≡◌, ◌≤◌, [], IfOk, length};
ghost use Rattle.ld_journal.specs.Journal.{samples_of};
ghost use Rattle.ld_journal.specs.Writable.{IsCutText};

use crate::tests::table::{Call, check, next_count, next_number, next_small, parts, shown};
use ld_base::{Act, Bytes, Command, Entry, Outcome, Sample, Tally, Text};
use ld_journal::{Header, write};
use std::alloc::Global;
use std::str::SplitWhitespace;
use std::test::Fail;

// What stands in front of the entries of a journal, which is written behind an x. The test ends in a line feed of its
// own.
const FRONT: &str = "ldjournal 1/test 7/a test//segment 0:1/sequence 0,1/entries 1000000/";

// A thread, a reading and an act; then the entries of the journal of this act and of a close, and its end.
const ENTRIES: &str = "\
0 0 take 4 5 6 => 1 0 0 take 4 5 6/2 0 9 close 12/end 2/
0 18446744073709551615 grow 65535 4294967295 0 \
=> 1 0 18446744073709551615 grow 65535 4294967295 0/2 0 9 close 12/end 2/
0 2 start 1 2 3 4 => 1 0 2 start 1 2 3 4/2 0 9 close 12/end 2/
0 3 drop 1 18446744073709551615 => 1 0 3 drop 1 18446744073709551615/2 0 9 close 12/end 2/
0 4 late 2 7 => 1 0 4 late 2 7/2 0 9 close 12/end 2/
0 5 return 0 9 8 done => 1 0 5 return 0 9 8 done 0/2 0 9 close 12/end 2/
0 6 return 0 9 8 interrupted => 1 0 6 return 0 9 8 interrupted 2/s 1 200 7 100 2000 0 3/\
s 65535 404 18446744073709551615 100 2000 1 18446744073709551615/2 0 9 close 12/end 2/
0 7 release 3 10 => 1 0 7 release 3 10/2 0 9 close 12/end 2/
0 8 stop 11 => 1 0 8 stop 11/2 0 9 close 12/end 2/
0 10 control go-on => 1 0 10 control pause 0/2 0 9 close 12/end 2/
0 11 control pause => 1 0 11 control pause 1/2 0 9 close 12/end 2/
0 12 control stop => 1 0 12 control stop/2 0 9 close 12/end 2/
0 13 control vus 12 => 1 0 13 control vus 12/2 0 9 close 12/end 2/
4294967295 14 control vus-max 4294967295 => 1 4294967295 14 control vus-max 4294967295/2 0 9 close 12/end 2/";

struct Journal;

impl Call for Journal {
    fn answer(alloc: Global, given: &str) -> Result<String, Fail> {
        let mut words = given.split_whitespace();
        let (thread, reading) = (next_count(&mut words), next_number(&mut words));
        let act = act_of(alloc, &mut words)?;
        let text = journal_of(
            alloc,
            Entry {
                turn: 1,
                thread,
                act,
                reading,
            },
        )?;
        let text = shown(alloc, &text)?;
        match parts(&text, FRONT) {
            ("x", entries) => Ok(String::from_str(alloc, entries)?),
            _ => Ok(text),
        }
    }
}

// The journal of an entry and a close.
fn journal_of(alloc: Global, entry: Entry) -> Result<Vec<u8>, Fail>
    requires turn { entry.turn ≡ 1 }
    requires few { length (samples_of entry.act) ≤ 2 }
{
    let header = header(alloc)?;
    let close = Entry {
        turn: 2,
        thread: 0,
        act: Act::Close { scenario: 12 },
        reading: 9,
    };
    let mut text = Vec::from_slice(alloc, b"x")?;
    write(&header, &[entry, close], &mut text)?;
    Ok(text)
}

// The header of a run that plays the whole of a test.
fn header(alloc: Global) -> Result<Header, Fail>
    ensures test { IfOk result (λ header. length header.test ≤ 1048576) }
    ensures segment { IfOk result (λ header. IsCutText header.segment) }
    ensures sequence { IfOk result (λ header. IsCutText header.sequence) }
    ensures entries { IfOk result (λ header. header.entries ≡ 1000000) }
{
    Ok(Header {
        test: Bytes::of(Vec::from_slice(alloc, b"a test\n")?),
        segment: Text::of(Vec::from_slice(alloc, b"0:1")?),
        sequence: Text::of(Vec::from_slice(alloc, b"0,1")?),
        entries: 1000000,
    })
}

// The act that words tell.
fn act_of(alloc: Global, words: &mut SplitWhitespace<'_>) -> Result<Act, Fail>
    ensures { IfOk result (λ act. length (samples_of act) ≤ 2) }
{
    let kind = words.next().unwrap_or("");
    match kind {
        "return" => return_of(alloc, words),
        "take" | "grow" | "start" => Ok(user_act(kind, words)),
        _ => Ok(scenario_act(kind, words)),
    }
}

// The act of this name, of a user that begins something.
fn user_act(kind: &str, words: &mut SplitWhitespace<'_>) -> Act
    ensures { samples_of result ≡ [] }
{
    let (scenario, user, item) = (next_small(words), next_count(words), next_number(words));
    match kind {
        "start" => Act::Start {
            scenario,
            user,
            item,
            until: next_number(words),
        },
        "grow" => Act::Grow {
            scenario,
            user,
            slot: u32::try_from(item).unwrap_or(0),
        },
        _ => Act::Take {
            scenario,
            user,
            slot: u32::try_from(item).unwrap_or(0),
        },
    }
}

// The act of this name, of a scenario, or a command.
fn scenario_act(kind: &str, words: &mut SplitWhitespace<'_>) -> Act
    ensures { samples_of result ≡ [] }
{
    if matches!(kind, "control") {
        return Act::Control {
            command: command_of(words),
        };
    }
    let scenario = next_small(words);
    match kind {
        "drop" => Act::Drop {
            scenario,
            item: next_number(words),
        },
        "late" => Act::Late {
            scenario,
            item: next_number(words),
        },
        "release" => Act::Release {
            scenario,
            user: next_count(words),
        },
        _ => Act::Stop { scenario },
    }
}

// The command that words tell.
fn command_of(words: &mut SplitWhitespace<'_>) -> Command {
    match words.next().unwrap_or("") {
        "go-on" => Command::Pause(false),
        "pause" => Command::Pause(true),
        "vus" => Command::Vus(next_count(words)),
        "vus-max" => Command::VusMax(next_count(words)),
        _ => Command::Stop,
    }
}

// The return that words tell: one that is done has no samples, and another has two.
fn return_of(alloc: Global, words: &mut SplitWhitespace<'_>) -> Result<Act, Fail>
    ensures { IfOk result (λ act. length (samples_of act) ≤ 2) }
{
    let (scenario, user, item) = (next_small(words), next_count(words), next_number(words));
    let is_done = matches!(words.next(), Some("done"));
    let (outcome, tally) = if is_done {
        (Outcome::Done, Tally::empty(alloc))
    } else {
        (Outcome::Interrupted, tally_of_two(alloc)?)
    };
    Ok(Act::Return {
        scenario,
        user,
        item,
        outcome,
        tally,
    })
}

// A tally of a first and a last sample.
fn tally_of_two(alloc: Global) -> Result<Tally, Fail>
    ensures { IfOk result (λ tally. length tally.samples ≤ 2) }
{
    let mut tally = Tally::new(alloc, 2)?;
    tally.push(sample(1, 200, 7, false, 3));
    tally.push(sample(u16::MAX, 404, u64::MAX, true, u64::MAX));
    Ok(tally)
}

/// A sample of a name.
pub fn sample(name: u16, status: u16, span: u64, failed: bool, check_bits: u64) -> Sample {
    Sample {
        name,
        status,
        span,
        sent: 100,
        received: 2000,
        failed,
        check_bits,
    }
}

/// Each act, with its samples.
#[test]
fn journals(rt: HostRuntime) -> Result<(), Fail> {
    check::<Journal, _>(&rt, ENTRIES)
}
