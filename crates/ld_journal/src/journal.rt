// The text of a whole journal.
ghost use Rattle.std.specs.Prelude.{◌≡◌, ◌++◌, OnErr, OnOk};
ghost use Rattle.std.specs.List.{concat, flat_map};
ghost use Rattle.ld_line.specs.Line.{Grows};
ghost use Rattle.ld_journal.specs.Journal.{cut_lines, entry_lines, header_lines, journal_text, test_lines};
ghost use Rattle.ld_journal.specs.Writable.{IsWritable};

use crate::entry::put_entry;
use crate::fault::JournalFault;
use crate::header::Header;
use ld_base::{BaseFault, Entry};
use ld_line::{Word, put_line};

/// Appends the journal of a header and a history.
///
/// The header's fields are in their ranges, the entries' turns are 1, 2 and so on, and entries and
/// samples are each at most the header's limit.
///
/// Fails where the allocator gives no memory for the text; `into` is then as before.
pub fn write(header: &Header, entries: &[Entry], into: &mut Vec<u8>) -> Result<(), JournalFault>
    requires { IsWritable header.now entries.now }
    ensures ok { OnOk result (into.new.items ≡ into.old.items ++ journal_text header.now entries.now) }
    ensures err { OnErr result (into.new.items ≡ into.old.items) }
{
    let length = into.len();
    match put_journal(header, entries, into) {
        Ok(()) => Ok(()),
        Err(fault) => {
            into.truncate(length);
            Err(JournalFault::from(fault))
        }
    }
}

// Appends a journal.
fn put_journal(header: &Header, entries: &[Entry], into: &mut Vec<u8>) -> Result<(), BaseFault>
    ensures ok { OnOk result (into.new.items ≡ into.old.items ++ journal_text header.now entries.now) }
    ensures err { OnErr result (Grows into.old.items into.new.items) }
{
    put_header(header, into)?;
    put_entries(entries, into)?;
    put_line(
        into,
        &[Word::Text(b"end"), Word::Number(entries.len() as u64)],
    )
}

// Appends the lines of a header.
fn put_header(header: &Header, into: &mut Vec<u8>) -> Result<(), BaseFault>
    ensures ok { OnOk result (into.new.items ≡ into.old.items ++ concat (header_lines header.now)) }
    ensures err { OnErr result (Grows into.old.items into.new.items) }
{
    put_test(header.test.as_slice(), into)?;
    put_cut(header, into)
}

// Appends the version of the journal, and the test behind its length.
fn put_test(test: &[u8], into: &mut Vec<u8>) -> Result<(), BaseFault>
    ensures ok { OnOk result (into.new.items ≡ into.old.items ++ concat (test_lines test.now)) }
    ensures err { OnErr result (Grows into.old.items into.new.items) }
{
    put_line(into, &[Word::Text(b"ldjournal"), Word::Text(b"1")])?;
    put_line(
        into,
        &[Word::Text(b"test"), Word::Number(test.len() as u64)],
    )?;
    put_line(into, &[Word::Text(test)])
}

// Appends how the test is cut, and the limit on entries and samples.
fn put_cut(header: &Header, into: &mut Vec<u8>) -> Result<(), BaseFault>
    ensures ok { OnOk result (into.new.items ≡ into.old.items ++ concat (cut_lines header.now)) }
    ensures err { OnErr result (Grows into.old.items into.new.items) }
{
    let segment = header.segment.as_slice();
    let sequence = header.sequence.as_slice();
    put_line(into, &[Word::Text(b"segment"), Word::Text(segment)])?;
    put_line(into, &[Word::Text(b"sequence"), Word::Text(sequence)])?;
    put_line(
        into,
        &[Word::Text(b"entries"), Word::Number(header.entries as u64)],
    )
}

// Appends the lines of entries, in order.
fn put_entries(entries: &[Entry], into: &mut Vec<u8>) -> Result<(), BaseFault>
    ensures ok { OnOk result (into.new.items ≡ into.old.items ++ concat (flat_map entry_lines entries.now)) }
    ensures err { OnErr result (Grows into.old.items into.new.items) }
{
    for entry in entries {
        put_entry(entry, into)?;
    }
    Ok(())
}
