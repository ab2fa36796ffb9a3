// The text that says all that a command gave. What is empty or as before is left out:
// `STATUS, out "..", err "..", read t, start j, append j failed, j is ..`.

use crate::tests::known::put_journal;
use ld_outside::{ShelfCall, ShelfCallKind};
use std::alloc::Global;
use std::str;
use std::test::Fail;

/// A report of the status, and of what standard output and standard error took.
pub fn report_of(alloc: Global, status: u8, out: &[u8], err: &[u8]) -> Result<String, Fail> {
    let mut report = format!(in alloc; "{status}")?;
    put_text(&mut report, "out", out)?;
    put_text(&mut report, "err", err)?;
    Ok(report)
}

// Appends what a sink took.
fn put_text(report: &mut String, sink: &str, text: &[u8]) -> Result<(), Fail> {
    if text.is_empty() {
        return Ok(());
    }
    let text = str::from_utf8(text)?;
    write!(report, ", {sink} {text:?}")?;
    Ok(())
}

/// Appends the calls of a shelf.
pub fn put_calls(report: &mut String, calls: &[ShelfCall]) -> Result<(), Fail> {
    for call in calls {
        let kind = kind_name(call.kind);
        let name = str::from_utf8(call.name.as_slice())?;
        let end = if call.answered_ok { "" } else { " failed" };
        write!(report, ", {kind} {name}{end}")?;
    }
    Ok(())
}

// What a kind of call is called.
fn kind_name(kind: ShelfCallKind) -> &'static str {
    match kind {
        ShelfCallKind::Start => "start",
        ShelfCallKind::Append => "append",
        ShelfCallKind::Read => "read",
    }
}

/// Appends what a file became, where it isn't as it was.
pub fn put_file(
    report: &mut String,
    name: &str,
    before: Option<&str>,
    now: Option<&[u8]>,
) -> Result<(), Fail> {
    let now = match now {
        Some(bytes) => Some(str::from_utf8(bytes)?),
        None => None,
    };
    if now == before {
        return Ok(());
    }
    write!(report, ", {name} is ")?;
    match now {
        Some(text) => put_journal(report, text)?,
        None => report.push_str("gone")?,
    }
    Ok(())
}
