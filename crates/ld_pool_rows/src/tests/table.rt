// Tables of rows: what is given, an arrow, and what is wanted.

use std::alloc::Global;
use std::process::Abort;
use std::str::{self, SplitWhitespace};
use std::test::Fail;

/// A call of which rows are checked: what it answers, as a text.
pub trait Call {
    fn answer(alloc: Global, given: &str) -> Result<String, Fail>;
}

/// A state of which scripts of calls are checked: what each call answers, as a text.
pub trait State: Drop + Sized {
    fn open(alloc: Global, given: &str) -> Result<Self, Fail>;

    fn call(&mut self, alloc: Global, call: &str) -> Result<String, Fail>;
}

/// The two parts of a text, around the first of this one.
pub fn parts<'a>(text: &'a str, between: &str) -> (&'a str, &'a str) {
    let (left, right) = text.split_once(between).unwrap_or((text, ""));
    (left.trim(), right.trim())
}

/// The number that a text writes, or 0.
pub fn number(text: &str) -> u64 {
    text.parse().unwrap_or(0)
}

/// The number below 2 to the power of 32 that a text writes, or 0.
pub fn count(text: &str) -> u32 {
    u32::try_from(number(text)).unwrap_or(0)
}

/// The number below 65,536 that a text writes, or 0.
pub fn small(text: &str) -> u16 {
    u16::try_from(number(text)).unwrap_or(0)
}

/// Calls what each row gives, and compares what it answers.
pub fn check<C: Call, R: AllocGlobal + Abort>(rt: &R, table: &str) -> Result<(), Fail> {
    for row in table.lines() {
        let (given, want) = parts(row, "=>");
        let said = C::answer(rt.alloc(), given)?;
        compare(rt, &said, want, row);
    }
    Ok(())
}

// Compares what was said at a row with what is wanted.
fn compare<R: Abort>(rt: &R, said: &str, want: &str, row: &str) {
    assert!(rt; said == want, "{row}: {said}");
}

/// Opens a state where a row has no arrow, as the first has none; makes the call of each other row, and compares what
/// it answers.
pub fn check_script<S: State, R: AllocGlobal + Abort>(rt: &R, script: &str) -> Result<(), Fail> {
    let mut rows = script.lines();
    let mut state = S::open(rt.alloc(), rows.next().unwrap_or(""))?;
    for row in rows {
        match row.split_once("=>") {
            Some((given, want)) => {
                let said = state.call(rt.alloc(), given.trim())?;
                compare(rt, &said, want.trim(), row);
            }
            None => state = S::open(rt.alloc(), row)?,
        }
    }
    Ok(())
}

/// Bytes as a text, in which a stroke stands for each line feed.
pub fn shown(alloc: Global, bytes: &[u8]) -> Result<String, Fail> {
    let mut said = Vec::new(alloc);
    for byte in bytes {
        said.push(if *byte == b'\n' { b'/' } else { *byte })?;
    }
    Ok(String::from_str(alloc, str::from_utf8(&said)?)?)
}

/// The next word, as a number below 65,536, or 0.
pub fn next_small(words: &mut SplitWhitespace<'_>) -> u16 {
    small(words.next().unwrap_or(""))
}

/// The next word, as a number below 2 to the power of 32, or 0.
pub fn next_count(words: &mut SplitWhitespace<'_>) -> u32 {
    count(words.next().unwrap_or(""))
}

/// The next word, as a number, or 0.
pub fn next_number(words: &mut SplitWhitespace<'_>) -> u64 {
    number(words.next().unwrap_or(""))
}
