// Tables of rows: what is given, an arrow, and what is wanted.

use std::alloc::Global;
use std::fmt::Debug;
use std::process::Abort;
use std::test::Fail;

/// A call of which rows are checked: what it answers, as a text.
pub trait Call {
    fn answer(alloc: Global, given: &str) -> Result<String, Fail>;
}

/// An object to which each word of a row is a call.
pub trait Steps {
    fn step(&mut self, alloc: Global, word: &str) -> Result<String, Fail>;
}

/// The two columns of a row, around an arrow.
pub fn columns(row: &str) -> (&str, &str) {
    let (left, right) = row.split_once("=>").unwrap_or((row, ""));
    (left.trim(), right.trim())
}

/// Calls what each row gives, and compares what it answers.
pub fn check<C: Call, R: AllocGlobal + Abort>(rt: &R, table: &str) -> Result<(), Fail> {
    for row in table.lines() {
        let (given, want) = columns(row);
        let said = C::answer(rt.alloc(), given)?;
        assert_eq!(rt; said.as_str(), want, "{row}");
    }
    Ok(())
}

/// What an object answers to the words of a line, from left to right.
pub fn played<S: Steps>(alloc: Global, object: &mut S, line: &str) -> Result<String, Fail> {
    let mut said = String::new(alloc);
    for word in line.split_whitespace() {
        add(&mut said, object.step(alloc, word)?)?;
    }
    Ok(said)
}

// Puts a text behind others, with a mark between them. An empty one changes nothing.
fn join(line: &mut String, mark: &str, text: &str) -> Result<(), Fail> {
    if !line.is_empty() && !text.is_empty() {
        line.push_str(mark)?;
    }
    line.push_str(text)?;
    Ok(())
}

/// Puts a text behind others, with a space between them.
pub fn put(line: &mut String, text: &str) -> Result<(), Fail> {
    join(line, " ", text)
}

/// Puts a text of its own behind others, with a space between them.
pub fn add(line: &mut String, text: String) -> Result<(), Fail> {
    join(line, " ", text.as_str())
}

/// Puts a text of its own behind others, with a comma between them.
pub fn add_behind_comma(line: &mut String, text: String) -> Result<(), Fail> {
    join(line, ",", text.as_str())
}

/// A text of its own.
pub fn said(alloc: Global, text: &str) -> Result<String, Fail> {
    Ok(String::from_str(alloc, text)?)
}

/// The name of a fault, or of another small value.
pub fn named<T: Debug + Drop>(alloc: Global, value: T) -> Result<String, Fail> {
    Ok(format!(in alloc; "{value:?}")?)
}

/// What a call answered, or why it failed.
pub fn answered<T: Debug + Drop, F: Debug + Drop>(
    alloc: Global,
    answer: Result<T, F>,
) -> Result<String, Fail> {
    match answer {
        Ok(value) => named(alloc, value),
        Err(fault) => named(alloc, fault),
    }
}

/// The numbers of a word, joined by commas. One that stands there more often is written with a star, as `0*101`.
pub fn numbers(alloc: Global, word: &str) -> Result<Vec<u64>, Fail> {
    let mut list = Vec::new(alloc);
    if word.is_empty() {
        return Ok(list);
    }
    for part in word.split(',') {
        let (item, count) = part.split_once('*').unwrap_or((part, "1"));
        for _ in 0..number(count) {
            list.push(number(item))?;
        }
    }
    Ok(list)
}

/// A value that may go to another thread.
pub fn may_cross<T: Send + Sync>(_value: &T) {}

/// The text that bytes are.
pub fn text_of(bytes: &[u8]) -> &str {
    str::from_utf8(bytes).unwrap_or("no UTF-8")
}

/// The first word of a line, and the rest. An empty word is written `_`.
pub fn first_word(line: &str) -> (&str, &str) {
    let (first, rest) = line.split_once(' ').unwrap_or((line, ""));
    (if first == "_" { "" } else { first }, rest.trim())
}

/// The number that a word is, or 0 where it is none.
pub fn number(word: &str) -> u64 {
    word.parse().unwrap_or(0)
}
