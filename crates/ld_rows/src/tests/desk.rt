// A desk with objects in memory, at which a command line is carried out.
//
// A row gives the line, and before it, where the desk isn't the usual one, a setting and a stroke, as
// `test three shelf 1 | plan t`. A setting is pairs of words:
// - `test NAME`: the file `t` is the test of this name;
// - `test TEXT`: the file `t` is this text, which has no spaces;
// - `blanks N`: the file `t` is so many blanks;
// - `shelf N`, `out N`, `err N`: the call of this number, from 1, of the shelf or of a sink fails.
//
// At the usual desk no call fails, and there is no file `t`. Each has a file `j`, and a file `k` that no row names.

use crate::tests::known::test_named;
use crate::tests::report::{put_calls, put_file, report_of};
use crate::tests::table::Call;
use ld_base::{Bytes, Text};
use ld_outside::{Files, MemShelf, MemSink, Numbers};
use ld_run::command;
use std::alloc::{AllocError, Global};
use std::test::Fail;

// What the file `j` holds before a command.
const OLD: &str = "old";

// What the file `k` holds.
const KEPT: &str = "kept";

/// A command line at the desk of a setting.
pub struct AtADesk;

impl Call for AtADesk {
    fn answer(alloc: Global, given: &str) -> Result<String, Fail> {
        let (setting, line) = given.split_once('|').unwrap_or(("", given));
        let test = test_of(alloc, setting)?;
        let words = words_of(alloc, line)?;
        let mut desk = desk_of(alloc, setting, &test)?;
        let status = command(
            &((), alloc),
            &words,
            &mut desk.shelf,
            &mut desk.out,
            &mut desk.err,
        );
        told(alloc, status, &desk, &test)
    }
}

// The objects at a desk.
#[derive(Drop)]
struct Desk {
    shelf: MemShelf,
    out: MemSink,
    err: MemSink,
}

// The desk of a setting, with this test if there is one.
fn desk_of(alloc: Global, setting: &str, test: &Option<String>) -> Result<Desk, AllocError> {
    let files = files_with(alloc, test)?;
    let shelf = MemShelf::new(alloc, files, failing(alloc, setting, "shelf")?);
    let out = MemSink::new(alloc, failing(alloc, setting, "out")?);
    let err = MemSink::new(alloc, failing(alloc, setting, "err")?);
    Ok(Desk { shelf, out, err })
}

// What a command gave at a desk.
fn told(alloc: Global, status: u8, desk: &Desk, test: &Option<String>) -> Result<String, Fail> {
    let mut report = report_of(alloc, status, desk.out.taken(), desk.err.taken())?;
    put_changes(&mut report, &desk.shelf, test)?;
    Ok(report)
}

/// The words of a line. An empty word is written `_`.
pub fn words_of(alloc: Global, line: &str) -> Result<Vec<String>, AllocError> {
    let mut words = Vec::new(alloc);
    for word in line.split_whitespace() {
        let word = if word == "_" { "" } else { word };
        words.push(String::from_str(alloc, word)?)?;
    }
    Ok(words)
}

// The word behind this one in a setting, if it is there.
fn word_behind<'a>(setting: &'a str, key: &str) -> Option<&'a str> {
    let mut is_behind = false;
    for word in setting.split_whitespace() {
        if is_behind {
            return Some(word);
        }
        is_behind = word == key;
    }
    None
}

// The number behind this word in a setting, if it is there.
fn number_behind(setting: &str, key: &str) -> Option<u64> {
    word_behind(setting, key)?.parse::<u64>().ok()
}

// The calls of this object that are to fail.
fn failing(alloc: Global, setting: &str, object: &str) -> Result<Numbers, AllocError> {
    let mut numbers = Vec::new(alloc);
    if let Some(number) = number_behind(setting, object) {
        numbers.push(number)?;
    }
    Ok(Numbers::of(numbers))
}

// The text of the file `t`, if it is there.
fn test_of(alloc: Global, setting: &str) -> Result<Option<String>, AllocError> {
    if let Some(count) = number_behind(setting, "blanks") {
        return Ok(Some(blanks(alloc, count)?));
    }
    match word_behind(setting, "test") {
        Some(name) => Ok(Some(String::from_str(alloc, test_named(name))?)),
        None => Ok(None),
    }
}

// So many blanks.
fn blanks(alloc: Global, count: u64) -> Result<String, AllocError> {
    let mut text = String::new(alloc);
    for _ in 0..count {
        text.push(' ')?;
    }
    Ok(text)
}

// A file of this name and this text.
fn file(alloc: Global, name: &str, text: &str) -> Result<(Text, Bytes), AllocError> {
    let name = Text::of(Vec::from_slice(alloc, name.as_bytes())?);
    let bytes = Bytes::of(Vec::from_slice(alloc, text.as_bytes())?);
    Ok((name, bytes))
}

// The files before a command, with this test if there is one.
fn files_with(alloc: Global, test: &Option<String>) -> Result<Files, AllocError> {
    let mut files = Vec::new(alloc);
    files.push(file(alloc, "j", OLD)?)?;
    files.push(file(alloc, "k", KEPT)?)?;
    if let Some(test) = test {
        files.push(file(alloc, "t", test)?)?;
    }
    Ok(Files::of(files))
}

// Appends the calls of the shelf, and the files that aren't as they were.
fn put_changes(report: &mut String, shelf: &MemShelf, test: &Option<String>) -> Result<(), Fail> {
    put_calls(report, shelf.calls())?;
    put_file(report, "j", Some(OLD), shelf.file("j"))?;
    put_file(report, "k", Some(KEPT), shelf.file("k"))?;
    put_file(report, "t", test.as_deref(), shelf.file("t"))
}
