// Shelves: what they keep and read, and how they fail.

use crate::tests::slow_files::SlowFiles;
use crate::tests::table::{
    Call, Steps, add, answered, check, columns, first_word, number, numbers, played, put, said,
    text_of,
};
use ld_base::{Bytes, Text};
use ld_outside::{
    FileShelf, Files, MemShelf, Numbers, Shelf, ShelfCall, ShelfCallKind, SureShelf, put_file,
};
use std::alloc::Global;
use std::fs;
use std::test::Fail;

// Calls on a shelf in memory of the files `first`, `second` and again `first`, with the answers. The first word has the
// numbers of the calls that are to fail. Bytes stand in brackets, behind a fault those that a vector has then.
const KEPT: &str = "\
_ put:first:text file:first file:second file:third => () [text] [two] none
_ put:second:text file:first file:second file:third => () [one] [text] none
_ put:third:text file:first file:second file:third => () [one] [two] [text]
1 put:first:text file:first file:second file:third => Failed [one] [two] none
1 put:third:text file:first file:second file:third => Failed [one] [two] none
2 put:first:text file:first file:second file:third => Failed [te] [two] none
3 put:third:text file:first file:second file:third => () [one] [two] [text]
2,4,7 append:third:abc append:third:defg append:third:hi start:first start:second read:third:9 read:first:9 read:fourth:9 file:first file:second file:third calls => () Failed () Failed () [abcdehi] Failed[] Failed[] [one] [] [abcdehi] Append:third:true Append:third:false Append:third:true Start:first:false Start:second:true Read:third:true Read:first:false Read:fourth:false
4 read:second:18446744073709551615 read:second:3 read:second:2 read:second:3 read:third:3 read:first:4 => [two] [two] TooLong[] Failed[] Failed[] [one]";

// The same on a shelf that never fails.
const SURE: &str = "\
put:first:new append:first:+text start:third file:first file:second file:third file:fourth => () () () [new+text] [two] [] none
put:first:new append:first:+text start:third calls => () () () Start:first:true Append:first:true Append:first:true Start:third:true
read:second:18446744073709551615 read:second:3 read:second:2 read:third:0 calls => [two] [two] TooLong[] [] Read:second:true Read:second:true Read:second:false Read:third:true";

// The same with the files of the machine. A piece of many letters is written by their number.
const REAL: &str = "\
put:part_rows_short.txt:a_longer_text put:part_rows_short.txt:text append:part_rows_short.txt:+more => () () ()
read:part_rows_short.txt:9 read:part_rows_short.txt:8 => [text+more] TooLong[]
put:part_rows_long.txt:x*9000 => ()
read:part_rows_long.txt:18446744073709551615 read:part_rows_long.txt:9000 => [x*9000] [x*9000]
read:part_rows_long.txt:8999 read:part_rows_long.txt:0 => TooLong[] TooLong[]
start:no_such_folder/file append:no_such_folder/file:text put:no_such_folder/file:text => Failed Failed Failed
read:no_such_file:9000 read:.:9000 => Failed[] Failed[]";

// The same with files that have three bytes, and take two in all; they give and take one at a time, and a signal breaks
// off every other call. At their end they fail, where they are to.
const SLOW: &str = "\
sound read:any:18446744073709551615 read:any:3 read:any:2 => [xxx] [xxx] TooLong[]
sound put:any:ab append:any:c => () ()
failing read:any:3 read:any:2 => Failed[] TooLong[]
failing put:any:ab append:any:abc => () Failed";

// A piece of bytes.
fn piece_of(alloc: Global, word: &str) -> Result<Vec<u8>, Fail> {
    match word.strip_prefix("x*") {
        Some(count) => Ok(vec![in alloc; b'x'; number(count) as usize]?),
        None => Ok(Vec::from_slice(alloc, word.as_bytes())?),
    }
}

// Bytes between brackets.
fn bytes_told(alloc: Global, bytes: &[u8]) -> Result<String, Fail> {
    let count = bytes.len();
    if count > 100 && bytes.iter().all(|byte| *byte == b'x') {
        return Ok(format!(in alloc; "[x*{count}]")?);
    }
    let text = text_of(bytes);
    Ok(format!(in alloc; "[{text}]")?)
}

// Reads a file into a vector that has bytes, and tells those that it has then.
fn read_told<S: Shelf>(alloc: Global, shelf: &mut S, name: &str, cap: u64) -> Result<String, Fail> {
    let mut into = Vec::from_slice(alloc, b"before")?;
    let mut line = match shelf.read(name, &mut into, cap) {
        Ok(()) => String::new(alloc),
        Err(fault) => format!(in alloc; "{fault:?}")?,
    };
    line.push_str(bytes_told(alloc, &into)?.as_str())?;
    Ok(line)
}

// What a shelf answers to a word.
fn shelf_told<S: Shelf>(alloc: Global, shelf: &mut S, word: &str) -> Result<String, Fail> {
    let (call, rest) = word.split_once(':').unwrap_or((word, ""));
    let (name, rest) = rest.split_once(':').unwrap_or((rest, ""));
    if call == "read" {
        return read_told(alloc, shelf, name, number(rest));
    }
    let piece = piece_of(alloc, rest)?;
    let answer = match call {
        "start" => shelf.start(name),
        "append" => shelf.append(name, &piece),
        _ => put_file(shelf, name, &piece),
    };
    answered(alloc, answer)
}

// The bytes of a file, if it is there.
fn file_told(alloc: Global, file: Option<&[u8]>) -> Result<String, Fail> {
    match file {
        Some(bytes) => bytes_told(alloc, bytes),
        None => said(alloc, "none"),
    }
}

// The name of a kind of calls.
fn kind_told(kind: ShelfCallKind) -> &'static str {
    match kind {
        ShelfCallKind::Start => "Start",
        ShelfCallKind::Append => "Append",
        ShelfCallKind::Read => "Read",
    }
}

// Calls, each with its file and whether it answered Ok.
fn calls_told(alloc: Global, calls: &[ShelfCall]) -> Result<String, Fail> {
    let mut line = String::new(alloc);
    for call in calls {
        let (kind, name) = (kind_told(call.kind), text_of(call.name.as_slice()));
        let ok = call.answered_ok;
        add(&mut line, format!(in alloc; "{kind}:{name}:{ok}")?)?;
    }
    Ok(line)
}

impl Steps for MemShelf {
    fn step(&mut self, alloc: Global, word: &str) -> Result<String, Fail> {
        if word == "calls" {
            return calls_told(alloc, self.calls());
        }
        match word.strip_prefix("file:") {
            Some(name) => file_told(alloc, self.file(name)),
            None => shelf_told(alloc, self, word),
        }
    }
}

impl Steps for SureShelf {
    fn step(&mut self, alloc: Global, word: &str) -> Result<String, Fail> {
        if word == "calls" {
            return calls_told(alloc, self.calls());
        }
        match word.strip_prefix("file:") {
            Some(name) => file_told(alloc, self.file(name)),
            None => shelf_told(alloc, self, word),
        }
    }
}

impl<R: fs::Files> Steps for FileShelf<'_, R> {
    fn step(&mut self, alloc: Global, word: &str) -> Result<String, Fail> {
        shelf_told(alloc, self, word)
    }
}

// A file of this name and these bytes.
fn file(alloc: Global, name: &str, bytes: &str) -> Result<(Text, Bytes), Fail> {
    let name = Text::of(Vec::from_slice(alloc, name.as_bytes())?);
    let bytes = Bytes::of(Vec::from_slice(alloc, bytes.as_bytes())?);
    Ok((name, bytes))
}

// Two files, one of them a second time under its name.
fn files(alloc: Global) -> Result<Files, Fail> {
    let first = file(alloc, "first", "one")?;
    let second = file(alloc, "second", "two")?;
    let again = file(alloc, "first", "three")?;
    Ok(Files::of(vec![in alloc; first, second, again]?))
}

struct KeptInMemory;

impl Call for KeptInMemory {
    fn answer(alloc: Global, given: &str) -> Result<String, Fail> {
        let (failing, line) = first_word(given);
        let failing = Numbers::of(numbers(alloc, failing)?);
        let mut shelf = MemShelf::new(alloc, files(alloc)?, failing);
        played(alloc, &mut shelf, line)
    }
}

struct KeptSurely;

impl Call for KeptSurely {
    fn answer(alloc: Global, given: &str) -> Result<String, Fail> {
        played(alloc, &mut SureShelf::new(alloc, files(alloc)?), given)
    }
}

struct KeptSlowly;

impl Call for KeptSlowly {
    fn answer(alloc: Global, given: &str) -> Result<String, Fail> {
        let (kind, line) = first_word(given);
        let files = SlowFiles {
            are_to_fail: kind == "failing",
        };
        played(alloc, &mut FileShelf::new(&files), line)
    }
}

/// Shelves in memory, which fail where they are told to.
#[test]
fn shelves_in_memory(rt: HostRuntime) -> Result<(), Fail> {
    check::<KeptInMemory, _>(&rt, KEPT)
}

/// Shelves in memory that never fail.
#[test]
fn sure_shelves(rt: HostRuntime) -> Result<(), Fail> {
    check::<KeptSurely, _>(&rt, SURE)
}

/// Files that give and take a byte at a time.
#[test]
fn slow_shelves(rt: HostRuntime) -> Result<(), Fail> {
    check::<KeptSlowly, _>(&rt, SLOW)
}

/// The files of the machine.
#[test]
fn real_shelves(rt: HostRuntime) -> Result<(), Fail> {
    let mut shelf = FileShelf::new(&rt);
    for row in REAL.lines() {
        let (given, want) = columns(row);
        let answers = played(rt.alloc(), &mut shelf, given)?;
        assert_eq!(rt; answers.as_str(), want, "{row}");
    }
    let kept = fs::read(&rt, "part_rows_short.txt")?;
    assert_eq!(rt; text_of(&kept), "text+more");
    fs::remove_file(&rt, "part_rows_short.txt")?;
    fs::remove_file(&rt, "part_rows_long.txt")?;
    Ok(())
}

/// Lists of files and of numbers are lent as they were made.
#[test]
fn lent_lists(rt: HostRuntime) -> Result<(), Fail> {
    let alloc = rt.alloc();
    let mut line = String::new(alloc);
    for (name, bytes) in files(alloc)?.as_slice() {
        put(&mut line, text_of(name.as_slice()))?;
        put(&mut line, text_of(bytes.as_slice()))?;
    }
    let numbers = Numbers::of(numbers(alloc, "2,9")?);
    add(&mut line, format!(in alloc; "{:?}", numbers.as_slice())?)?;
    assert_eq!(rt; line.as_str(), "first one second two first three [2, 9]");
    Ok(())
}
