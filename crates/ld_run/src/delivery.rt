// How an answer is written, and a refusal said.
ghost use Rattle.std.specs.Prelude.{IfSome};
ghost use Rattle.std.specs.Str.{IsUtf8};
ghost use Rattle.ld_answer.specs.Answer.{HasUtf8Name};
ghost use Rattle.ld_run.specs.Delivery.{IsDelivered, IsEndSaid, IsFiled};
ghost use Rattle.ld_run.specs.Saying.{IsRefusalSaid, IsSaid};
ghost use Rattle.ld_answer.specs.declared.answer.NamedFile.{NamedFile};

use ld_answer::{Answer, NamedFile, Refusal, full_line, name_of};
use ld_outside::{Shelf, ShelfFault, Sink, SinkFault, put_all, put_file};
use ld_rehearsal::FullJournal;
use std::alloc::Global;

/// The status of a run that ended well.
const WELL: u8 = 0;

/// The status of a fault of writing.
const WRITE_FAULT: u8 = 4;

/// The status of a journal that had no room.
const FULL: u8 = 7;

/// The status of want of memory.
const MEMORY_FAULT: u8 = 9;

// Writes the answer: its file, its text on `out`, and a line on `err` where that fails or a journal had no
// room.
pub fn deliver<S: Shelf, O: Sink, E: Sink>(
    alloc: Global,
    answer: &Answer,
    shelf: &mut S,
    out: &mut O,
    err: &mut E,
) -> u8
    requires { HasUtf8Name answer.now }
    ensures { IsDelivered answer.now result (S.seen shelf.old) (S.seen shelf.new)
        (O.seen out.old) (O.seen out.new) (E.seen err.old) (E.seen err.new) }
{
    match put_named(&answer.file, shelf) {
        Ok(()) => {}
        Err(ShelfFault::Failed) => return say(b"error write\n", WRITE_FAULT, err),
        Err(ShelfFault::TooLong) => unreachable!(),
        Err(ShelfFault::Memory) => return say(b"error memory\n", MEMORY_FAULT, err),
    }
    match put_all(out, answer.text.as_slice()) {
        Ok(()) => end(alloc, answer.full, err),
        Err(SinkFault::Failed) => say(b"error write\n", WRITE_FAULT, err),
        Err(SinkFault::Memory) => say(b"error memory\n", MEMORY_FAULT, err),
    }
}

// Puts the file, if there is one, on the shelf.
fn put_named<S: Shelf>(file: &Option<NamedFile>, shelf: &mut S) -> Result<(), ShelfFault>
    requires { IfSome file.now (λ (f : NamedFile). IsUtf8 f.name) }
    ensures { IsFiled file.now result (S.seen shelf.old) (S.seen shelf.new) }
{
    match file {
        Some(file) => put_file(shelf, name_of(&file.name), file.bytes.as_slice()),
        None => Ok(()),
    }
}

// Ends a command whose answer was written: well, or with the line for a journal that had no room.
fn end<E: Sink>(alloc: Global, full: Option<FullJournal>, err: &mut E) -> u8
    ensures { IsEndSaid full result (E.seen err.old) (E.seen err.new) }
{
    let Some(full) = full else {
        return WELL;
    };
    match full_line(alloc, full) {
        Ok(line) => say(&line, FULL, err),
        Err(_) => say(b"error memory\n", MEMORY_FAULT, err),
    }
}

// Puts the line of the refusal on `err`.
pub fn refuse<E: Sink>(alloc: Global, refusal: &Refusal, err: &mut E) -> u8
    ensures { IsRefusalSaid refusal.now result (E.seen err.old) (E.seen err.new) }
{
    match refusal.line(alloc) {
        Ok(line) => say(&line, refusal.status(), err),
        Err(_) => say(b"error memory\n", MEMORY_FAULT, err),
    }
}

// Puts a line on `err`. The status stays, whatever `err` does, but for want of memory.
fn say<E: Sink>(line: &[u8], status: u8, err: &mut E) -> u8
    ensures { IsSaid line.now status result (E.seen err.old) (E.seen err.new) }
{
    match put_all(err, line) {
        Ok(()) | Err(SinkFault::Failed) => status,
        Err(SinkFault::Memory) => MEMORY_FAULT,
    }
}
