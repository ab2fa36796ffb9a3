// The real files. They tell nothing of what they hold.
ghost use Rattle.std.specs.Prelude.{◌≡◌, ◌<◌, ◌≤◌, length, take, [], IfSome, IsErrOf, IsTrue, OnOk};
ghost use Rattle.std.specs.Io.KnownBytes.{Appends, Consumes, IsAtEnd};
ghost use Rattle.ld_outside.specs.FileShelf.{HasMore, HasRead, HasWritten};

use crate::shelf::{Shelf, ShelfFault};
use std::fs::{Files, OpenOptions};
use std::io::{ErrorKind, Read, Write};

/// How often a read or a write that a signal broke off is tried again.
const TRIES: u32 = 64;

/// How many bytes a file is asked for at once.
const PIECE: usize = 4096;

/// The files of the machine, through the runtime that it is given. A name is a path. It fails at each read
/// of a file that isn't there. It counts its faults, and tells nothing of what it holds.
#[derive(Drop)]
pub struct FileShelf<'a, R> {
    rt: &'a R,
    read_faults: u64,
    write_faults: u64,
}

impl<'a, R: Files> FileShelf<'a, R> {
    ghost use Rattle.std.specs.Prelude.{◌↔◌, IsOk};
    ghost use Rattle.ld_outside.specs.Shelf.{CountsReadFault, CountsWriteFault};

    /// The files of the machine, with no fault counted.
    pub fn new(rt: &'a R) -> FileShelf<'a, R>
        ensures reads { result.read_faults ≡ 0 }
        ensures writes { result.write_faults ≡ 0 }
    {
        FileShelf {
            rt,
            read_faults: 0,
            write_faults: 0,
        }
    }

    // Answers a read, and counts it where it failed.
    fn answer_read(&mut self, read: Result<(), ShelfFault>) -> Result<(), ShelfFault>
        ensures same { result ≡ read }
        ensures counted { CountsReadFault self.old.read_faults result self.new.read_faults }
        ensures writes { self.new.write_faults ≡ self.old.write_faults }
    {
        if read == Err(ShelfFault::Failed) {
            self.read_faults = self.read_faults.saturating_add(1);
        }
        read
    }

    // Answers a write that was done, or counts a fault.
    fn answer_write(&mut self, done: bool) -> Result<(), ShelfFault>
        ensures ok { IsOk result ↔ IsTrue done }
        ensures counted { CountsWriteFault self.old.write_faults result self.new.write_faults }
        ensures reads { self.new.read_faults ≡ self.old.read_faults }
    {
        if done {
            return Ok(());
        }
        self.write_faults = self.write_faults.saturating_add(1);
        Err(ShelfFault::Failed)
    }
}

impl<'a, R: Files> Shelf for FileShelf<'a, R> {
    ghost use Rattle.ld_outside.specs.FileShelf.{untold};
    ghost use Rattle.ld_outside.specs.Shelf.{IsAppend, IsRead, IsStart};

    ghost seen = { λ s. untold s.read_faults s.write_faults };

    fn start(&mut self, name: &str) -> Result<(), ShelfFault>
        ensures start { IsStart (untold self.old.read_faults self.old.write_faults) name.now result
            (untold self.new.read_faults self.new.write_faults) }
        ensures opened { OnOk result (HasWritten R.File.contents []) }
    {
        let done = start_file(self.rt, name);
        self.answer_write(done)
    }

    fn append(&mut self, name: &str, piece: &[u8]) -> Result<(), ShelfFault>
        ensures append { IsAppend (untold self.old.read_faults self.old.write_faults) name.now piece.now result
            (untold self.new.read_faults self.new.write_faults) }
        ensures written { OnOk result (HasWritten R.File.contents piece.now) }
    {
        let done = append_file(self.rt, name, piece);
        self.answer_write(done)
    }

    fn read(&mut self, name: &str, into: &mut Vec<u8>, cap: u64) -> Result<(), ShelfFault>
        ensures read { IsRead (untold self.old.read_faults self.old.write_faults) name.now cap into.new.items result
            (untold self.new.read_faults self.new.write_faults) }
        ensures whole { OnOk result (HasRead R.File.remaining into.new.items) }
        ensures longer { IsErrOf result ShelfFault.TooLong → HasMore R.File.remaining cap }
    {
        let read = read_file(self.rt, name, into, cap);
        if read.is_err() {
            into.clear();
        }
        self.answer_read(read)
    }
}

// Makes a file empty, and answers whether that was done.
fn start_file<R: Files>(rt: &R, name: &str) -> bool
    ensures { IsTrue result → HasWritten R.File.contents [] }
{
    let mut how = OpenOptions::new();
    how.write(true).create(true).truncate(true);
    let Ok(_file) = how.open(rt, name) else {
        return false;
    };
    true
}

// Writes a piece at the end of a file, and answers whether all of it was written.
fn append_file<R: Files>(rt: &R, name: &str, piece: &[u8]) -> bool
    ensures { IsTrue result → HasWritten R.File.contents piece.now }
{
    let Ok(mut file) = OpenOptions::new().append(true).create(true).open(rt, name) else {
        return false;
    };
    write_piece(&mut file, piece)
}

// Writes a whole piece, and answers whether that was done.
fn write_piece<W: Write>(file: &mut W, piece: &[u8]) -> bool
    ensures { IsTrue result → Appends (W.contents file.old) (W.contents file.new) piece.now }
{
    let mut done = 0;
    while done < piece.len() {
        let (_, rest) = piece.split_at(done);
        match write_some(file, rest) {
            Some(written) => done += written,
            None => return false,
        }
    }
    true
}

// Writes a front of the piece and answers its length. None where the file failed, or took nothing of a
// piece that has a byte.
fn write_some<W: Write>(file: &mut W, piece: &[u8]) -> Option<usize>
    ensures within { IfSome result (λ n. n ≤ length piece.now) }
    ensures some { IfSome result (λ n. 0 < length piece.now → 0 < n) }
    ensures bytes { IfSome result (λ n. Appends (W.contents file.old) (W.contents file.new) (take n piece.now)) }
{
    for _ in 0..TRIES {
        match file.write(piece) {
            Ok(0) if !piece.is_empty() => return None,
            Ok(written) => return Some(written),
            Err(error) if error.kind() == ErrorKind::Interrupted => {}
            Err(_) => return None,
        }
    }
    None
}

// Makes `into` the bytes of a file. After a fault it may have any bytes.
fn read_file<R: Files>(rt: &R, name: &str, into: &mut Vec<u8>, cap: u64) -> Result<(), ShelfFault>
    ensures whole { OnOk result (HasRead R.File.remaining into.new.items) }
    ensures within { OnOk result (length into.new.items ≤ cap) }
    ensures longer { IsErrOf result ShelfFault.TooLong → HasMore R.File.remaining cap }
{
    let Ok(mut file) = OpenOptions::new().read(true).open(rt, name) else {
        return Err(ShelfFault::Failed);
    };
    read_to_end(&mut file, into, cap)
}

// Makes `into` the bytes that a file has left, up to its end or until they are more than `cap`.
fn read_to_end<F: Read>(file: &mut F, into: &mut Vec<u8>, cap: u64) -> Result<(), ShelfFault>
    ensures whole { OnOk result (Consumes (F.remaining file.old) (F.remaining file.new) into.new.items) }
    ensures end { OnOk result (IsAtEnd (F.remaining file.new)) }
    ensures within { OnOk result (length into.new.items ≤ cap) }
    ensures front { IsErrOf result ShelfFault.TooLong → Consumes (F.remaining file.old) (F.remaining file.new) into.new.items }
    ensures longer { IsErrOf result ShelfFault.TooLong → cap < length into.new.items }
{
    into.clear();
    let mut piece = [0; PIECE];
    while into.len() as u64 <= cap {
        let Some(count) = read_some(file, &mut piece) else {
            return Err(ShelfFault::Failed);
        };
        if count == 0 {
            return Ok(());
        }
        let (bytes, _) = piece.split_at(count);
        let Ok(()) = into.extend_from_slice(bytes) else {
            return Err(ShelfFault::Memory);
        };
    }
    Err(ShelfFault::TooLong)
}

// Reads bytes into the front of the piece and answers how many, none only at the end of the file. None
// where the file failed.
fn read_some<F: Read>(file: &mut F, piece: &mut [u8]) -> Option<usize>
    ensures within { IfSome result (λ n. n ≤ length piece.new) }
    ensures bytes { IfSome result (λ n. Consumes (F.remaining file.old) (F.remaining file.new) (take n piece.new)) }
    ensures end { IfSome result (λ n. n ≡ 0 → 0 < length piece.old → IsAtEnd (F.remaining file.new)) }
{
    for _ in 0..TRIES {
        match file.read(piece) {
            Ok(count) => return Some(count),
            Err(error) if error.kind() == ErrorKind::Interrupted => {}
            Err(_) => return None,
        }
    }
    None
}
