// What a shelf in memory keeps.
ghost use Rattle.std.specs.Prelude.{◌≡◌, ◌<◌, ◌++◌, ◌∷◌, Some, None, IfSome, IfNone, IfOk, OnOk, OnErr, [], vec_len, vec_capacity};
ghost use Rattle.ld_outside.specs.MemShelf.{IsPlace, with_file};
ghost use Rattle.ld_outside.specs.ShelfView.{bytes_of, call_of, file_of};

use crate::files::Files;
use crate::shelf::ShelfFault;
use crate::shelf_call::{ShelfCall, ShelfCallKind};
use ld_base::{Bytes, Text};
use std::alloc::{AllocError, Global};
use std::marker::Model;

/// The files of a shelf in memory, and its calls so far. A call that lacks memory changes nothing.
#[derive(Drop)]
pub(crate) struct KeptFiles {
    alloc: Global,
    files: Vec<(Text, Bytes)>,
    calls: Vec<ShelfCall>,
}

impl Model for KeptFiles {
    ghost use Rattle.ld_outside.specs.ShelfView.{Kept};

    ghost Value = { Kept };

    ghost view = { λ k. record { files = k.files.items; calls = k.calls.items } };
}

impl KeptFiles {
    ghost use Rattle.ld_outside.specs.MemShelf.{IsSureRead, appended, not_started, started, was_read};

    /// These files, and no calls. It takes no memory.
    pub(crate) fn new(alloc: Global, files: Files) -> KeptFiles
        ensures { result ≡ record { files = files; calls = [] } }
    {
        KeptFiles {
            alloc,
            files: files.into_pairs(),
            calls: Vec::new(alloc),
        }
    }

    /// The bytes of the file of this name. None exactly where there is none.
    pub(crate) fn file(&self, name: &str) -> Option<&[u8]>
        ensures some { IfSome result (λ bytes. file_of name.now self.now.files ≡ Some bytes.now) }
        ensures none { IfNone result (file_of name.now self.now.files ≡ None) }
    {
        find_file(&self.files, name)
    }

    /// The calls so far, in order.
    pub(crate) fn calls(&self) -> &[ShelfCall]
        ensures { result.now ≡ self.now.calls }
    {
        self.calls.as_slice()
    }

    /// A start that answers Ok.
    pub(crate) fn start(&mut self, name: &str) -> Result<(), AllocError>
        ensures ok { OnOk result (self.new ≡ started name.now self.old) }
        ensures err { OnErr result (self.new ≡ self.old) }
    {
        let of_file = text_of(self.alloc, name)?;
        self.files.reserve(1)?;
        note(
            self.alloc,
            &mut self.calls,
            ShelfCallKind::Start,
            name,
            true,
        )?;
        set_file(&mut self.files, of_file, Bytes::of(Vec::new(self.alloc)));
        Ok(())
    }

    /// A start that fails.
    pub(crate) fn fail_start(&mut self, name: &str) -> Result<(), AllocError>
        ensures ok { OnOk result (self.new ≡ not_started name.now self.old) }
        ensures err { OnErr result (self.new ≡ self.old) }
    {
        note(
            self.alloc,
            &mut self.calls,
            ShelfCallKind::Start,
            name,
            false,
        )
    }

    /// An append of this piece, which answers Ok or is told not to.
    pub(crate) fn append(&mut self, name: &str, piece: &[u8], ok: bool) -> Result<(), AllocError>
        ensures ok { OnOk result (self.new ≡ appended name.now piece.now ok self.old) }
        ensures err { OnErr result (self.new ≡ self.old) }
    {
        let of_file = text_of(self.alloc, name)?;
        let bytes = longer(self.alloc, &self.files, name, piece)?;
        self.files.reserve(1)?;
        note(self.alloc, &mut self.calls, ShelfCallKind::Append, name, ok)?;
        set_file(&mut self.files, of_file, bytes);
        Ok(())
    }

    /// A read, which makes `into` the file's bytes, none where there is no such file. It never answers
    /// `Failed`.
    pub(crate) fn read(
        &mut self,
        name: &str,
        into: &mut Vec<u8>,
        cap: u64,
    ) -> Result<(), ShelfFault>
        ensures { IsSureRead self.old name.now cap into.new.items result self.new }
    {
        into.clear();
        let bytes = find_file(&self.files, name).unwrap_or(&[]);
        if bytes.len() as u64 > cap {
            let Ok(()) = self.tell_read(name, false) else {
                return Err(ShelfFault::Memory);
            };
            return Err(ShelfFault::TooLong);
        }
        let Ok(()) = into.reserve(bytes.len()) else {
            return Err(ShelfFault::Memory);
        };
        let Ok(()) = note(self.alloc, &mut self.calls, ShelfCallKind::Read, name, true) else {
            return Err(ShelfFault::Memory);
        };
        into.extend_from_slice(bytes).unwrap();
        Ok(())
    }

    /// A read of which only the call is kept, and whether it answered Ok.
    pub(crate) fn tell_read(&mut self, name: &str, ok: bool) -> Result<(), AllocError>
        ensures ok { OnOk result (self.new ≡ was_read name.now ok self.old) }
        ensures err { OnErr result (self.new ≡ self.old) }
    {
        note(self.alloc, &mut self.calls, ShelfCallKind::Read, name, ok)
    }
}

// Puts a call behind the others.
fn note(
    alloc: Global,
    calls: &mut Vec<ShelfCall>,
    kind: ShelfCallKind,
    name: &str,
    answered_ok: bool,
) -> Result<(), AllocError>
    ensures ok { OnOk result (calls.new.items ≡ calls.old.items ++ call_of kind name.now answered_ok ∷ []) }
    ensures err { OnErr result (calls.new.items ≡ calls.old.items) }
{
    let name = text_of(alloc, name)?;
    calls.reserve(1)?;
    let call = ShelfCall {
        kind,
        name,
        answered_ok,
    };
    calls.push(call).unwrap();
    Ok(())
}

// The bytes of a name.
fn text_of(alloc: Global, name: &str) -> Result<Text, AllocError>
    ensures { IfOk result (λ text. text ≡ name.now) }
{
    Ok(Text::of(Vec::from_slice(alloc, name.as_bytes())?))
}

// The bytes under a name, with this piece behind them.
fn longer(
    alloc: Global,
    files: &[(Text, Bytes)],
    name: &str,
    piece: &[u8],
) -> Result<Bytes, AllocError>
    ensures { IfOk result (λ bytes. bytes ≡ bytes_of name.now files.now ++ piece.now) }
{
    let mut bytes = Vec::new(alloc);
    if let Some(old) = find_file(files, name) {
        bytes.extend_from_slice(old)?;
    }
    bytes.extend_from_slice(piece)?;
    Ok(Bytes::of(bytes))
}

// The bytes of the first file of this name. None exactly where there is none.
fn find_file<'a>(files: &'a [(Text, Bytes)], name: &str) -> Option<&'a [u8]>
    ensures some { IfSome result (λ bytes. file_of name.now files.now ≡ Some bytes.now) }
    ensures none { IfNone result (file_of name.now files.now ≡ None) }
{
    let at = place_of(files, name.as_bytes())?;
    Some(files[at].1.as_slice())
}

// Makes these bytes the first file of this name, or a new file at the end.
fn set_file(files: &mut Vec<(Text, Bytes)>, name: Text, bytes: Bytes)
    requires { vec_len files.old < vec_capacity files.old }
    ensures { files.new.items ≡ with_file name bytes files.old.items }
{
    match place_of(files, name.as_slice()) {
        Some(at) => files[at].1 = bytes,
        None => files.push((name, bytes)).unwrap(),
    }
}

// Where the first file of this name stands, counted from 0. None exactly where there is none.
fn place_of(files: &[(Text, Bytes)], name: &[u8]) -> Option<usize>
    ensures some { IfSome result (λ at. IsPlace name.now files.now at) }
    ensures none { IfNone result (file_of name.now files.now ≡ None) }
{
    for (at, file) in files.iter().enumerate() {
        if name == file.0.as_slice() {
            return Some(at);
        }
    }
    None
}
