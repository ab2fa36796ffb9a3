use crate::files::Files;
use crate::kept_files::KeptFiles;
use crate::shelf::{Shelf, ShelfFault};
use crate::shelf_call::ShelfCall;
use std::alloc::Global;
use std::marker::Model;

/// A shelf in memory that never fails, but for want of memory. It reads a file that isn't there as an empty
/// one, and answers `TooLong` as each shelf does. It is seen as its files and its calls.
#[derive(Drop)]
pub struct SureShelf {
    kept: KeptFiles,
}

impl Model for SureShelf {
    ghost use Rattle.ld_outside.specs.ShelfView.{Kept};

    ghost Value = { Kept };

    ghost view = { λ s. s.kept };
}

impl SureShelf {
    ghost use Rattle.std.specs.Prelude.{◌≡◌, [], Some, None, IfSome, IfNone};
    ghost use Rattle.ld_outside.specs.ShelfView.{file_of};

    /// A shelf of these files. It takes no memory.
    pub fn new(alloc: Global, files: Files) -> SureShelf
        ensures { result ≡ record { files = files; calls = [] } }
    {
        SureShelf {
            kept: KeptFiles::new(alloc, files),
        }
    }

    /// The bytes of the file of this name. None exactly where there is none.
    pub fn file(&self, name: &str) -> Option<&[u8]>
        ensures some { IfSome result (λ bytes. file_of name.now self.now.files ≡ Some bytes.now) }
        ensures none { IfNone result (file_of name.now self.now.files ≡ None) }
    {
        self.kept.file(name)
    }

    /// The calls so far, in order.
    pub fn calls(&self) -> &[ShelfCall]
        ensures { result.now ≡ self.now.calls }
    {
        self.kept.calls()
    }
}

impl Shelf for SureShelf {
    ghost use Rattle.std.specs.Prelude.{◌≡◌, true, MatchResult};
    ghost use Rattle.ld_outside.specs.MemShelf.{IsSureRead, appended, seen_of_sure, started};
    ghost use Rattle.ld_outside.specs.Shelf.{IsStart, IsAppend, IsRead};

    ghost seen = { seen_of_sure };

    fn start(&mut self, name: &str) -> Result<(), ShelfFault>
        ensures start { IsStart (seen_of_sure self.old) name.now result (seen_of_sure self.new) }
        ensures exact { MatchResult result
            (λ _. self.new ≡ started name.now self.old)
            (λ fault. (fault ≡ ShelfFault.Memory) × (self.new ≡ self.old)) }
    {
        let Ok(()) = self.kept.start(name) else {
            return Err(ShelfFault::Memory);
        };
        Ok(())
    }

    fn append(&mut self, name: &str, piece: &[u8]) -> Result<(), ShelfFault>
        ensures append { IsAppend (seen_of_sure self.old) name.now piece.now result (seen_of_sure self.new) }
        ensures exact { MatchResult result
            (λ _. self.new ≡ appended name.now piece.now true self.old)
            (λ fault. (fault ≡ ShelfFault.Memory) × (self.new ≡ self.old)) }
    {
        let Ok(()) = self.kept.append(name, piece, true) else {
            return Err(ShelfFault::Memory);
        };
        Ok(())
    }

    fn read(&mut self, name: &str, into: &mut Vec<u8>, cap: u64) -> Result<(), ShelfFault>
        ensures read { IsRead (seen_of_sure self.old) name.now cap into.new.items result (seen_of_sure self.new) }
        ensures exact { IsSureRead self.old name.now cap into.new.items result self.new }
    {
        self.kept.read(name, into, cap)
    }
}
