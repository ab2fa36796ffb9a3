use crate::files::Files;
use crate::kept_files::KeptFiles;
use crate::numbers::Numbers;
use crate::shelf::{Shelf, ShelfFault};
use crate::shelf_call::ShelfCall;
use std::alloc::Global;
use std::marker::Model;

/// A shelf in memory, which tells its files and its calls. It fails at the calls whose numbers it was
/// given, and at each read of a file that isn't there. An append that fails leaves the first half of its
/// piece.
#[derive(Drop)]
pub struct MemShelf {
    kept: KeptFiles,
    failing: Numbers,
    made: u64,
    read_faults: u64,
    write_faults: u64,
}

impl Model for MemShelf {
    ghost use Rattle.ld_outside.specs.MemShelf.{MemShelfState};

    ghost Value = { MemShelfState };

    ghost view = { λ s. record {
      kept = s.kept;
      failing = s.failing;
      made = s.made;
      read_faults = s.read_faults;
      write_faults = s.write_faults;
    } };
}

impl MemShelf {
    ghost use Rattle.std.specs.Prelude.{◌≡◌, ◌↔◌, [], Some, None, IfSome, IfNone, IsTrue};
    ghost use Rattle.ld_outside.specs.MemShelf.{IsToFail};
    ghost use Rattle.ld_outside.specs.MemSink.{count_on};
    ghost use Rattle.ld_outside.specs.ShelfView.{file_of};

    /// A shelf of these files. `failing` has the numbers of the calls that are to fail: the calls of `start`,
    /// `append` and `read` are counted together, from 1. It takes no memory.
    pub fn new(alloc: Global, files: Files, failing: Numbers) -> MemShelf
        ensures { result ≡ record {
          kept = record { files = files; calls = [] };
          failing = failing;
          made = 0;
          read_faults = 0;
          write_faults = 0;
        } }
    {
        MemShelf {
            kept: KeptFiles::new(alloc, files),
            failing,
            made: 0,
            read_faults: 0,
            write_faults: 0,
        }
    }

    /// The bytes of the file of this name. None exactly where there is none.
    pub fn file(&self, name: &str) -> Option<&[u8]>
        ensures some { IfSome result (λ bytes. file_of name.now self.now.kept.files ≡ Some bytes.now) }
        ensures none { IfNone result (file_of name.now self.now.kept.files ≡ None) }
    {
        self.kept.file(name)
    }

    /// The calls so far, in order.
    pub fn calls(&self) -> &[ShelfCall]
        ensures { result.now ≡ self.now.kept.calls }
    {
        self.kept.calls()
    }

    // Counts a call, and answers whether it is to fail.
    fn count_call(&mut self) -> bool
        ensures fails { IsTrue result ↔ IsToFail self.old }
        ensures counted { self.new ≡ record self.old { made = count_on self.old.made } }
    {
        self.made = self.made.saturating_add(1);
        self.failing.as_slice().contains(&self.made)
    }
}

impl Shelf for MemShelf {
    ghost use Rattle.ld_outside.specs.MemShelf.{IsMemStart, IsMemAppend, IsMemRead, seen_of};
    ghost use Rattle.ld_outside.specs.Shelf.{IsStart, IsAppend, IsRead};

    ghost seen = { seen_of };

    fn start(&mut self, name: &str) -> Result<(), ShelfFault>
        ensures start { IsStart (seen_of self.old) name.now result (seen_of self.new) }
        ensures exact { IsMemStart self.old name.now result self.new }
    {
        if self.count_call() {
            let Ok(()) = self.kept.fail_start(name) else {
                return Err(ShelfFault::Memory);
            };
            self.write_faults = self.write_faults.saturating_add(1);
            return Err(ShelfFault::Failed);
        }
        let Ok(()) = self.kept.start(name) else {
            return Err(ShelfFault::Memory);
        };
        Ok(())
    }

    fn append(&mut self, name: &str, piece: &[u8]) -> Result<(), ShelfFault>
        ensures append { IsAppend (seen_of self.old) name.now piece.now result (seen_of self.new) }
        ensures exact { IsMemAppend self.old name.now piece.now result self.new }
    {
        if self.count_call() {
            let (front, _) = piece.split_at(piece.len() / 2);
            let Ok(()) = self.kept.append(name, front, false) else {
                return Err(ShelfFault::Memory);
            };
            self.write_faults = self.write_faults.saturating_add(1);
            return Err(ShelfFault::Failed);
        }
        let Ok(()) = self.kept.append(name, piece, true) else {
            return Err(ShelfFault::Memory);
        };
        Ok(())
    }

    fn read(&mut self, name: &str, into: &mut Vec<u8>, cap: u64) -> Result<(), ShelfFault>
        ensures read { IsRead (seen_of self.old) name.now cap into.new.items result (seen_of self.new) }
        ensures exact { IsMemRead self.old name.now cap into.new.items result self.new }
    {
        let is_missing = self.kept.file(name).is_none();
        if self.count_call() || is_missing {
            into.clear();
            let Ok(()) = self.kept.tell_read(name, false) else {
                return Err(ShelfFault::Memory);
            };
            self.read_faults = self.read_faults.saturating_add(1);
            return Err(ShelfFault::Failed);
        }
        self.kept.read(name, into, cap)
    }
}
