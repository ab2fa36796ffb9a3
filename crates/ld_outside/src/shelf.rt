// Where files are kept.
ghost use Rattle.ld_outside.specs.Shelf.{IsStart, IsAppend, IsRead, IsPutFile};
ghost use Rattle.ld_outside.specs.ShelfView.{ShelfView};

use thiserror::Error;

/// Why a shelf didn't do what it was called for.
#[derive(Debug, Drop, PartialEq, Eq, Error)]
pub enum ShelfFault {
    /// The shelf failed. One of its counts of faults rose in this call: that of reads at a read, and else
    /// that of writes.
    #[error("the shelf failed")]
    Failed,
    /// The file that was to be read has more bytes than it may have. It is no fault of the shelf, and no write
    /// answers it.
    #[error("the file is too long")]
    TooLong,
    /// There is no memory left.
    #[error("out of memory")]
    Memory,
}

/// What holds files by name, as a folder does. It counts its faults at reads and those at writes, and may
/// tell its files and its calls.
pub trait Shelf {
    /// What is seen of the shelf: its files and its calls, where it tells them, and its counts of faults.
    ghost seen: { Self → ShelfView };

    /// Makes the file of this name empty, and adds it where there is none. After a fault each file is as
    /// it was.
    fn start(&mut self, name: &str) -> Result<(), ShelfFault>
        ensures { IsStart (seen self.old) name.now result (seen self.new) };

    /// Puts a piece behind the bytes of the file of this name, and makes the file where there is none.
    /// After a fault a front of the piece may stand there.
    fn append(&mut self, name: &str, piece: &[u8]) -> Result<(), ShelfFault>
        ensures { IsAppend (seen self.old) name.now piece.now result (seen self.new) };

    /// Makes `into` the bytes of the file of this name; what stood in it before is gone. The bytes are at most
    /// `cap` many, 0 to 2^64 - 1: `TooLong` comes where the file has more, and only there. A file that isn't
    /// there is read as an empty one, or the shelf fails; each shelf says which. After a fault `into` is
    /// empty. No file changes.
    fn read(&mut self, name: &str, into: &mut Vec<u8>, cap: u64) -> Result<(), ShelfFault>
        ensures { IsRead (seen self.old) name.now cap into.new.items result (seen self.new) };
}

/// Makes a text the file of this name. After a fault the file has a front of the text, or it wasn't
/// started and each file is as it was.
pub fn put_file<S: Shelf>(shelf: &mut S, name: &str, text: &[u8]) -> Result<(), ShelfFault>
    ensures { IsPutFile (S.seen shelf.old) name.now text.now result (S.seen shelf.new) }
{
    shelf.start(name)?;
    shelf.append(name, text)
}
