// Files that give and take one byte at a time, and can fail.

use std::alloc::Allocator;
use std::fs::{Files, Metadata, OpenFile, OpenOptions};
use std::io;
use std::io::{ErrorKind, Read, Seek, SeekFrom, Write};

/// A runtime whose files each have three bytes, and take two in all. They give and take one at a time, and a signal
/// breaks off every other call. At their end they fail, where they are to.
#[derive(Clone, Copy)]
pub struct SlowFiles {
    pub are_to_fail: bool,
}

/// A file of such a runtime.
#[derive(Drop)]
pub struct SlowFile {
    given: u8,
    taken: u8,
    is_broken_off: bool,
    is_to_fail: bool,
}

// The fault of a call that isn't made.
fn unsupported() -> io::Error {
    io::Error::from(ErrorKind::Unsupported)
}

impl SlowFile {
    // Refuses every other call, as a signal does.
    fn break_off(&mut self) -> io::Result<()> {
        self.is_broken_off = !self.is_broken_off;
        if self.is_broken_off {
            return Err(io::Error::from(ErrorKind::Interrupted));
        }
        Ok(())
    }
}

impl Read for SlowFile {
    fn read(&mut self, piece: &mut [u8]) -> io::Result<usize> {
        self.break_off()?;
        if self.given >= 3 && self.is_to_fail {
            return Err(io::Error::from(ErrorKind::Other));
        }
        let Some(first) = piece.first_mut() else {
            return Ok(0);
        };
        if self.given >= 3 {
            return Ok(0);
        }
        *first = b'x';
        self.given += 1;
        Ok(1)
    }
}

impl Write for SlowFile {
    fn write(&mut self, piece: &[u8]) -> io::Result<usize> {
        self.break_off()?;
        if self.taken >= 2 && self.is_to_fail {
            return Err(io::Error::from(ErrorKind::Other));
        }
        self.taken = self.taken.saturating_add(1);
        Ok(piece.len().min(1))
    }

    fn flush(&mut self) -> io::Result<()> {
        Ok(())
    }
}

impl Seek for SlowFile {
    fn seek(&mut self, _to: SeekFrom) -> io::Result<u64> {
        Err(unsupported())
    }
}

impl OpenFile for SlowFile {
    fn metadata(&self) -> io::Result<Metadata> {
        Err(unsupported())
    }

    fn set_len(&self, _size: u64) -> io::Result<()> {
        Err(unsupported())
    }

    fn sync_all(&self) -> io::Result<()> {
        Err(unsupported())
    }

    fn sync_data(&self) -> io::Result<()> {
        Err(unsupported())
    }
}

impl Files for SlowFiles {
    type File = SlowFile;

    type Dir = SlowFile;

    fn open_file(&self, _how: &OpenOptions, _path: &str) -> io::Result<SlowFile> {
        Ok(SlowFile {
            given: 0,
            taken: 0,
            is_broken_off: false,
            is_to_fail: self.are_to_fail,
        })
    }

    fn open_dir(&self, _path: &str) -> io::Result<SlowFile> {
        Err(unsupported())
    }

    fn metadata(&self, _path: &str) -> io::Result<Metadata> {
        Err(unsupported())
    }

    fn symlink_metadata(&self, _path: &str) -> io::Result<Metadata> {
        Err(unsupported())
    }

    fn copy(&self, _from: &str, _to: &str) -> io::Result<u64> {
        Err(unsupported())
    }

    fn rename(&self, _from: &str, _to: &str) -> io::Result<()> {
        Err(unsupported())
    }

    fn remove_file(&self, _path: &str) -> io::Result<()> {
        Err(unsupported())
    }

    fn create_dir(&self, _path: &str) -> io::Result<()> {
        Err(unsupported())
    }

    fn remove_dir(&self, _path: &str) -> io::Result<()> {
        Err(unsupported())
    }

    fn remove_dir_all<B: Allocator>(&self, _alloc: B, _path: &str) -> io::Result<()> {
        Err(unsupported())
    }
}
