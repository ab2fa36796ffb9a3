// The real sinks. They tell nothing of what they took.
ghost use Rattle.std.specs.Prelude.{◌<◌, ◌≤◌, length, IfSome};

use crate::sink::{Sink, SinkFault};
use std::io::{ErrorKind, Print};

/// How often a write that a signal broke off is tried again.
const TRIES: u32 = 64;

/// Standard output, through the runtime that it is given. It counts its faults, and tells nothing of
/// what it took.
#[derive(Drop)]
pub struct OutSink<'a, R> {
    rt: &'a R,
    faults: u64,
}

impl<'a, R: Print> OutSink<'a, R> {
    ghost use Rattle.std.specs.Prelude.{◌≡◌};

    /// Standard output, with no fault counted.
    pub fn new(rt: &'a R) -> OutSink<'a, R>
        ensures { result.faults ≡ 0 }
    {
        OutSink { rt, faults: 0 }
    }
}

impl<'a, R: Print> Sink for OutSink<'a, R> {
    ghost use Rattle.std.specs.Prelude.{None};

    ghost seen = { λ s. record { told = None; faults = s.faults } };

    fn put(&mut self, piece: &[u8]) -> Result<usize, SinkFault> {
        let Some(taken) = write_some(self.rt, piece) else {
            self.faults = self.faults.saturating_add(1);
            return Err(SinkFault::Failed);
        };
        Ok(taken)
    }
}

/// Standard error, through the stream of that name of the runtime. It counts its faults, and tells
/// nothing of what it took.
#[derive(Drop)]
pub struct ErrSink<'a, S> {
    stream: &'a S,
    faults: u64,
}

impl<'a, S: Print> ErrSink<'a, S> {
    ghost use Rattle.std.specs.Prelude.{◌≡◌};

    /// Standard error, with no fault counted.
    pub fn new(stream: &'a S) -> ErrSink<'a, S>
        ensures { result.faults ≡ 0 }
    {
        ErrSink { stream, faults: 0 }
    }
}

impl<'a, S: Print> Sink for ErrSink<'a, S> {
    ghost use Rattle.std.specs.Prelude.{None};

    ghost seen = { λ s. record { told = None; faults = s.faults } };

    fn put(&mut self, piece: &[u8]) -> Result<usize, SinkFault> {
        let Some(taken) = write_some(self.stream, piece) else {
            self.faults = self.faults.saturating_add(1);
            return Err(SinkFault::Failed);
        };
        Ok(taken)
    }
}

// Writes a front of the piece and answers its length. None where the stream failed, or took nothing
// of a piece that has a byte.
fn write_some<S: Print>(stream: &S, piece: &[u8]) -> Option<usize>
    ensures within { IfSome result (λ n. n ≤ length piece.now) }
    ensures some { IfSome result (λ n. 0 < length piece.now → 0 < n) }
{
    for _ in 0..TRIES {
        match stream.write_some(piece) {
            Ok(0) if !piece.is_empty() => return None,
            Ok(taken) => return Some(taken),
            Err(error) if error.kind() == ErrorKind::Interrupted => {}
            Err(_) => return None,
        }
    }
    None
}
