use crate::numbers::Numbers;
use crate::sink::{Sink, SinkFault};
use std::alloc::Global;
use std::marker::Model;

/// A sink in memory, which tells what it took. It fails at the calls whose numbers it was given, and
/// takes each other piece whole. It is seen as these, with the numbers of calls and of faults so
/// far.
#[derive(Drop)]
pub struct MemSink {
    taken: Vec<u8>,
    failing: Numbers,
    calls: u64,
    faults: u64,
}

impl Model for MemSink {
    ghost use Rattle.ld_outside.specs.MemSink.{MemSinkState};

    ghost Value = { MemSinkState };

    ghost view = { λ s. record { taken = s.taken.items; failing = s.failing; calls = s.calls; faults = s.faults } };
}

impl MemSink {
    ghost use Rattle.std.specs.Prelude.{◌≡◌, []};

    /// A sink that has taken nothing. `failing` has the numbers of the calls of `put` that are to
    /// fail, counted from 1. It takes no memory.
    pub fn new(alloc: Global, failing: Numbers) -> MemSink
        ensures { result ≡ record { taken = []; failing = failing; calls = 0; faults = 0 } }
    {
        MemSink {
            taken: Vec::new(alloc),
            failing,
            calls: 0,
            faults: 0,
        }
    }

    /// The bytes that the sink has taken, in order.
    pub fn taken(&self) -> &[u8]
        ensures { result.now ≡ self.now.taken }
    {
        self.taken.as_slice()
    }
}

impl Sink for MemSink {
    ghost use Rattle.ld_outside.specs.MemSink.{IsMemPut, seen_of};
    ghost use Rattle.ld_outside.specs.Sink.{IsPut};

    ghost seen = { seen_of };

    fn put(&mut self, piece: &[u8]) -> Result<usize, SinkFault>
        ensures put { IsPut (seen_of self.old) piece.now result (seen_of self.new) }
        ensures exact { IsMemPut self.old piece.now result self.new }
    {
        self.calls = self.calls.saturating_add(1);
        if self.failing.as_slice().contains(&self.calls) {
            self.faults = self.faults.saturating_add(1);
            return Err(SinkFault::Failed);
        }
        if self.taken.extend_from_slice(piece).is_err() {
            return Err(SinkFault::Memory);
        }
        Ok(piece.len())
    }
}
