use crate::sink::{Sink, SinkFault};
use std::alloc::Global;
use std::marker::Model;

/// A sink in memory that never fails, but for want of memory. It is seen as the bytes that it took.
#[derive(Drop)]
pub struct SureSink {
    taken: Vec<u8>,
}

impl Model for SureSink {
    ghost use Rattle.std.specs.Prelude.{ℕ, List};

    ghost Value = { List ℕ };

    ghost view = { λ s. s.taken.items };
}

impl SureSink {
    ghost use Rattle.std.specs.Prelude.{◌≡◌, []};

    /// A sink that has taken nothing. It takes no memory.
    pub fn new(alloc: Global) -> SureSink
        ensures { result ≡ [] }
    {
        SureSink {
            taken: Vec::new(alloc),
        }
    }

    /// The bytes that the sink has taken, in order.
    pub fn taken(&self) -> &[u8]
        ensures { result.now ≡ self.now }
    {
        self.taken.as_slice()
    }
}

impl Sink for SureSink {
    ghost use Rattle.std.specs.Prelude.{◌≡◌, ◌++◌, length, MatchResult};
    ghost use Rattle.ld_outside.specs.MemSink.{seen_of_sure};
    ghost use Rattle.ld_outside.specs.Sink.{IsPut};

    ghost seen = { seen_of_sure };

    fn put(&mut self, piece: &[u8]) -> Result<usize, SinkFault>
        ensures put { IsPut (seen_of_sure self.old) piece.now result (seen_of_sure self.new) }
        ensures exact { MatchResult result
            (λ n. (n ≡ length piece.now) × (self.new ≡ self.old ++ piece.now))
            (λ fault. (fault ≡ SinkFault.Memory) × (self.new ≡ self.old)) }
    {
        if self.taken.extend_from_slice(piece).is_err() {
            return Err(SinkFault::Memory);
        }
        Ok(piece.len())
    }
}
