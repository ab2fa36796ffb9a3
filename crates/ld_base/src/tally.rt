ghost use Rattle.std.specs.Prelude.{◌≡◌, ◌<◌, ◌≤◌, ◌++◌, ◌∷◌, [], IfOk, length, slice_get};

use crate::fault::BaseFault;
use crate::sample::Sample;
use std::alloc::Global;
use std::marker::Model;

/// The samples of one iteration, in the order in which they were taken, with the room that was
/// reserved for them.
#[derive(Drop)]
pub struct Tally {
    samples: Vec<Sample>,
    room: u32,
}

impl Model for Tally {
    ghost use Rattle.std.specs.Prelude.{vec_len, vec_capacity};
    ghost use Rattle.ld_base.specs.Reserved.{IsReserved};
    ghost use Rattle.ld_base.specs.Tally.{TallyView};

    ghost Value = { TallyView };

    ghost view = { λ t. record { samples = t.samples.items; room = t.room } };

    ghost invariant = { λ t. IsReserved (vec_len t.samples) t.room (vec_capacity t.samples) };
}

impl Tally {
    /// A tally without samples, with room for `room` of them.
    ///
    /// Fails where the allocator gives no memory for them.
    pub fn new(alloc: Global, room: u32) -> Result<Tally, BaseFault>
        ensures { IfOk result (λ tally. tally ≡ record { samples = []; room = room }) }
    {
        let samples = Vec::with_capacity(alloc, room as usize)?;
        Ok(Tally { samples, room })
    }

    /// A tally without samples and without room, which takes no memory.
    pub fn empty(alloc: Global) -> Tally
        ensures { result ≡ record { samples = []; room = 0 } }
    {
        Tally {
            samples: Vec::new(alloc),
            room: 0,
        }
    }

    /// Puts a sample behind the others, in the room that was reserved.
    pub fn push(&mut self, sample: Sample)
        requires { length self.old.samples < self.old.room }
        ensures samples { self.new.samples ≡ self.old.samples ++ sample ∷ [] }
        ensures room { self.new.room ≡ self.old.room }
    {
        self.samples.push(sample).unwrap();
    }

    /// How many samples the tally holds.
    pub fn len(&self) -> u32
        ensures count { result ≡ length self.now.samples }
        ensures within { result ≤ self.now.room }
    {
        self.samples.len() as u32
    }

    /// The sample at a position, counted from 0, or None exactly past the end.
    pub fn get(&self, at: u32) -> Option<Sample>
        ensures { result ≡ slice_get self.now.samples at }
    {
        self.samples.get(at as usize).copied()
    }
}
