ghost use Rattle.std.specs.Prelude.{◌≡◌, ◌<◌, ◌≤◌, ◌++◌, ◌∷◌, [], IfOk, length, slice_get};
ghost use Rattle.std.specs.Option.{option_copied};

use crate::entry::Entry;
use crate::fault::BaseFault;
use std::alloc::Global;
use std::marker::Model;

/// What a pool recorded, in order, with the room that was reserved for it.
#[derive(Drop)]
pub struct History {
    entries: Vec<Entry>,
    room: u32,
}

impl Model for History {
    ghost use Rattle.std.specs.Prelude.{vec_len, vec_capacity};
    ghost use Rattle.ld_base.specs.History.{HistoryView};
    ghost use Rattle.ld_base.specs.Reserved.{IsReserved};

    ghost Value = { HistoryView };

    ghost view = { λ h. record { entries = h.entries.items; room = h.room } };

    ghost invariant = { λ h. IsReserved (vec_len h.entries) h.room (vec_capacity h.entries) };
}

impl History {
    /// A history without entries, with room for `room` of them.
    ///
    /// Fails where the allocator gives no memory for them.
    pub fn new(alloc: Global, room: u32) -> Result<History, BaseFault>
        ensures { IfOk result (λ history. history ≡ record { entries = []; room = room }) }
    {
        let entries = Vec::with_capacity(alloc, room as usize)?;
        Ok(History { entries, room })
    }

    /// Puts an entry behind the others, in the room that was reserved.
    pub fn push(&mut self, entry: Entry)
        requires { length self.old.entries < self.old.room }
        ensures entries { self.new.entries ≡ self.old.entries ++ entry ∷ [] }
        ensures room { self.new.room ≡ self.old.room }
    {
        self.entries.push(entry).unwrap();
    }

    /// How many entries the history holds.
    pub fn len(&self) -> u32
        ensures count { result ≡ length self.now.entries }
        ensures within { result ≤ self.now.room }
    {
        self.entries.len() as u32
    }

    /// The entry at a position, counted from 0, or None exactly past the end.
    pub fn get(&self, at: u32) -> Option<&Entry>
        ensures { option_copied result ≡ slice_get self.now.entries at }
    {
        self.entries.get(at as usize)
    }

    /// The entries themselves, in order. Takes no memory.
    pub fn into_entries(self) -> Vec<Entry>
        ensures { result.items ≡ self.entries }
    {
        let History { entries, room: _ } = self;
        entries
    }
}
