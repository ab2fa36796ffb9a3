ghost use Rattle.std.specs.Prelude.{◌≡◌, ◌<◌, ◌≤◌, IfOk, length, slice_get, slice_set};
ghost use Rattle.ld_seats.specs.Seats.{IsSeat};

use std::alloc::{AllocError, Global};
use std::marker::Model;

/// The greatest number of a user, which count from 1.
pub const LAST_USER: u32 = 1000;

/// The most slots that there may be. Their numbers count from 0.
const SLOTS: u32 = 1000;

/// Who has which slot: the slot of each user, and the user of each slot, as they were put last.
#[derive(Drop)]
pub struct Seats {
    slots: Vec<u32>,
    users: Vec<u32>,
}

impl Model for Seats {
    ghost use Rattle.std.specs.Prelude.{◌≡◌, length};
    ghost use Rattle.ld_seats.specs.Seats.{SeatsView};

    ghost Value = { SeatsView };

    ghost view = { λ s. record { slot_of = s.slots.items; user_of = s.users.items } };

    ghost invariant = { λ s. (length s.slots.items ≡ 1001) × (length s.users.items ≡ 1000) };
}

impl Seats {
    /// Seats of which nothing was put yet, with a place for each user and each slot.
    ///
    /// Fails where the allocator gives no memory for them.
    pub fn new(alloc: Global) -> Result<Seats, AllocError>
        ensures users { IfOk result (λ seats. length seats.slot_of ≡ 1001) }
        ensures slots { IfOk result (λ seats. length seats.user_of ≡ 1000) }
    {
        let slots = vec![in alloc; 0u32; LAST_USER as usize + 1]?;
        let users = vec![in alloc; 0u32; SLOTS as usize]?;
        Ok(Seats { slots, users })
    }

    /// Puts a user on a slot.
    pub fn put(&mut self, user: u32, slot: u32)
        requires user { user ≤ 1000 }
        requires slot { slot < 1000 }
        ensures put { self.new ≡
            record { slot_of = slice_set self.old.slot_of user slot; user_of = slice_set self.old.user_of slot user } }
        ensures seat { IsSeat self.new user slot }
    {
        self.slots[user as usize] = slot;
        self.users[slot as usize] = user;
    }

    /// The slot on which the user was put last, or any number. None exactly where no user has the number.
    pub fn slot_of(&self, user: u32) -> Option<u32>
        ensures { result ≡ slice_get self.now.slot_of user }
    {
        self.slots.get(user as usize).copied()
    }

    /// The user that was put on the slot last, or any number. None exactly where no slot has the number.
    pub fn user_of(&self, slot: u32) -> Option<u32>
        ensures { result ≡ slice_get self.now.user_of slot }
    {
        self.users.get(slot as usize).copied()
    }
}
