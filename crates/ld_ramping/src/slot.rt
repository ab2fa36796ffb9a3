ghost use Rattle.std.specs.Prelude.{◌≡◌};

use crate::interval::Intervals;
use std::marker::Model;

/// A slot of ramping users, with the intervals in which it is on.
#[derive(Drop)]
pub struct Slot {
    /// The slot's number in the whole test, from 0.
    pub number: u32,
    /// Its intervals, in order.
    pub intervals: Intervals,
}

/// Slots, in order.
#[derive(Drop)]
pub struct Slots {
    slots: Vec<Slot>,
}

impl Model for Slots {
    ghost use Rattle.std.specs.Prelude.{List};
    ghost use Rattle.ld_ramping.specs.declared.slot.Slot.{Slot};

    ghost Value = { List Slot };

    ghost view = { λ s. s.slots.items };
}

impl Slots {
    /// These slots, in order. Takes no memory.
    pub fn of(slots: Vec<Slot>) -> Slots
        ensures { result ≡ slots.items }
    {
        Slots { slots }
    }

    /// The slots, lent. Takes no memory.
    pub fn as_slice(&self) -> &[Slot]
        ensures { result.now ≡ self.now }
    {
        self.slots.as_slice()
    }
}
