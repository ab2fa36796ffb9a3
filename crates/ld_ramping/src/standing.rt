ghost use Rattle.std.specs.Prelude.{◌≡◌, ◌≤◌, ℕ, Contains, IfNone, IfOk, IfSome, true};
ghost use Rattle.std.specs.List.Sorted.{IsStrictlyIncreasing};
ghost use Rattle.ld_machine.specs.Together.{least_above, lesser};
ghost use Rattle.ld_ramping.specs.Owned.{AreOwned};
ghost use Rattle.ld_ramping.specs.Rising.{AreRising};
ghost use Rattle.ld_ramping.specs.Standing.{IsSnapshot, StandingView, all_turns, interval_on, intervals_at, numbers_of, stands_on};
ghost use Rattle.ld_ramping.specs.declared.slot.Slot.{Slot};
ghost use Rattle.ld_set.specs.SetView.{is_among};

use crate::interval::Interval;
use crate::owned::SLOTS;
use crate::slot::{Slot, Slots};
use crate::turn_places::{current, turn_above};
use ld_set::NumberSet;
use std::alloc::{AllocError, Global};
use std::marker::Model;

/// The owned slots of a scenario, and which of them are on at one reading, so that all questions at that reading are
/// answered at a look. At another reading each slot is looked up. Readings and moments are in nanoseconds from the run's
/// start, and those of intervals from the scenario's begin.
#[derive(Drop)]
pub struct Standing {
    begin: u64,
    slots: Slots,
    reading: u64,
    // The numbers of the slots that are on at the reading.
    on: NumberSet,
}

impl Model for Standing {
    ghost use Rattle.ld_ramping.specs.Standing.{IsSnapshot, StandingView};

    ghost Value = { StandingView };

    ghost view = { λ s. record { begin = s.begin; slots = s.slots } };

    ghost invariant = { λ s. IsSnapshot (record { begin = s.begin; slots = s.slots }) s.reading s.on };
}

impl Standing {
    /// The slots of a scenario with this begin. Room for all that comes later is reserved here.
    ///
    /// Fails where there is no memory for that.
    pub fn new(alloc: Global, begin: u64, slots: Slots) -> Result<Standing, AllocError>
        requires { AreOwned slots }
        ensures { IfOk result (λ standing. standing ≡ record { begin = begin; slots = slots }) }
    {
        let mut on = NumberSet::new(alloc, SLOTS)?;
        put_on(&mut on, begin, slots.as_slice(), 0);
        Ok(Standing {
            begin,
            slots,
            reading: 0,
            on,
        })
    }

    /// Goes to a reading, at which questions are answered at a look from now on. Takes no memory.
    pub fn move_to(&mut self, reading: u64)
        ensures { self.new ≡ self.old }
    {
        if reading != self.reading {
            put_on(&mut self.on, self.begin, self.slots.as_slice(), reading);
            self.reading = reading;
        }
    }

    /// The interval of a slot that the reading lies in. None exactly where the slot isn't on.
    pub fn interval(&self, slot: u32, reading: u64) -> Option<Interval>
        ensures { result ≡ interval_on self.now slot reading }
    {
        current(
            self.begin,
            intervals_of(self.slots.as_slice(), slot),
            reading,
        )
    }

    /// Whether the slot is on at the reading.
    pub fn is_on(&self, slot: u32, reading: u64) -> bool
        ensures { result ≡ stands_on self.now slot reading }
    {
        if reading == self.reading {
            self.on.contains(slot)
        } else {
            self.interval(slot, reading).is_some()
        }
    }

    /// The least of some owned slots that is on at the reading, or that is off. None exactly where none of them is.
    pub fn first_of(&self, among: &NumberSet, on: bool, reading: u64) -> Option<u32>
        ensures among { IfSome result (λ slot. is_among among.now.numbers slot ≡ true) }
        ensures stands { IfSome result (λ slot. stands_on self.now slot reading ≡ on) }
        ensures least { IfSome result (λ slot. IsStrictlyIncreasing among.now.numbers → (k : ℕ) → Contains (numbers_of self.now.slots) k →
            is_among among.now.numbers k ≡ true → stands_on self.now k reading ≡ on → slot ≤ k) }
        ensures none { IfNone result ((k : ℕ) → Contains (numbers_of self.now.slots) k → is_among among.now.numbers k ≡ true →
            stands_on self.now k reading ≡ on → ⊥) }
    {
        if reading != self.reading {
            return first_as(self.begin, self.slots.as_slice(), among, on, reading);
        }
        if on {
            among.least_with(&self.on)
        } else {
            among.least_without(&self.on)
        }
    }

    /// The least moment above the reading at which an interval of a slot begins or ends. None exactly where there is none.
    pub fn next_turn(&self, reading: u64) -> Option<u64>
        ensures { result ≡ least_above reading (all_turns self.now) }
    {
        let mut least = None;
        for slot in self.slots.as_slice() {
            least = lesser(
                least,
                turn_above(self.begin, slot.intervals.as_slice(), reading),
            );
        }
        least
    }
}

// Makes a set that of each slot of a scenario holds its number where it is on at the reading.
fn put_on(on: &mut NumberSet, begin: u64, slots: &[Slot], reading: u64)
    requires owned { AreOwned slots.now }
    requires limit { on.old.limit ≡ 1000 }
    requires others { (k : ℕ) → is_among on.old.numbers k ≡ true → Contains (numbers_of slots.now) k }
    ensures { IsSnapshot (record { begin = begin; slots = slots.now }) reading on.new }
{
    for slot in slots {
        if current(begin, slot.intervals.as_slice(), reading).is_some() {
            on.insert(slot.number);
        } else {
            on.remove(slot.number);
        }
    }
}

// The first of the slots of a scenario that are in a set and are on at the reading, or are off.
fn first_as(begin: u64, slots: &[Slot], among: &NumberSet, on: bool, reading: u64) -> Option<u32>
    requires { AreOwned slots.now }
    ensures among { IfSome result (λ slot. is_among among.now.numbers slot ≡ true) }
    ensures stands { IfSome result (λ slot. stands_on (record { begin = begin; slots = slots.now }) slot reading ≡ on) }
    ensures least { IfSome result (λ slot. (k : ℕ) → Contains (numbers_of slots.now) k → is_among among.now.numbers k ≡ true →
        stands_on (record { begin = begin; slots = slots.now }) k reading ≡ on → slot ≤ k) }
    ensures none { IfNone result ((k : ℕ) → Contains (numbers_of slots.now) k → is_among among.now.numbers k ≡ true →
        stands_on (record { begin = begin; slots = slots.now }) k reading ≡ on → ⊥) }
{
    for slot in slots {
        if among.contains(slot.number)
            && current(begin, slot.intervals.as_slice(), reading).is_some() == on
        {
            return Some(slot.number);
        }
    }
    None
}

// The intervals of the slot of a number.
fn intervals_of(slots: &[Slot], number: u32) -> &[Interval]
    requires { AreOwned slots.now }
    ensures found { result.now ≡ intervals_at slots.now number }
    ensures rising { AreRising result.now }
{
    for slot in slots {
        if slot.number == number {
            return slot.intervals.as_slice();
        }
    }
    &[]
}

// The lesser of two moments, or the one that there is.
fn lesser(a: Option<u64>, b: Option<u64>) -> Option<u64>
    ensures { result ≡ lesser a b }
{
    match (a, b) {
        (Some(a), Some(b)) => Some(a.min(b)),
        (a, None) => a,
        (None, b) => b,
    }
}
