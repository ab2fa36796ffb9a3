ghost use Rattle.std.specs.Prelude.{◌≡◌, ℕ, Contains, IfErr, IfNone, IfOk, IfSome, None, Some, [], false, is_some, slice_get, true};
ghost use Rattle.ld_machine.specs.Moves.{Users, releases, takes};
ghost use Rattle.ld_machine.specs.Scenario.{Scenario, first_of, item_to_start, least_open_item, may_close, may_release, may_stop, until_of};
ghost use Rattle.ld_machine.specs.State.{HeldUser, idle_users};
ghost use Rattle.ld_machine.specs.Together.{least_above};
ghost use Rattle.ld_machine.specs.Told.{level_number};
ghost use Rattle.ld_machine.specs.Wait.{scenario_moments};
ghost use Rattle.ld_machine.specs.Wishes.{WishesFirst};
ghost use Rattle.ld_ramping.specs.Owned.{AreOwned};
ghost use Rattle.ld_ramping.specs.Shows.{Follows, IsLeastTake, Shows, ShowsOpening, is_idle_as, stands_as};
ghost use Rattle.ld_ramping.specs.Standing.{numbers_of};
ghost use Rattle.ld_ramping.specs.declared.fault.ExecFault.TheVariants.{Memory};
ghost use Rattle.ld_seats.specs.Choice.{IsChosen};
ghost use Rattle.ld_seats.specs.Seats.{IsSeat};

use crate::fault::ExecFault;
use crate::owned::{SLOTS, owned_set};
use crate::ramping_part::RampingPart;
use crate::standing::Standing;
use ld_base::{Act, Wish};
use ld_course::Course;
use ld_seats::{Seating, Which};
use std::alloc::Global;
use std::marker::Model;

/// One scenario of ramping users, as it stands: its course, its slots with their intervals, and who has which slot. Users
/// are numbered from 1 to 1,000, and slots from 0 to 999. Readings and moments are in nanoseconds from the run's start.
#[derive(Drop)]
pub struct RampingState {
    course: Course,
    // How long an iteration may last behind the moment at which its slot goes off.
    ramp_grace: u64,
    standing: Standing,
    seating: Seating,
}

impl Model for RampingState {
    ghost use Rattle.ld_ramping.specs.Shows.{RampingView};

    ghost Value = { RampingView };

    ghost view = { λ s.
        record { course = s.course; ramp_grace = s.ramp_grace; standing = s.standing; seating = s.seating } };
}

impl RampingState {
    /// The scenario at its opening. Room for all that it does later is reserved here.
    ///
    /// Fails where there is no memory for that.
    pub fn new(alloc: Global, part: RampingPart) -> Result<RampingState, ExecFault>
        requires { AreOwned part.slots }
        ensures opens { IfOk result (ShowsOpening part) }
        ensures memory { IfErr result (λ fault. fault ≡ Memory) }
    {
        let RampingPart {
            begin,
            end,
            grace,
            ramp_grace,
            slots,
        } = part;
        let owned = owned_set(alloc, slots.as_slice())?;
        let seating = Seating::new(alloc, SLOTS, owned)?;
        let standing = Standing::new(alloc, begin, slots)?;
        Ok(RampingState {
            course: Course::opening(begin, end, grace),
            ramp_grace,
            standing,
            seating,
        })
    }

    /// What the scenario would do first at a reading, its halt aside; `free` says whether a user of the pool is free. Where
    /// the scenario may choose among its users it chooses `prefer`, if that is one of them; 0 is no user's number. An
    /// iteration is due at no moment: `due` is the reading.
    pub fn next_act(&self, reading: u64, free: bool, prefer: u32) -> Wish
        ensures first { (s : Scenario) → Shows self.now s → WishesFirst s reading free prefer result }
    {
        if let Some(user) = self.to_release(prefer, reading) {
            return Wish::Release { user };
        }
        if let Some(slot) = self.to_take(free, reading) {
            return Wish::Take { slot };
        }
        if let Some((user, slot)) = self.to_start(prefer, reading) {
            return Wish::Start {
                user,
                item: u64::from(slot),
                until: self.until(slot, reading),
                due: reading,
            };
        }
        if self.may_close(reading) {
            Wish::Close
        } else {
            Wish::Nothing
        }
    }

    /// Takes notice of an act of this scenario, or of a control, at a reading: of one that the scenario may be told of.
    /// Nothing is promised of the state behind another one. Takes no memory.
    pub fn apply(&mut self, act: &Act, reading: u64)
        ensures follows { Follows self.old self.new act.now reading }
    {
        self.course.apply(act, reading);
        self.standing.move_to(reading);
        self.seating.apply(act);
    }

    /// The least moment above the reading at which the clock may change what the scenario does; the `until`s of busy
    /// users aside. None exactly where there is none.
    pub fn candidate(&self, reading: u64) -> Option<u64>
        ensures { (s : Scenario) → Shows self.now s → result ≡ least_above reading (scenario_moments s) }
    {
        self.course
            .candidate(reading, self.standing.next_turn(reading))
    }

    /// Whether the scenario may be halted: it is open, and its grace is over since a stop was commanded.
    pub fn may_stop(&self, reading: u64) -> bool
        ensures { (s : Scenario) → Shows self.now s → result ≡ may_stop s reading }
    {
        self.course.may_stop(reading)
    }

    /// The scenario's level: 0 where it runs, 1 where it starts nothing more, 2 where it was halted.
    pub fn level(&self) -> u8
        ensures { (s : Scenario) → Shows self.now s → result ≡ level_number s.share.level }
    {
        self.course.level_number()
    }

    /// Whether the scenario was closed.
    pub fn is_closed(&self) -> bool
        ensures kept { result ≡ self.now.course.closed }
        ensures shown { (s : Scenario) → Shows self.now s → result ≡ s.share.closed }
    {
        self.course.closed
    }

    /// The least open item: None, since ramping users have no items.
    pub fn open_item(&self) -> Option<u64>
        ensures none { result ≡ None }
        ensures least { (s : Scenario) → Shows self.now s → result ≡ least_open_item s }
    {
        None
    }

    // The idle user that is to be released, if there is one.
    fn to_release(&self, prefer: u32, reading: u64) -> Option<u32>
        ensures some { IfSome result (λ user. (s : Scenario) → Shows self.now s → (slot : ℕ) × IsChosen s (λ k. may_release s k reading) prefer user slot) }
        ensures none { IfNone result ((s : Scenario) (n : ℕ) → Shows self.now s → releases n s reading ≡ []) }
    {
        if self.course.closed {
            return None;
        }
        if !self.course.runs() {
            let (user, _) = self.seating.idle_user(Which::Any, prefer)?;
            return Some(user);
        }
        let (user, _) = self.idle_user(false, prefer, reading)?;
        Some(user)
    }

    // The slot for which a free user is to be taken, if there is one.
    fn to_take(&self, free: bool, reading: u64) -> Option<u32>
        ensures free { IfSome result (λ slot. free ≡ true) }
        ensures least { IfSome result (λ slot. (s : Scenario) → Shows self.now s → IsLeastTake s reading slot) }
        ensures none { IfNone result ((s : Scenario) (n : ℕ) (users : Users) → Shows self.now s → is_some (first_of users.free) ≡ free →
            takes n s users reading ≡ []) }
    {
        if free && self.course.runs() {
            self.standing.first_of(self.seating.vacant(), true, reading)
        } else {
            None
        }
    }

    // The idle user on which an iteration is to start, with its slot, if there is one.
    fn to_start(&self, prefer: u32, reading: u64) -> Option<(u32, u32)>
        ensures some { IfSome result (λ pair. (s : Scenario) → Shows self.now s →
            IsChosen s (λ k. is_some (item_to_start s k reading)) prefer pair.0 pair.1 × (item_to_start s pair.1 reading ≡ Some pair.1)) }
        ensures none { IfNone result ((s : Scenario) (h : HeldUser) → Shows self.now s → Contains (idle_users s.share) h →
            item_to_start s h.slot reading ≡ None) }
    {
        if self.course.runs() {
            self.idle_user(true, prefer, reading)
        } else {
            None
        }
    }

    // Until when an iteration may last that starts on the slot.
    fn until(&self, slot: u32, reading: u64) -> u64
        ensures { (s : Scenario) → Shows self.now s → result ≡ until_of s slot reading }
    {
        let hard = self.course.hard_moment();
        let Some(interval) = self.standing.interval(slot, reading) else {
            return hard;
        };
        let off = self.course.begin.saturating_add(interval.off);
        if off < self.course.end {
            off.saturating_add(self.ramp_grace).min(hard)
        } else {
            hard
        }
    }

    // Whether the scenario may close.
    fn may_close(&self, reading: u64) -> bool
        ensures { (s : Scenario) → Shows self.now s → result ≡ may_close s reading }
    {
        if self.course.closed || self.seating.held() != 0 {
            return false;
        }
        !self.course.runs() || self.course.has_ended(reading)
    }

    // The idle user that is chosen of those whose slots are on, or are off, with its slot: the preferred one, if it is one
    // of them, else that of the least such slot.
    fn idle_user(&self, on: bool, prefer: u32, reading: u64) -> Option<(u32, u32)>
        ensures some { IfSome result (λ pair. (s : Scenario) → Shows self.now s → IsChosen s (stands_as on self.now reading) prefer pair.0 pair.1) }
        ensures none { IfNone result ((s : Scenario) (h : HeldUser) → Shows self.now s → Contains (idle_users s.share) h →
            stands_as on self.now reading h.slot ≡ false) }
    {
        let slot = self.idle_slot(on, prefer, reading)?;
        let user = self.seating.user_of(slot)?;
        Some((user, slot))
    }

    // The slot of that user.
    fn idle_slot(&self, on: bool, prefer: u32, reading: u64) -> Option<u32>
        ensures some { IfSome result (λ slot. is_idle_as on self.now reading slot ≡ true) }
        ensures none { IfNone result ((slot : ℕ) → Contains (numbers_of self.now.standing.slots) slot → is_idle_as on self.now reading slot ≡ false) }
        ensures preferred { (slot : ℕ) → IsSeat self.now.seating.seats prefer slot → is_idle_as on self.now reading slot ≡ true → result ≡ Some slot }
    {
        if let Some(slot) = self.preferred_slot(on, prefer, reading) {
            return Some(slot);
        }
        self.standing.first_of(self.seating.idle(), on, reading)
    }

    // The preferred user's slot, if its user is idle and the slot is on, or is off.
    fn preferred_slot(&self, on: bool, prefer: u32, reading: u64) -> Option<u32>
        ensures some { IfSome result (λ slot. IsSeat self.now.seating.seats prefer slot × (is_idle_as on self.now reading slot ≡ true)) }
        ensures none { IfNone result ((slot : ℕ) → IsSeat self.now.seating.seats prefer slot → is_idle_as on self.now reading slot ≡ false) }
    {
        let slot = self.seating.slot_of(prefer)?;
        if self.is_idle_as(on, slot, reading) && self.seating.user_of(slot) == Some(prefer) {
            Some(slot)
        } else {
            None
        }
    }

    // Whether the slot's user is idle, and the slot is on, or is off.
    fn is_idle_as(&self, on: bool, slot: u32, reading: u64) -> bool
        ensures { result ≡ is_idle_as on self.now reading slot }
    {
        self.seating.idle().contains(slot) && self.standing.is_on(slot, reading) == on
    }
}
