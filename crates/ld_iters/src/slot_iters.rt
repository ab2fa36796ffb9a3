ghost use Rattle.std.specs.Prelude.{◌≡◌, ◌≢◌, ◌≤◌, ℕ, Contains, IfErr, IfNone, IfOk, IfSome, None, Some, [], false, filter, is_some, slice_get, true};
ghost use Rattle.ld_iters.specs.ItersPart.{IsSmall};
ghost use Rattle.ld_iters.specs.SlotsChanges.{EndsItem, HasPassed};
ghost use Rattle.ld_iters.specs.SlotsOpening.{first_going};
ghost use Rattle.ld_iters.specs.SlotsShows.{Follows, Shows, ShowsOpening};
ghost use Rattle.ld_iters.specs.declared.iters_part.IterKind.TheVariants as kinds;
ghost use Rattle.ld_machine.specs.Moves.{Users, releases, takes};
ghost use Rattle.ld_machine.specs.Plan.{owned_slots};
ghost use Rattle.ld_machine.specs.Scenario.{Scenario, executor_may_close, first_of, item_to_drop, item_to_start, least_open_item, may_close, may_release, may_stop, may_take, slots_to_take};
ghost use Rattle.ld_machine.specs.State.{HeldUser, idle_users};
ghost use Rattle.ld_machine.specs.Together.{least_above};
ghost use Rattle.ld_machine.specs.Told.{level_number};
ghost use Rattle.ld_machine.specs.Wait.{scenario_moments};
ghost use Rattle.ld_machine.specs.Wishes.{WishesFirst};
ghost use Rattle.ld_seats.specs.Choice.{IsChosen, is_of};

use crate::fault::ExecFault;
use crate::iters_part::{IterKind, ItersPart};
use crate::owned::owned_set;
use crate::work::Work;
use ld_base::{Act, Wish};
use ld_course::Course;
use ld_seats::{Seating, Which};
use ld_set::NumberSet;
use std::alloc::{AllocError, Global};
use std::marker::Model;

/// One scenario whose users have slots of their own, as it stands: its course, what its slots have left to start,
/// and the seating of its users. Users are numbered from 1 to 1,000, and slots from 0 to 999. Readings and moments
/// are in nanoseconds from the run's start.
#[derive(Drop)]
pub struct SlotIters {
    course: Course,
    work: Work,
    // The owned slots that have something left to start.
    going: NumberSet,
    seating: Seating,
}

impl Model for SlotIters {
    ghost use Rattle.ld_iters.specs.SlotsShows.{SlotsView};

    ghost Value = { SlotsView };

    ghost view = { λ s.
        record { course = s.course; work = s.work; going = s.going.numbers; seating = s.seating } };
}

impl SlotIters {
    /// The scenario at its opening, of a part whose users have slots. Room for all that it does later is reserved here.
    ///
    /// Fails where there is no memory for that.
    pub fn new(alloc: Global, part: &ItersPart) -> Result<SlotIters, ExecFault>
        requires slots { part.now.kind ≢ kinds.Shared }
        requires small { IsSmall part.now.kind part.now }
        ensures opens { IfOk result (ShowsOpening part.now) }
        ensures memory { IfErr result (λ fault. fault ≡ ExecFault.Memory) }
    {
        let slots = part.total as u32;
        let work = Work::of_part(alloc, part)?;
        let going = going_of(alloc, part)?;
        let owned = owned_set(alloc, &part.stripe, part.position, slots)?;
        let seating = Seating::new(alloc, slots, owned)?;
        Ok(SlotIters {
            course: Course::opening(part.begin, part.end, part.grace),
            work,
            going,
            seating,
        })
    }

    /// What the scenario would do first at a reading, its halt aside; `free` says whether a user of the pool is free. Where
    /// the scenario may choose among its users it chooses `prefer`, if that is one of them. An iteration is due at no
    /// moment: `due` is the reading.
    pub fn next_act(&self, reading: u64, free: bool, prefer: u32) -> Wish
        ensures first { (s : Scenario) → Shows self.now s → WishesFirst s reading free prefer result }
    {
        if let Some(user) = self.to_release(prefer, reading) {
            return Wish::Release { user };
        }
        if let Some(slot) = self.to_take(free, reading) {
            return Wish::Take { slot };
        }
        if let Some((user, item)) = self.to_start(prefer, reading) {
            return Wish::Start {
                user,
                item,
                until: self.course.hard_moment(),
                due: reading,
            };
        }
        if let Some(item) = self.to_drop(reading) {
            return Wish::Drop { item, due: reading };
        }
        if self.may_close(reading) {
            Wish::Close
        } else {
            Wish::Nothing
        }
    }

    /// Takes notice of an act of this scenario, or of a control, at a reading. Nothing is promised of the state behind an act
    /// that the scenario may not be told of.
    ///
    /// Takes no memory.
    pub fn apply(&mut self, act: &Act, reading: u64)
        ensures follows { Follows self.old self.new act.now reading }
    {
        self.end_item(act);
        self.course.apply(act, reading);
        self.seating.apply(act);
    }

    /// The least moment above the reading at which the clock may change what the scenario does; the `until`s of busy
    /// users aside. None exactly where there is none.
    pub fn candidate(&self, reading: u64) -> Option<u64>
        ensures { (s : Scenario) → Shows self.now s → result ≡ least_above reading (scenario_moments s) }
    {
        self.course.candidate(reading, None)
    }

    /// Whether the scenario may be halted: it is open, and its grace is over since a stop was commanded.
    pub fn may_stop(&self, reading: u64) -> bool
        ensures { (s : Scenario) → Shows self.now s → result ≡ may_stop s reading }
    {
        self.course.may_stop(reading)
    }

    /// The scenario's level: 0 where it runs, 1 where it starts nothing more, 2 where it was halted.
    pub fn level(&self) -> u8
        ensures { (s : Scenario) → Shows self.now s → result ≡ level_number s.share.level }
    {
        self.course.level_number()
    }

    /// Whether the scenario was closed.
    pub fn is_closed(&self) -> bool
        ensures kept { result ≡ self.now.course.closed }
        ensures shown { (s : Scenario) → Shows self.now s → result ≡ s.share.closed }
    {
        self.course.closed
    }

    /// The least open item, or None exactly where none is open.
    pub fn open_item(&self) -> Option<u64>
        ensures { (s : Scenario) → Shows self.now s → result ≡ least_open_item s }
    {
        self.work.least(&self.going)
    }

    // Passes over the item that the act ends, if it ends one.
    fn end_item(&mut self, act: &Act)
        ensures { EndsItem self.old self.new act.now }
    {
        match act {
            Act::Take { .. } => {}
            Act::Grow { .. } => {}
            Act::Start { user, .. } => self.start(*user),
            Act::Drop { .. } => self.give_up(),
            Act::Late { .. } => self.give_up(),
            Act::Return { .. } => {}
            Act::Release { .. } => {}
            Act::Stop { .. } => {}
            Act::Close { .. } => {}
            Act::Control { .. } => {}
        }
    }

    // Starts the next item of a user's slot.
    fn start(&mut self, user: u32)
        ensures { (slot : ℕ) → slice_get self.old.seating.seats.slot_of user ≡ Some slot →
            HasPassed slot self.old self.new }
    {
        if let Some(slot) = self.seating.slot_of(user) {
            self.pass(slot);
        }
    }

    // Gives up the least open item, which is the next one of the least slot that goes on.
    fn give_up(&mut self)
        ensures { (slot : ℕ) → slice_get self.old.going 0 ≡ Some slot → HasPassed slot self.old self.new }
    {
        if let Some(slot) = self.going.least() {
            self.pass(slot);
        }
    }

    // Passes over the slot's next item.
    fn pass(&mut self, slot: u32)
        ensures { HasPassed slot self.old self.new }
    {
        if self.work.pass(slot) {
            self.going.remove(slot);
        }
    }

    // The idle user that is to be released, if there is one.
    fn to_release(&self, prefer: u32, reading: u64) -> Option<u32>
        ensures some { IfSome result (λ user. (s : Scenario) → Shows self.now s → (slot : ℕ) × IsChosen s (λ k. may_release s k reading) prefer user slot) }
        ensures none { IfNone result ((s : Scenario) (n : ℕ) → Shows self.now s → releases n s reading ≡ []) }
    {
        let which = self.released(reading)?;
        let (user, _) = self.seating.idle_user(which, prefer)?;
        Some(user)
    }

    // The slots whose users may be released when they are idle, if there are any.
    fn released(&self, reading: u64) -> Option<Which<'_>>
        ensures some { IfSome result (λ which. (s : Scenario) (slot : ℕ) → Shows self.now s →
            Contains (owned_slots s.part.executor) slot → may_release s slot reading ≡ is_of which slot) }
        ensures none { IfNone result ((s : Scenario) (slot : ℕ) → Shows self.now s →
            may_release s slot reading ≡ false) }
    {
        if self.course.closed {
            None
        } else if self.course.runs() && !self.course.has_ended(reading) {
            Some(Which::Others(&self.going))
        } else {
            Some(Which::Any)
        }
    }

    // The slot for which a free user is to be taken, if there is one.
    fn to_take(&self, free: bool, reading: u64) -> Option<u32>
        ensures free { IfSome result (λ slot. free ≡ true) }
        ensures first { IfSome result (λ slot. (s : Scenario) → Shows self.now s →
            slice_get (filter (λ k. may_take s k reading) (slots_to_take s.part.executor s)) 0 ≡ Some slot) }
        ensures none { IfNone result ((s : Scenario) (n : ℕ) (users : Users) → Shows self.now s → is_some (first_of users.free) ≡ free →
            takes n s users reading ≡ []) }
    {
        if free && self.course.is_live(reading) {
            self.seating.vacant().least_with(&self.going)
        } else {
            None
        }
    }

    // The idle user on which an item is to start, with the item, if there is one.
    fn to_start(&self, prefer: u32, reading: u64) -> Option<(u32, u64)>
        ensures some { IfSome result (λ pair. (s : Scenario) → Shows self.now s → (slot : ℕ)
            × IsChosen s (λ k. is_some (item_to_start s k reading)) prefer pair.0 slot × (item_to_start s slot reading ≡ Some pair.1)) }
        ensures none { IfNone result ((s : Scenario) (h : HeldUser) → Shows self.now s → Contains (idle_users s.share) h →
            item_to_start s h.slot reading ≡ None) }
    {
        if !self.course.is_live(reading) {
            return None;
        }
        let (user, slot) = self.seating.idle_user(Which::Among(&self.going), prefer)?;
        let item = self.work.next(slot)?;
        Some((user, item))
    }

    // The item that is to be dropped, if there is one.
    fn to_drop(&self, reading: u64) -> Option<u64>
        ensures { (s : Scenario) → Shows self.now s → result ≡ item_to_drop s reading }
    {
        if self.course.runs() && self.course.has_ended(reading) {
            self.open_item()
        } else {
            None
        }
    }

    // Whether the scenario may close.
    fn may_close(&self, reading: u64) -> bool
        ensures { (s : Scenario) → Shows self.now s → result ≡ may_close s reading }
    {
        if self.course.closed || self.seating.held() != 0 {
            return false;
        }
        !self.course.runs() || (self.open_item().is_none() && self.may_be_over(reading))
    }

    // Whether the scenario's time allows it to close, where no item is open.
    fn may_be_over(&self, reading: u64) -> bool
        ensures { (s : Scenario) → Shows self.now s → result ≡ executor_may_close s.part.executor s reading }
    {
        match self.work {
            Work::Counted(_) => self.course.has_begun(reading),
            Work::Endless => self.course.has_ended(reading),
        }
    }
}

// Those of a part's slots that have something to start.
fn going_of(alloc: Global, part: &ItersPart) -> Result<NumberSet, AllocError>
    requires { part.now.total ≤ 1000 }
    ensures { IfOk result (λ set. set.numbers ≡ first_going part.now) }
{
    if part.kind == IterKind::PerUser && part.iterations == 0 {
        return NumberSet::new(alloc, 0);
    }
    owned_set(alloc, &part.stripe, part.position, part.total as u32)
}
