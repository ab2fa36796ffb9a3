ghost use Rattle.std.specs.Prelude.{◌≡◌, ◌+◌, ◌<◌, ◌≤◌, ℕ, IfOk, IfErr, IfSome, IfNone, Some, is_some, slice_get, true, []};
ghost use Rattle.ld_course.specs.Chosen.{chosen_of};
ghost use Rattle.ld_iters.specs.ItersPart.{IsSmall};
ghost use Rattle.ld_iters.specs.SharedShows.{Follows, Shows, ShowsOpening};
ghost use Rattle.ld_iters.specs.declared.iters_part.IterKind.TheVariants as kinds;
ghost use Rattle.ld_machine.specs.Moves.{Users, releases, starts, takes};
ghost use Rattle.ld_machine.specs.Scenario.{Scenario, first_of, has_open_item, item_to_drop, item_to_start, least_open_item, may_close, may_release, may_stop, may_take};
ghost use Rattle.ld_machine.specs.Together.{least_above};
ghost use Rattle.ld_machine.specs.Told.{level_number};
ghost use Rattle.ld_machine.specs.Wait.{scenario_moments};
ghost use Rattle.ld_machine.specs.Wishes.{WishesFirst};
ghost use Rattle.ld_set.specs.SetView.{with_number, without_number};

use crate::fault::ExecFault;
use crate::iters_part::ItersPart;
use crate::owned::owned_set;
use ld_base::{Act, Wish};
use ld_course::{Course, chosen};
use ld_set::NumberSet;
use std::alloc::Global;
use std::marker::Model;

// Users are numbered from 1 to 1,000.
const NUMBERS: u32 = 1001;

/// One scenario whose users share one number of iterations, as it stands: its course, how many users it may hold, the
/// items that are still open, which users it holds idle, and how many it holds. Readings and moments are in nanoseconds
/// from the run's start.
#[derive(Drop)]
pub struct SharedIters {
    course: Course,
    users: u32,
    // The open items.
    left: NumberSet,
    // The numbers of the idle users.
    idle: NumberSet,
    held: u32,
}

impl Model for SharedIters {
    ghost use Rattle.std.specs.Prelude.{◌≡◌};
    ghost use Rattle.ld_iters.specs.SharedShows.{SharedView};

    ghost Value = { SharedView };

    ghost view = { λ s. record { course = s.course; users = s.users; left = s.left.numbers; idle = s.idle.numbers; held = s.held } };

    ghost invariant = { λ s. s.idle.limit ≡ 1001 };
}

impl SharedIters {
    /// The scenario at its opening, of a part whose users share all iterations. Room for all that it does later is
    /// reserved here.
    ///
    /// Fails where there is no memory for that.
    pub fn new(alloc: Global, part: &ItersPart) -> Result<SharedIters, ExecFault>
        requires { IsSmall kinds.Shared part.now }
        ensures opens { part.now.kind ≡ kinds.Shared → IfOk result (ShowsOpening part.now) }
        ensures memory { IfErr result (λ fault. fault ≡ ExecFault.Memory) }
    {
        let left = owned_set(alloc, &part.stripe, part.position, part.total as u32)?;
        let idle = NumberSet::new(alloc, NUMBERS)?;
        Ok(SharedIters {
            course: Course::opening(part.begin, part.end, part.grace),
            users: part.users,
            left,
            idle,
            held: 0,
        })
    }

    /// What the scenario would do first at a reading, its halt aside; `free` says whether a user of the pool is free.
    /// Where the scenario may choose among its users it chooses `prefer`, if that is one of them. An iteration is due at
    /// no moment: `due` is the reading.
    pub fn next_act(&self, reading: u64, free: bool, prefer: u32) -> Wish
        ensures first { (s : Scenario) → Shows self.now s → WishesFirst s reading free prefer result }
    {
        if let Some(user) = self.to_release(prefer, reading) {
            return Wish::Release { user };
        }
        if let Some(slot) = self.to_take(free, reading) {
            return Wish::Take { slot };
        }
        if let Some((user, item)) = self.to_start(prefer, reading) {
            return Wish::Start {
                user,
                item,
                until: self.course.hard_moment(),
                due: reading,
            };
        }
        if let Some(item) = self.to_drop(reading) {
            return Wish::Drop { item, due: reading };
        }
        if self.may_close(reading) {
            Wish::Close
        } else {
            Wish::Nothing
        }
    }

    /// Takes notice of an act of this scenario, or of a control, at a reading. Where the scenario may not be told of it,
    /// nothing is promised of the state behind it.
    ///
    /// Takes no memory.
    pub fn apply(&mut self, act: &Act, reading: u64)
        ensures follows { Follows self.old self.new act.now reading }
    {
        self.course.apply(act, reading);
        match act {
            Act::Take { user, .. } => self.hold(*user),
            Act::Grow { user, .. } => self.hold(*user),
            Act::Start { user, .. } => {
                self.idle.remove(*user);
                self.pass();
            }
            Act::Drop { .. } => self.pass(),
            Act::Late { .. } => self.pass(),
            Act::Return { user, .. } => self.rest(*user),
            Act::Release { user, .. } => {
                self.idle.remove(*user);
                self.held = self.held.saturating_sub(1);
            }
            Act::Stop { .. } | Act::Close { .. } | Act::Control { .. } => {}
        }
    }

    /// The least moment above the reading at which the clock may change what the scenario does; the `until`s of busy
    /// users aside. None exactly where there is none.
    pub fn candidate(&self, reading: u64) -> Option<u64>
        ensures { (s : Scenario) → Shows self.now s → result ≡ least_above reading (scenario_moments s) }
    {
        self.course.candidate(reading, None)
    }

    /// Whether the scenario may be halted: it is open, and its grace is over since a stop was commanded.
    pub fn may_stop(&self, reading: u64) -> bool
        ensures { (s : Scenario) → Shows self.now s → result ≡ may_stop s reading }
    {
        self.course.may_stop(reading)
    }

    /// The scenario's level: 0 where it runs, 1 where it starts nothing more, 2 where it was halted.
    pub fn level(&self) -> u8
        ensures { (s : Scenario) → Shows self.now s → result ≡ level_number s.share.level }
    {
        self.course.level_number()
    }

    /// Whether the scenario was closed.
    pub fn is_closed(&self) -> bool
        ensures kept { result ≡ self.now.course.closed }
        ensures shown { (s : Scenario) → Shows self.now s → result ≡ s.share.closed }
    {
        self.course.closed
    }

    /// The least open item, or None exactly where none is open.
    pub fn open_item(&self) -> Option<u64>
        ensures { (s : Scenario) → Shows self.now s → result ≡ least_open_item s }
    {
        self.left.least().map(u64::from)
    }

    // Holds one user more, which is idle.
    fn hold(&mut self, user: u32)
        ensures { user ≤ 1000 → self.old.held < self.old.users → self.new ≡ record self.old { idle = with_number user self.old.idle; held = self.old.held + 1 } }
    {
        self.rest(user);
        self.held = self.held.saturating_add(1);
    }

    // Counts a user among the idle ones.
    fn rest(&mut self, user: u32)
        ensures { user ≤ 1000 → self.new ≡ record self.old { idle = with_number user self.old.idle } }
    {
        if user < NUMBERS {
            self.idle.insert(user);
        }
    }

    // Ends the least open item, if there is one.
    fn pass(&mut self)
        ensures { (item : ℕ) → slice_get self.old.left 0 ≡ Some item → self.new ≡ record self.old { left = without_number item self.old.left } }
    {
        if let Some(item) = self.left.least() {
            self.left.remove(item);
        }
    }

    // Whether an item is open.
    fn has_open_item(&self) -> bool
        ensures { (s : Scenario) → Shows self.now s → result ≡ has_open_item s }
    {
        self.left.least().is_some()
    }

    // The idle user that is to be released, if there is one.
    fn to_release(&self, prefer: u32, reading: u64) -> Option<u32>
        ensures some { IfSome result (λ user. chosen_of prefer self.now.idle ≡ Some user) }
        ensures may { IfSome result (λ user. (s : Scenario) (slot : ℕ) → Shows self.now s → may_release s slot reading ≡ true) }
        ensures none { IfNone result ((s : Scenario) (n : ℕ) → Shows self.now s → releases n s reading ≡ []) }
    {
        if self.may_release(reading) {
            chosen(&self.idle, prefer)
        } else {
            None
        }
    }

    // The slot for which a free user is to be taken, if there is one.
    fn to_take(&self, free: bool, reading: u64) -> Option<u32>
        ensures some { IfSome result (λ slot. (free ≡ true) × (slot ≡ self.now.held)) }
        ensures may { IfSome result (λ slot. (s : Scenario) → Shows self.now s → may_take s slot reading ≡ true) }
        ensures none { IfNone result ((s : Scenario) (n : ℕ) (users : Users) → Shows self.now s → is_some (first_of users.free) ≡ free → takes n s users reading ≡ []) }
    {
        if free && self.may_take(reading) {
            Some(self.held)
        } else {
            None
        }
    }

    // The idle user on which an item is to start, with the item, if there is one.
    fn to_start(&self, prefer: u32, reading: u64) -> Option<(u32, u64)>
        ensures some { IfSome result (λ pair. chosen_of prefer self.now.idle ≡ Some pair.0) }
        ensures may { IfSome result (λ pair. (s : Scenario) (slot : ℕ) → Shows self.now s → item_to_start s slot reading ≡ Some pair.1) }
        ensures none { IfNone result ((s : Scenario) (n : ℕ) → Shows self.now s → starts n s reading ≡ []) }
    {
        let item = self.item_to_start(reading)?;
        let user = chosen(&self.idle, prefer)?;
        Some((user, item))
    }

    // The item that is to start where a user is idle.
    fn item_to_start(&self, reading: u64) -> Option<u64>
        ensures { (s : Scenario) (slot : ℕ) → Shows self.now s → result ≡ item_to_start s slot reading }
    {
        if self.course.is_live(reading) {
            self.open_item()
        } else {
            None
        }
    }

    // The item that is to be dropped, if there is one.
    fn to_drop(&self, reading: u64) -> Option<u64>
        ensures { (s : Scenario) → Shows self.now s → result ≡ item_to_drop s reading }
    {
        if self.course.runs() && self.course.has_ended(reading) {
            self.open_item()
        } else {
            None
        }
    }

    // Whether an idle user may be released.
    fn may_release(&self, reading: u64) -> bool
        ensures { (s : Scenario) (slot : ℕ) → Shows self.now s → result ≡ may_release s slot reading }
    {
        if self.course.closed {
            return false;
        }
        !self.course.runs() || self.course.has_ended(reading) || !self.has_open_item()
    }

    // Whether a user may be taken, if one is free.
    fn may_take(&self, reading: u64) -> bool
        ensures { (s : Scenario) (slot : ℕ) → Shows self.now s → result ≡ may_take s slot reading }
    {
        self.course.is_live(reading) && self.held < self.users && self.has_open_item()
    }

    // Whether the scenario may close.
    fn may_close(&self, reading: u64) -> bool
        ensures { (s : Scenario) → Shows self.now s → result ≡ may_close s reading }
    {
        if self.course.closed || self.held != 0 {
            return false;
        }
        !self.course.runs() || (!self.has_open_item() && self.course.has_begun(reading))
    }
}
