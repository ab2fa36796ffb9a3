ghost use Rattle.std.specs.Prelude.{◌≡◌, ◌+◌, ◌<◌, ◌≤◌, ℕ, IfOk, IfErr, IfSome, IfNone, IsTrue, Some, is_some, true, [], option_map};
ghost use Rattle.ld_course.specs.Chosen.{chosen_of};
ghost use Rattle.ld_course.specs.Course.{own_moments};
ghost use Rattle.ld_machine.specs.Scenario.{Scenario, first_of, may_take, may_release, may_close, may_stop, due_arrival, least_open_item};
ghost use Rattle.ld_machine.specs.Moves.{Users, releases, takes};
ghost use Rattle.ld_machine.specs.Together.{least_above};
ghost use Rattle.ld_machine.specs.Told.{level_number};
ghost use Rattle.ld_machine.specs.Wait.{scenario_moments};
ghost use Rattle.ld_machine.specs.Wishes.{WishesFirst};
ghost use Rattle.ld_set.specs.SetView.{with_number};
ghost use Rattle.ld_rates.specs.Shows.{Shows, ShowsOpening, Follows, kept_pair};
ghost use Rattle.ld_rates.specs.Answer.{answer_of};
ghost use Rattle.ld_rates.specs.Applies.{MayApply, MayApplyWished, next_item};

use crate::fault::ExecFault;
use crate::open_arrivals::OpenArrivals;
use crate::rates_part::RatesPart;
use ld_base::{Act, Wish};
use ld_course::{Course, above, chosen};
use ld_set::NumberSet;
use std::alloc::Global;
use std::marker::Model;

// Users are numbered from 1 to 1,000.
const NUMBERS: u32 = 1001;

/// One scenario at an arrival rate, as it stands: its course, how many users it takes at its begin and may hold, the
/// arrivals that are still open, which users it holds idle, and how many it holds. Readings and moments are in nanoseconds
/// from the run's start.
#[derive(Drop)]
pub struct RatesState {
    course: Course,
    pre: u32,
    max: u32,
    waiting: OpenArrivals,
    // The numbers of the idle users.
    idle: NumberSet,
    held: u32,
}

impl Model for RatesState {
    ghost use Rattle.std.specs.Prelude.{◌≡◌, ◌≤◌};
    ghost use Rattle.ld_rates.specs.RatesView.{RatesView};

    ghost Value = { RatesView };

    ghost view = { λ s. record { course = s.course; pre = s.pre; max = s.max; waiting = s.waiting; idle = s.idle.numbers; held = s.held } };

    ghost invariant = { λ s. (s.pre ≤ s.max) × (s.idle.limit ≡ 1001) };
}

impl RatesState {
    /// The scenario at its opening. Room for all that it does later is reserved here. Of the part's
    /// numbers only those of the users have to fit: it takes no more at its begin than it may hold.
    ///
    /// Fails where there is no memory for that.
    pub fn new(alloc: Global, part: RatesPart) -> Result<RatesState, ExecFault>
        requires { part.pre ≤ part.max }
        ensures opens { IfOk result (ShowsOpening part) }
        ensures memory { IfErr result (λ fault. fault ≡ ExecFault.Memory) }
    {
        let RatesPart {
            begin,
            end,
            grace,
            pre,
            max,
            ticker,
        } = part;
        let idle = NumberSet::new(alloc, NUMBERS)?;
        Ok(RatesState {
            course: Course::opening(begin, end, grace),
            pre,
            max,
            waiting: OpenArrivals::new(ticker),
            idle,
            held: 0,
        })
    }

    /// What the scenario would do first at a reading, its halt aside; `free` says whether a user of the
    /// pool is free. Where the scenario may choose among its users it chooses `prefer`, if that is one
    /// of them. `More` says that an arrival is due, that no held user is idle and that one more may be
    /// held.
    pub fn next_act(&self, reading: u64, free: bool, prefer: u32) -> Wish
        ensures first { (s : Scenario) → Shows self.now s → WishesFirst s reading free prefer result }
        ensures applies { MayApplyWished self.now result }
    {
        if let Some(user) = self.to_release(prefer, reading) {
            return Wish::Release { user };
        }
        if let Some(slot) = self.to_take(free, reading) {
            return Wish::Take { slot };
        }
        if let Some((item, moment)) = self.due_arrival(reading) {
            return self.answer(item, moment, chosen(&self.idle, prefer), reading);
        }
        if self.may_close(reading) {
            Wish::Close
        } else {
            Wish::Nothing
        }
    }

    /// Takes notice of an act of this scenario, or of a control, at a reading. It is one of these:
    ///
    /// - the act that `next_act` wished, with a user from 1 to 1,000 that the scenario doesn't hold
    ///   where it is a Take;
    /// - where `next_act` wished `More`, an act of the step that answers the arrival, with such a user
    ///   where it is a Take or a Grow;
    /// - the Return of an iteration that the scenario started and that wasn't returned yet;
    /// - the scenario's Stop, or a Control.
    ///
    /// Takes no memory.
    pub fn apply(&mut self, act: &Act, reading: u64)
        requires { MayApply self.old act.now }
        ensures follows { Follows self.old self.new act.now reading }
    {
        self.course.apply(act, reading);
        match act {
            Act::Take { user, .. } => self.hold(*user),
            Act::Grow { user, .. } => self.hold(*user),
            Act::Start { user, .. } => {
                self.idle.remove(*user);
                self.waiting.pass();
            }
            Act::Drop { .. } => self.waiting.pass(),
            Act::Late { .. } => self.waiting.pass(),
            Act::Return { user, .. } => self.idle.insert(*user),
            Act::Release { user, .. } => {
                self.idle.remove(*user);
                self.held = self.held.saturating_sub(1);
            }
            Act::Stop { .. } | Act::Close { .. } | Act::Control { .. } => {}
        }
    }

    /// The least moment above the reading at which the clock may change what the scenario does; the
    /// `until`s of busy users aside. None exactly where there is none.
    pub fn candidate(&self, reading: u64) -> Option<u64>
        ensures { (s : Scenario) → Shows self.now s → result ≡ least_above reading (scenario_moments s) }
    {
        self.course.candidate(reading, self.next_due(reading))
    }

    /// The scenario's level: 0 where it runs, 1 where it starts nothing more, 2 where it was halted.
    pub fn level(&self) -> u8
        ensures { (s : Scenario) → Shows self.now s → result ≡ level_number s.share.level }
    {
        self.course.level_number()
    }

    /// Whether the scenario was closed.
    pub fn is_closed(&self) -> bool
        ensures kept { result ≡ self.now.course.closed }
        ensures shown { (s : Scenario) → Shows self.now s → result ≡ s.share.closed }
    {
        self.course.closed
    }

    /// Whether the scenario may be halted: it is open, and its grace is over since a stop was commanded.
    pub fn may_stop(&self, reading: u64) -> bool
        ensures { (s : Scenario) → Shows self.now s → result ≡ may_stop s reading }
    {
        self.course.may_stop(reading)
    }

    /// The least open item, or None exactly where none is open.
    pub fn open_item(&self) -> Option<u64>
        ensures kept { result ≡ next_item self.now }
        ensures least { (s : Scenario) → Shows self.now s → result ≡ least_open_item s }
    {
        self.waiting.first().map(|pair| pair.0)
    }

    // When the next open arrival is due, if there is one and it is above the reading.
    fn next_due(&self, reading: u64) -> Option<u64>
        ensures { (s : Scenario) → Shows self.now s → result ≡ least_above reading (own_moments s) }
    {
        let (_, moment) = self.waiting.first()?;
        above(reading, self.course.begin.saturating_add(moment))
    }

    // Holds one user more, which is idle.
    fn hold(&mut self, user: u32)
        requires few { user ≤ 1000 }
        requires room { self.old.held < self.old.max }
        ensures { self.new ≡ record self.old { idle = with_number user self.old.idle; held = self.old.held + 1 } }
    {
        self.idle.insert(user);
        self.held += 1;
    }

    // The idle user that is to be released, if there is one.
    fn to_release(&self, prefer: u32, reading: u64) -> Option<u32>
        ensures some { IfSome result (λ user. chosen_of prefer self.now.idle ≡ Some user) }
        ensures may { IfSome result (λ user. (s : Scenario) (slot : ℕ) → Shows self.now s → may_release s slot reading ≡ true) }
        ensures none { IfNone result ((s : Scenario) (n : ℕ) → Shows self.now s → releases n s reading ≡ []) }
    {
        if self.may_release(reading) {
            chosen(&self.idle, prefer)
        } else {
            None
        }
    }

    // The slot for which a free user is to be taken, if there is one.
    fn to_take(&self, free: bool, reading: u64) -> Option<u32>
        ensures some { IfSome result (λ slot. (free ≡ true) × (slot ≡ self.now.held)) }
        ensures may { IfSome result (λ slot. (s : Scenario) → Shows self.now s → may_take s slot reading ≡ true) }
        ensures few { IfSome result (λ slot. self.now.held < self.now.max) }
        ensures none { IfNone result ((s : Scenario) (n : ℕ) (users : Users) → Shows self.now s → is_some (first_of users.free) ≡ free → takes n s users reading ≡ []) }
    {
        if free && self.may_take(reading) {
            Some(self.held)
        } else {
            None
        }
    }

    // Whether an idle user may be released.
    fn may_release(&self, reading: u64) -> bool
        ensures { (s : Scenario) (slot : ℕ) → Shows self.now s → result ≡ may_release s slot reading }
    {
        !self.course.closed && (!self.course.runs() || self.course.has_ended(reading))
    }

    // Whether a user may be taken, if one is free.
    fn may_take(&self, reading: u64) -> bool
        ensures shown { (s : Scenario) (slot : ℕ) → Shows self.now s → result ≡ may_take s slot reading }
        ensures few { IsTrue result → self.now.held < self.now.max }
    {
        self.course.is_live(reading) && self.held < self.pre
    }

    // Whether the scenario may close.
    fn may_close(&self, reading: u64) -> bool
        ensures { (s : Scenario) → Shows self.now s → result ≡ may_close s reading }
    {
        if self.course.closed || self.held != 0 {
            return false;
        }
        !self.course.runs() || (self.waiting.first().is_none() && self.course.has_ended(reading))
    }

    // The arrival that is to be answered, if there is one, with its moment.
    fn due_arrival(&self, reading: u64) -> Option<(u64, u64)>
        ensures shown { (s : Scenario) → Shows self.now s → result ≡ option_map kept_pair (due_arrival s reading) }
        ensures first { IfSome result (λ pair. next_item self.now ≡ Some pair.0) }
    {
        if !self.course.runs() {
            return None;
        }
        let (item, moment) = self.waiting.first()?;
        if self.course.begin.saturating_add(moment) <= reading {
            Some((item, moment))
        } else {
            None
        }
    }

    // What becomes of a due arrival, where this user is idle.
    fn answer(&self, item: u64, moment: u64, idle: Option<u32>, reading: u64) -> Wish
        ensures { result ≡ answer_of self.now (item, moment) idle reading }
    {
        let due = self.course.begin.saturating_add(moment);
        let until = self.course.hard_moment();
        if self.course.has_ended(reading) {
            return Wish::Late { item, due };
        }
        if let Some(user) = idle {
            return Wish::Start {
                user,
                item,
                until,
                due,
            };
        }
        let slot = self.held;
        if slot < self.max {
            Wish::More {
                item,
                until,
                due,
                slot,
            }
        } else {
            Wish::Drop { item, due }
        }
    }
}
