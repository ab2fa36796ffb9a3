ghost use Rattle.std.specs.Prelude.{◌≡◌, IfErr, IfOk};
ghost use Rattle.ld_iters.specs.ItersPart.{IsSmall};
ghost use Rattle.ld_iters.specs.Shows.{Follows, Shows, ShowsOpening, closed_of};
ghost use Rattle.ld_iters.specs.declared.fault.ExecFault.TheVariants.{Memory};
ghost use Rattle.ld_machine.specs.Scenario.{Scenario, least_open_item, may_stop};
ghost use Rattle.ld_machine.specs.Together.{least_above};
ghost use Rattle.ld_machine.specs.Told.{level_number};
ghost use Rattle.ld_machine.specs.Wait.{scenario_moments};
ghost use Rattle.ld_machine.specs.Wishes.{WishesFirst};

use crate::fault::ExecFault;
use crate::iters_part::{IterKind, ItersPart};
use crate::shared_iters::SharedIters;
use crate::slot_iters::SlotIters;
use ld_base::{Act, Wish};
use std::alloc::Global;

/// One scenario whose users begin one iteration after another, as it stands. Readings and moments are in nanoseconds from
/// the run's start.
#[derive(Drop)]
pub enum ItersState {
    /// All users share one number of iterations.
    Shared(SharedIters),
    /// Each user has a slot, with a number of iterations of its own or no end of them.
    Slots(SlotIters),
}

impl ItersState {
    /// The scenario at its opening. Room for all that it does later is reserved here.
    ///
    /// Fails where there is no memory for that.
    pub fn new(alloc: Global, part: ItersPart) -> Result<ItersState, ExecFault>
        requires { IsSmall part.kind part }
        ensures opens { IfOk result (ShowsOpening part) }
        ensures memory { IfErr result (λ fault. fault ≡ Memory) }
    {
        match part.kind {
            IterKind::Shared => Ok(ItersState::Shared(SharedIters::new(alloc, &part)?)),
            IterKind::PerUser => Ok(ItersState::Slots(SlotIters::new(alloc, &part)?)),
            IterKind::Constant => Ok(ItersState::Slots(SlotIters::new(alloc, &part)?)),
        }
    }

    /// What the scenario would do first at a reading, its halt aside; `free` says whether a user of the pool is free.
    /// Where it may choose among its users it chooses `prefer`, if that is one of them; 0 is no user's number. The moment
    /// at which an iteration that starts or is dropped was due says nothing, and is the reading.
    pub fn next_act(&self, reading: u64, free: bool, prefer: u32) -> Wish
        ensures { (s : Scenario) → Shows self.now s → WishesFirst s reading free prefer result }
    {
        match self {
            ItersState::Shared(state) => state.next_act(reading, free, prefer),
            ItersState::Slots(state) => state.next_act(reading, free, prefer),
        }
    }

    /// Takes notice of an act of this scenario, or of a control, at a reading: of one that the scenario may be told of.
    /// Nothing is promised of the state behind another one. Takes no memory.
    pub fn apply(&mut self, act: &Act, reading: u64)
        ensures { Follows self.old self.new act.now reading }
    {
        match self {
            ItersState::Shared(state) => state.apply(act, reading),
            ItersState::Slots(state) => state.apply(act, reading),
        }
    }

    /// The least moment above the reading at which the clock may change what the scenario does; the `until`s of busy
    /// users aside. None exactly where there is none.
    pub fn candidate(&self, reading: u64) -> Option<u64>
        ensures { (s : Scenario) → Shows self.now s → result ≡ least_above reading (scenario_moments s) }
    {
        match self {
            ItersState::Shared(state) => state.candidate(reading),
            ItersState::Slots(state) => state.candidate(reading),
        }
    }

    /// Whether the scenario may be halted: it is open, and its grace is over since a stop was commanded.
    pub fn may_stop(&self, reading: u64) -> bool
        ensures { (s : Scenario) → Shows self.now s → result ≡ may_stop s reading }
    {
        match self {
            ItersState::Shared(state) => state.may_stop(reading),
            ItersState::Slots(state) => state.may_stop(reading),
        }
    }

    /// The scenario's level: 0 where it runs, 1 where it starts nothing more, 2 where it was halted.
    pub fn level(&self) -> u8
        ensures { (s : Scenario) → Shows self.now s → result ≡ level_number s.share.level }
    {
        match self {
            ItersState::Shared(state) => state.level(),
            ItersState::Slots(state) => state.level(),
        }
    }

    /// Whether the scenario was closed.
    pub fn is_closed(&self) -> bool
        ensures kept { result ≡ closed_of self.now }
        ensures shown { (s : Scenario) → Shows self.now s → result ≡ s.share.closed }
    {
        match self {
            ItersState::Shared(state) => state.is_closed(),
            ItersState::Slots(state) => state.is_closed(),
        }
    }

    /// The least open item, or None exactly where none is open. Constant users have no items.
    pub fn open_item(&self) -> Option<u64>
        ensures { (s : Scenario) → Shows self.now s → result ≡ least_open_item s }
    {
        match self {
            ItersState::Shared(state) => state.open_item(),
            ItersState::Slots(state) => state.open_item(),
        }
    }
}
