ghost use Rattle.std.specs.Prelude.{◌≡◌};
ghost use Rattle.ld_executor.specs.Shows.{Follows, MayTell, Shows, closed_of};
ghost use Rattle.ld_machine.specs.Scenario.{Scenario, least_open_item, may_stop};
ghost use Rattle.ld_machine.specs.Together.{least_above};
ghost use Rattle.ld_machine.specs.Told.{level_number};
ghost use Rattle.ld_machine.specs.Wait.{scenario_moments};
ghost use Rattle.ld_machine.specs.Wishes.{WishesFirst, has_arrivals};

use ld_base::{Act, Wish};
use ld_iters::ItersState;
use ld_rates::RatesState;

/// One scenario as it stands, by its executor. Each call says what it answers of the machine's scenario that the state
/// shows. Readings and moments are in nanoseconds from the run's start.
#[derive(Drop)]
pub enum ExecutorState {
    /// Its users begin one iteration after another.
    Iters(ItersState),
    /// At an arrival rate.
    Rates(RatesState),
}

impl ExecutorState {
    /// What the scenario would do first at a reading, its halt aside; `free` says whether a user of the pool is free.
    /// Where it may choose among its users it chooses `prefer`, if that is one of them; 0 is no user's number.
    pub fn next_act(&self, reading: u64, free: bool, prefer: u32) -> Wish
        ensures { (s : Scenario) → Shows self.now s → WishesFirst s reading free prefer result }
    {
        match self {
            ExecutorState::Iters(state) => state.next_act(reading, free, prefer),
            ExecutorState::Rates(state) => state.next_act(reading, free, prefer),
        }
    }

    /// Whether what the scenario starts and drops are arrivals, which go by the moments at which they are due.
    pub fn has_arrivals(&self) -> bool
        ensures { (s : Scenario) → Shows self.now s → result ≡ has_arrivals s.part.executor }
    {
        match self {
            ExecutorState::Iters(_) => false,
            ExecutorState::Rates(_) => true,
        }
    }

    /// Takes notice of an act of this scenario, or of a control, at a reading: of one that the scenario may be told of.
    /// Takes no memory.
    pub fn apply(&mut self, act: &Act, reading: u64)
        requires { MayTell self.old act.now }
        ensures { Follows self.old self.new act.now reading }
    {
        match self {
            ExecutorState::Iters(state) => state.apply(act, reading),
            ExecutorState::Rates(state) => state.apply(act, reading),
        }
    }

    /// The least moment above the reading at which the clock may change what the scenario does, if there is one.
    pub fn candidate(&self, reading: u64) -> Option<u64>
        ensures { (s : Scenario) → Shows self.now s → result ≡ least_above reading (scenario_moments s) }
    {
        match self {
            ExecutorState::Iters(state) => state.candidate(reading),
            ExecutorState::Rates(state) => state.candidate(reading),
        }
    }

    /// Whether the scenario may be halted at a reading, since its grace is over behind a commanded stop.
    pub fn may_stop(&self, reading: u64) -> bool
        ensures { (s : Scenario) → Shows self.now s → result ≡ may_stop s reading }
    {
        match self {
            ExecutorState::Iters(state) => state.may_stop(reading),
            ExecutorState::Rates(state) => state.may_stop(reading),
        }
    }

    /// The scenario's level: 0 where it runs, 1 where it starts nothing more, 2 where it was halted.
    pub fn level(&self) -> u8
        ensures { (s : Scenario) → Shows self.now s → result ≡ level_number s.share.level }
    {
        match self {
            ExecutorState::Iters(state) => state.level(),
            ExecutorState::Rates(state) => state.level(),
        }
    }

    /// Whether the scenario is closed.
    pub fn is_closed(&self) -> bool
        ensures kept { result ≡ closed_of self.now }
        ensures shown { (s : Scenario) → Shows self.now s → result ≡ s.share.closed }
    {
        match self {
            ExecutorState::Iters(state) => state.is_closed(),
            ExecutorState::Rates(state) => state.is_closed(),
        }
    }

    /// The least open item, or None exactly where none is open.
    pub fn open_item(&self) -> Option<u64>
        ensures { (s : Scenario) → Shows self.now s → result ≡ least_open_item s }
    {
        match self {
            ExecutorState::Iters(state) => state.open_item(),
            ExecutorState::Rates(state) => state.open_item(),
        }
    }
}
