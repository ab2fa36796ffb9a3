// The asks of a core.
use crate::first::{First, Next};
use crate::machine::Core;
use ld_base::{Act, Command, Outcome, Reply, Stint, Tally, Wish};
use ld_executor::ExecutorState;

/// The level of a scenario that was halted.
const HALTED: u8 = 2;

impl Core {
    ghost use Rattle.std.specs.Prelude.{◌≡◌, ◌≢◌, ◌+◌, ◌<◌, ℕ, Bool, is_some, length};
    ghost use Rattle.ld_base.specs.declared.ask.Ask.{Ask};
    ghost use Rattle.ld_core.specs.Changes.{HasPlace, IsReturn};
    ghost use Rattle.ld_core.specs.CoreView.{state_of, plan_of, IsAsked};
    ghost use Rattle.ld_core.specs.Firsts.{ComesFirst, IsFirst, IsFirstAnswer, IsFirstDrop, IsFirstNext, IsFirstStart, IsFirstTake, IsFirstTakeFor};
    ghost use Rattle.ld_core.specs.declared.first.Next.{Next};
    ghost use Rattle.ld_machine.specs.Scenario.{first_of};
    ghost use Rattle.ld_machine.specs.Moves.{CloseScenario, CountLate, GrowAndStart, ReleaseUser, StopScenario};
    ghost use Rattle.ld_base.specs.declared.command.Command.{Command};
    ghost use Rattle.ld_machine.specs.State.{all_closed, free_users};

    // Performs the first enabled act.
    pub(crate) fn act(&mut self, thread: u32, reading: u64) -> Reply
        ensures { IsAsked self.old self.new thread Ask.Act reading result }
    {
        if self.all_closed() {
            return Reply::Over;
        }
        let free = self.pool.free_count() > 0;
        match self.first(free, reading) {
            Some(first) => self.act_first(thread, first, free, reading),
            None => Reply::Wait(self.wait_moment(reading)),
        }
    }

    // Whether all scenarios are closed.
    fn all_closed(&self) -> bool
        ensures { result ≡ all_closed (state_of self.now) }
    {
        all_closed(&self.scenarios)
    }

    // Performs what comes first.
    fn act_first(&mut self, thread: u32, first: First, free: bool, reading: u64) -> Reply
        requires first { ComesFirst self.old reading first }
        requires free { free ≡ is_some (first_of (free_users (state_of self.old))) }
        ensures { IsAsked self.old self.new thread Ask.Act reading result }
    {
        match first.next {
            Next::Halt => self.act_stop(thread, first.scenario, reading),
            Next::Wished { wish, .. } => self.act_wished(
                thread,
                first.scenario,
                wish,
                free,
                reading,
            ),
        }
    }

    // Performs what a scenario wishes, where that comes first.
    fn act_wished(
        &mut self,
        thread: u32,
        scenario: u16,
        wish: Wish,
        free: bool,
        reading: u64,
    ) -> Reply
        requires first { (arrivals : Bool) × IsFirstNext self.old reading scenario (Next.Wished wish arrivals) }
        requires free { free ≡ is_some (first_of (free_users (state_of self.old))) }
        ensures { IsAsked self.old self.new thread Ask.Act reading result }
    {
        match wish {
            Wish::Nothing => unreachable!(),
            Wish::Release { user } => self.act_release(thread, scenario, user, reading),
            Wish::Take { slot } => self.act_take(thread, scenario, slot, reading),
            Wish::Start {
                user,
                item,
                until,
                due: _,
            } => self.act_start(thread, scenario, user, item, until, reading),
            Wish::More {
                item,
                until,
                due: _,
                slot,
            } => {
                if self.pool.made() < self.plan.users().limit {
                    self.act_grow(thread, scenario, slot, item, until, reading)
                } else if free {
                    self.act_take_for(thread, scenario, slot, item, until, reading)
                } else {
                    self.act_drop(thread, scenario, item, reading)
                }
            }
            Wish::Drop { item, due: _ } => self.act_drop(thread, scenario, item, reading),
            Wish::Late { item, due: _ } => self.act_late(thread, scenario, item, reading),
            Wish::Close => self.act_close(thread, scenario, reading),
        }
    }

    // Halts a scenario.
    fn act_stop(&mut self, thread: u32, scenario: u16, reading: u64) -> Reply
        requires first { IsFirst self.old reading (StopScenario scenario) }
        ensures { IsAsked self.old self.new thread Ask.Act reading result }
    {
        match self.full(1, 0) {
            Some(full) => full,
            None => {
                self.note(thread, scenario, Act::Stop { scenario }, reading);
                Reply::Stopped { scenario }
            }
        }
    }

    // Closes a scenario.
    fn act_close(&mut self, thread: u32, scenario: u16, reading: u64) -> Reply
        requires first { IsFirst self.old reading (CloseScenario scenario) }
        ensures { IsAsked self.old self.new thread Ask.Act reading result }
    {
        match self.full(1, 0) {
            Some(full) => full,
            None => {
                self.note(thread, scenario, Act::Close { scenario }, reading);
                Reply::Closed { scenario }
            }
        }
    }

    // Lets an idle user go.
    fn act_release(&mut self, thread: u32, scenario: u16, user: u32, reading: u64) -> Reply
        requires first { IsFirst self.old reading (ReleaseUser scenario user) }
        ensures { IsAsked self.old self.new thread Ask.Act reading result }
    {
        match self.full(1, 0) {
            Some(full) => full,
            None => {
                self.release(thread, scenario, user, reading);
                Reply::Released { scenario, user }
            }
        }
    }

    // Takes a free user.
    fn act_take(&mut self, thread: u32, scenario: u16, slot: u32, reading: u64) -> Reply
        requires first { IsFirstTake self.old reading scenario slot }
        requires place { HasPlace self.old scenario slot }
        ensures { IsAsked self.old self.new thread Ask.Act reading result }
    {
        match self.full(1, 0) {
            Some(full) => full,
            None => {
                let user = self.take(thread, scenario, slot, reading);
                Reply::Took { scenario, user }
            }
        }
    }

    // Starts an item on an idle user.
    fn act_start(
        &mut self,
        thread: u32,
        scenario: u16,
        user: u32,
        item: u64,
        until: u64,
        reading: u64,
    ) -> Reply
        requires first { IsFirstStart self.old reading scenario user item until }
        ensures { IsAsked self.old self.new thread Ask.Act reading result }
    {
        match self.full_to_start(scenario, 1) {
            Some(full) => full,
            None => Reply::Run(self.start(thread, scenario, user, item, until, reading)),
        }
    }

    // Makes a user for a due arrival, and starts it.
    fn act_grow(
        &mut self,
        thread: u32,
        scenario: u16,
        slot: u32,
        item: u64,
        until: u64,
        reading: u64,
    ) -> Reply
        requires first { IsFirstAnswer self.old reading scenario item until (GrowAndStart ((state_of self.old).made + 1) slot) }
        ensures { IsAsked self.old self.new thread Ask.Act reading result }
    {
        match self.full_to_start(scenario, 2) {
            Some(full) => full,
            None => {
                let user = self.grow(thread, scenario, slot, reading);
                Reply::Run(self.start(thread, scenario, user, item, until, reading))
            }
        }
    }

    // Takes a free user for a due arrival, and starts it.
    fn act_take_for(
        &mut self,
        thread: u32,
        scenario: u16,
        slot: u32,
        item: u64,
        until: u64,
        reading: u64,
    ) -> Reply
        requires first { IsFirstTakeFor self.old reading scenario item until slot }
        ensures { IsAsked self.old self.new thread Ask.Act reading result }
    {
        match self.full_to_start(scenario, 2) {
            Some(full) => full,
            None => {
                let user = self.take(thread, scenario, slot, reading);
                Reply::Run(self.start(thread, scenario, user, item, until, reading))
            }
        }
    }

    // Drops an item.
    fn act_drop(&mut self, thread: u32, scenario: u16, item: u64, reading: u64) -> Reply
        requires first { IsFirstDrop self.old reading scenario item }
        ensures { IsAsked self.old self.new thread Ask.Act reading result }
    {
        match self.full(1, 0) {
            Some(full) => full,
            None => {
                self.note(thread, scenario, Act::Drop { scenario, item }, reading);
                Reply::Dropped { scenario, item }
            }
        }
    }

    // Counts an arrival late.
    fn act_late(&mut self, thread: u32, scenario: u16, item: u64, reading: u64) -> Reply
        requires first { (until : ℕ) × IsFirstAnswer self.old reading scenario item until CountLate }
        ensures { IsAsked self.old self.new thread Ask.Act reading result }
    {
        match self.full(1, 0) {
            Some(full) => full,
            None => {
                self.note(thread, scenario, Act::Late { scenario, item }, reading);
                Reply::Late { scenario, item }
            }
        }
    }

    // Takes a stint back.
    pub(crate) fn take_back(
        &mut self,
        thread: u32,
        stint: Stint,
        finished: bool,
        tally: Tally,
        reading: u64,
    ) -> Reply
        requires may { IsReturn self.old thread stint tally }
        ensures { IsAsked self.old self.new thread (Ask.Return stint finished tally) reading result }
    {
        let _ = &self.plan;
        let outcome = outcome_of(finished, reading, stint.until());
        self.give_back(thread, stint, outcome, tally, reading);
        Reply::Noted
    }

    // Whether iterations of a scenario of the plan go on.
    pub(crate) fn check(&self, scenario: u16) -> Reply
        requires of_plan { scenario < length (plan_of self.now).parts }
        ensures { (thread reading : ℕ) → IsAsked self.now self.now thread (Ask.Check scenario) reading result }
    {
        if self.scenarios[scenario as usize].level() == HALTED {
            Reply::Halt
        } else {
            Reply::Go
        }
    }

    // How the run stands.
    pub(crate) fn look(&self) -> Reply
        ensures { (thread reading : ℕ) → IsAsked self.now self.now thread Ask.Look reading result }
    {
        if self.all_closed() {
            return Reply::Over;
        }
        Reply::Alive {
            paused: false,
            stopped: self.stopped,
            vus: 0,
            vus_max: 0,
        }
    }

    // Notes a command. Without an externally controlled scenario each but the first stop is denied.
    pub(crate) fn control(&mut self, thread: u32, command: Command, reading: u64) -> Reply
        ensures { IsAsked self.old self.new thread (Ask.Control command) reading result }
    {
        match command {
            Command::Stop => self.control_stop(thread, reading),
            other => self.control_other(other),
        }
    }

    // Denies a command other than a stop.
    fn control_other(&self, command: Command) -> Reply
        requires other { command ≢ Command.Stop }
        ensures { (thread reading : ℕ) → IsAsked self.now self.now thread (Ask.Control command) reading result }
    {
        let _ = &self.plan;
        Reply::Denied
    }

    // Notes a stop, unless one was noted.
    fn control_stop(&mut self, thread: u32, reading: u64) -> Reply
        ensures { IsAsked self.old self.new thread (Ask.Control Command.Stop) reading result }
    {
        if self.stopped {
            return Reply::Denied;
        }
        match self.full(1, 0) {
            Some(full) => full,
            None => {
                self.stop_all(thread, reading);
                Reply::Noted
            }
        }
    }
}

ghost use Rattle.std.specs.Prelude.{◌≡◌};
ghost use Rattle.std.specs.List.{list_all};
ghost use Rattle.ld_executor.specs.Shows.{closed_of};
ghost use Rattle.ld_machine.specs.Step.{outcome_of};

// Whether all of these scenarios are closed.
fn all_closed(scenarios: &[ExecutorState]) -> bool
    ensures { result ≡ list_all closed_of scenarios.now }
{
    scenarios.iter().all(|scenario| scenario.is_closed())
}

// How an iteration ended: it is done where it finished no later than it had to.
fn outcome_of(finished: bool, reading: u64, until: u64) -> Outcome
    ensures { result ≡ outcome_of finished reading until }
{
    if finished && reading <= until {
        Outcome::Done
    } else {
        Outcome::Interrupted
    }
}
