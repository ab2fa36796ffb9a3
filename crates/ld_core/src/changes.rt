// The changes of a core, each with its entry in the history.
ghost use Rattle.std.specs.Prelude.{◌≡◌, ◌≢◌, ◌<◌, ◌≤◌, ◌+◌, ◌++◌, ◌∷◌, [], length};

use crate::machine::Core;
use ld_base::{Act, Command, Entry, History, Outcome, Stint, Tally};
use ld_executor::ExecutorState;

impl Core {
    ghost use Rattle.std.specs.Prelude.{◌≡◌, ◌≢◌, ◌<◌, ◌+◌, [], Contains, IsTrue};
    ghost use Rattle.ld_base.specs.Stint.{stint_of};
    ghost use Rattle.ld_base.specs.declared.act.Act.{Act};
    ghost use Rattle.ld_base.specs.declared.command.Command.{Command};
    ghost use Rattle.ld_core.specs.Changes.{HasPlace, HasRoom, HasSampleRoom, IsReturn, LeavesUsers, MayBeToldOf};
    ghost use Rattle.ld_core.specs.CoreView.{plan_of, state_of, Adds};
    ghost use Rattle.ld_machine.specs.State.{free_users};

    // Notes an act that changes no user.
    pub(crate) fn note(&mut self, thread: u32, scenario: u16, act: Act, reading: u64)
        requires leaves { LeavesUsers scenario act }
        requires told { MayBeToldOf self.old scenario act }
        requires room { HasRoom self.old 1 0 }
        ensures added { Adds self.old self.new thread reading act }
    {
        let state = &mut self.scenarios[scenario as usize];
        record(state, &mut self.history, thread, act, reading);
    }

    // Lets an idle user go.
    pub(crate) fn release(&mut self, thread: u32, scenario: u16, user: u32, reading: u64)
        requires told { MayBeToldOf self.old scenario (Act.Release scenario user) }
        requires room { HasRoom self.old 1 0 }
        ensures added { Adds self.old self.new thread reading (Act.Release scenario user) }
    {
        self.pool.release(user);
        let act = Act::Release { scenario, user };
        let state = &mut self.scenarios[scenario as usize];
        record(state, &mut self.history, thread, act, reading);
    }

    // Takes a free user for a slot.
    pub(crate) fn take(&mut self, thread: u32, scenario: u16, slot: u32, reading: u64) -> u32
        requires free { free_users (state_of self.old) ≢ [] }
        requires place { HasPlace self.old scenario slot }
        requires room { HasRoom self.old 1 0 }
        ensures free { Contains (free_users (state_of self.old)) result }
        ensures added { Adds self.old self.new thread reading (Act.Take scenario result slot) }
    {
        let Some(user) = self.pool.take(scenario, 0) else {
            unreachable!();
        };
        let act = Act::Take {
            scenario,
            user,
            slot,
        };
        let state = &mut self.scenarios[scenario as usize];
        record(state, &mut self.history, thread, act, reading);
        user
    }

    // Makes a user for a slot.
    pub(crate) fn grow(&mut self, thread: u32, scenario: u16, slot: u32, reading: u64) -> u32
        requires below { (state_of self.old).made < (plan_of self.old).limit }
        requires place { HasPlace self.old scenario slot }
        requires room { HasRoom self.old 1 0 }
        ensures number { result ≡ (state_of self.old).made + 1 }
        ensures added { Adds self.old self.new thread reading (Act.Grow scenario result slot) }
    {
        let Some(user) = self.pool.grow(scenario) else {
            unreachable!();
        };
        let act = Act::Grow {
            scenario,
            user,
            slot,
        };
        let state = &mut self.scenarios[scenario as usize];
        record(state, &mut self.history, thread, act, reading);
        user
    }

    // Starts an item on an idle user, which would start it next.
    pub(crate) fn start(
        &mut self,
        thread: u32,
        scenario: u16,
        user: u32,
        item: u64,
        until: u64,
        reading: u64,
    ) -> Stint
        requires told { MayBeToldOf self.old scenario (Act.Start scenario user item until) }
        requires room { HasRoom self.old 1 1 }
        requires samples { HasSampleRoom self.old scenario }
        ensures stint { result ≡ stint_of scenario user item until }
        ensures added { Adds self.old self.new thread reading (Act.Start scenario user item until) }
    {
        self.under_way += self.plan.sample_room(scenario) as u64;
        let stint = self.pool.start(thread, scenario, user, item, until);
        let act = Act::Start {
            scenario,
            user,
            item,
            until,
        };
        let state = &mut self.scenarios[scenario as usize];
        record(state, &mut self.history, thread, act, reading);
        stint
    }

    // Takes a stint back.
    pub(crate) fn give_back(
        &mut self,
        thread: u32,
        stint: Stint,
        outcome: Outcome,
        tally: Tally,
        reading: u64,
    )
        requires may { IsReturn self.old thread stint tally }
        ensures added { Adds self.old self.new thread reading (Act.Return stint.scenario stint.user stint.item outcome tally) }
    {
        let (scenario, user) = (stint.scenario(), stint.user());
        self.under_way -= self.plan.sample_room(scenario) as u64;
        self.samples += tally.len() as u64;
        let act = Act::Return {
            scenario,
            user,
            item: stint.item(),
            outcome,
            tally,
        };
        self.pool.give_back(stint);
        let state = &mut self.scenarios[scenario as usize];
        record(state, &mut self.history, thread, act, reading);
    }

    // Stops the run: the scenarios start nothing more.
    pub(crate) fn stop_all(&mut self, thread: u32, reading: u64)
        requires room { HasRoom self.old 1 0 }
        ensures added { Adds self.old self.new thread reading (Act.Control Command.Stop) }
    {
        self.stopped = true;
        stop_each(&mut self.scenarios, reading);
        let act = Act::Control {
            command: Command::Stop,
        };
        write(&mut self.history, thread, act, reading);
    }
}

ghost use Rattle.ld_base.specs.declared.act.Act.{Act};
ghost use Rattle.ld_base.specs.declared.command.Command.{Command};
ghost use Rattle.ld_core.specs.Changes.{AllFollow, AllMayTell};
ghost use Rattle.ld_executor.specs.Shows.{Follows, MayTell};

// Applies an act to its scenario, and writes its entry.
fn record(scenario: &mut ExecutorState, history: &mut History, thread: u32, act: Act, reading: u64)
    requires may { MayTell scenario.old act }
    requires room { length history.old.entries < history.old.room }
    ensures follows { Follows scenario.old scenario.new act reading }
    ensures entries { history.new.entries ≡ history.old.entries ++ record { turn = length history.old.entries + 1; thread = thread; act = act; reading = reading } ∷ [] }
    ensures room { history.new.room ≡ history.old.room }
{
    scenario.apply(&act, reading);
    write(history, thread, act, reading);
}

// Writes the entry of an act.
fn write(history: &mut History, thread: u32, act: Act, reading: u64)
    requires room { length history.old.entries < history.old.room }
    ensures entries { history.new.entries ≡ history.old.entries ++ record { turn = length history.old.entries + 1; thread = thread; act = act; reading = reading } ∷ [] }
    ensures room { history.new.room ≡ history.old.room }
{
    let turn = history.len() as u64 + 1;
    history.push(Entry {
        turn,
        thread,
        act,
        reading,
    });
}

// Tells each scenario of a commanded stop.
fn stop_each(scenarios: &mut [ExecutorState], reading: u64)
    requires { AllMayTell scenarios.old (Act.Control Command.Stop) }
    ensures { AllFollow scenarios.old scenarios.new (Act.Control Command.Stop) reading }
{
    let act = Act::Control {
        command: Command::Stop,
    };
    for scenario in scenarios.iter_mut() {
        scenario.apply(&act, reading);
    }
}
