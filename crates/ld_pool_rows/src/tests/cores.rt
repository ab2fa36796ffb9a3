// Cores: what threads ask of a pool, what it replies, and its history.

use crate::tests::entries::history_text;
use crate::tests::plans::plan_of;
use crate::tests::replies::{Said, told};
use crate::tests::table::{
    State, check_script, next_count, next_number, next_small, number, parts, small,
};
use ld_base::{Ask, Command, Stint, Tally};
use ld_core::Core;
use std::alloc::Global;
use std::test::Fail;

// One user for two arrivals: the second is dropped, since the first is under way. A row is an ask, its reading, of a
// return what was played (scenario, user, item and until), of a check the scenario, and the reply; or it asks for the
// history.
const DROPPED: &str = "\
2 1 1 0:1 1000000
act 0 => Took(0, 1)
act 0 => Run(0, 1, 0, 31000000000)
act 0 => Wait(500000000)
act 500000000 => Dropped(0, 1)
act 500000000 => Wait(1000000000)
return 1000000000 0 1 0 31000000000 => Noted
act 1000000000 => Released(0, 1)
look 1000000000 => Alive(false)
act 1000000000 => Closed(0)
act 1000000000 => Over
look 1000000000 => Over
history => 1 take 0 1 0 0, 2 start 0 1 0 0, 3 drop 0 0 1 500000000, 4 return 0 1 0 1000000000, \
5 release 0 1 0 1000000000, 6 close 0 0 0 1000000000";

// With two users at most, a user is made for the second arrival, in one step.
const GROWN: &str = "\
2 1 2 0:1 1000000
act 0 => Took(0, 1)
act 0 => Run(0, 1, 0, 31000000000)
act 500000000 => Run(0, 2, 1, 31000000000)
return 1000000000 0 1 0 31000000000 => Noted
act 1000000000 => Released(0, 1)
act 1000000000 => Wait(31000000000)
return 1000000000 0 1 0 31000000000 => NotOut
return 1500000000 0 2 1 31000000000 => Noted
act 1500000000 => Released(0, 2)
act 1500000000 => Closed(0)
history => 1 take 0 1 0 0, 2 start 0 1 0 0, 3 grow 0 2 1 500000000, 4 start 0 2 1 500000000, \
5 return 0 1 0 1000000000, 6 release 0 1 0 1000000000, 7 return 0 2 1 1500000000, 8 release 0 2 0 1500000000, \
9 close 0 0 0 1500000000";

// A history of ten entries has room for all but the close.
const FULL: &str = "\
4 1 1 0:1 10
act 0 => Took(0, 1)
act 0 => Run(0, 1, 0, 31000000000)
return 100000000 0 1 0 31000000000 => Noted
act 250000000 => Run(0, 1, 1, 31000000000)
return 350000000 0 1 1 31000000000 => Noted
act 500000000 => Run(0, 1, 2, 31000000000)
return 600000000 0 1 2 31000000000 => Noted
act 750000000 => Run(0, 1, 3, 31000000000)
return 850000000 0 1 3 31000000000 => Noted
act 1000000000 => Released(0, 1)
act 1000000000 => Full(Entries, 11, 10)
history => 1 take 0 1 0 0, 2 start 0 1 0 0, 3 return 0 1 0 100000000, 4 start 0 1 1 250000000, \
5 return 0 1 1 350000000, 6 start 0 1 2 500000000, 7 return 0 1 2 600000000, 8 start 0 1 3 750000000, \
9 return 0 1 3 850000000, 10 release 0 1 0 1000000000";

// A commanded stop lets an iteration go on for its grace, and then halts it. The other commands are denied.
const STOPPED: &str = "\
2 1 1 0:1 1000000
act 0 => Took(0, 1)
act 0 => Run(0, 1, 0, 31000000000)
stop 1 => Noted
stop 2 => Denied
check 2 0 => Go
act 2 => Wait(30000000001)
act 30000000001 => Stopped(0)
check 30000000001 0 => Halt
pause 30000000001 => Denied
users 30000000001 => Denied
most-users 30000000001 => Denied
look 30000000001 => Alive(true)
act 30000000001 => Wait(31000000000)
return 31000000001 0 1 0 31000000000 => Noted
act 31000000001 => Released(0, 1)
act 31000000001 => Closed(0)
history => 1 take 0 1 0 0, 2 start 0 1 0 0, 3 control 0 0 0 1, 4 stop 0 0 0 30000000001, \
5 interrupted 0 1 0 31000000001, 6 release 0 1 0 31000000001, 7 close 0 0 0 31000000001";

// A thread that comes behind the end finds both arrivals late.
const LATE: &str = "\
2 1 1 0:1 1000000
act 1000000000 => Late(0, 0)
act 1000000001 => Late(0, 1)
act 1000000002 => Closed(0)
history => 1 late 0 0 0 1000000000, 2 late 0 0 1 1000000001, 3 close 0 0 0 1000000002";

// The quarter of a test that begins late plays its own arrivals, with its own users.
const PART: &str = "\
10 2 5 0:1/4 1000000 \"startTime\":\"5s\",\"gracefulStop\":\"10s\",
act 0 => Wait(5000000000)
act 5000000000 => Took(0, 1)
act 5000000000 => Wait(5100000000)
act 5100000000 => Run(0, 1, 1, 16000000000)
act 5600000000 => Dropped(0, 6)
act 5600000000 => Wait(6000000000)
return 6000000000 0 1 1 16000000000 => Noted
act 6000000000 => Released(0, 1)
act 6000000000 => Closed(0)";

impl State for Core {
    fn open(alloc: Global, given: &str) -> Result<Core, Fail> {
        let plan = plan_of(alloc, given)?;
        Ok(Core::new(alloc, plan)?)
    }

    fn call(&mut self, alloc: Global, call: &str) -> Result<String, Fail> {
        match call {
            "history" => history_text(alloc, self.history()),
            _ => {
                let said = asked(self, alloc, call);
                Ok(format!(in alloc; "{said:?}")?)
            }
        }
    }
}

// What the core replies to the ask of a row.
fn asked(core: &mut Core, alloc: Global, ask: &str) -> Said {
    let (kind, rest) = parts(ask, " ");
    let (reading, given) = parts(rest, " ");
    let reading = number(reading);
    match kind {
        "act" => told(core.ask(0, Ask::Act, reading)),
        "look" => told(core.ask(0, Ask::Look, reading)),
        "check" => go_on(core, small(given), reading),
        "return" => give_back(core, alloc, stint_of(given), true, reading),
        _ => told(core.ask(1, Ask::Control(command_of(kind)), reading)),
    }
}

// The command of a name.
fn command_of(name: &str) -> Command {
    match name {
        "stop" => Command::Stop,
        "pause" => Command::Pause(true),
        "users" => Command::Vus(1),
        _ => Command::VusMax(1),
    }
}

// Asks whether iterations of a scenario go on, if it is one of the plan.
fn go_on(core: &mut Core, scenario: u16, reading: u64) -> Said {
    if scenario >= core.plan().scenarios() {
        return Said::NotOut;
    }
    told(core.ask(0, Ask::Check { scenario }, reading))
}

// The stint of what was played.
fn stint_of(played: &str) -> Stint {
    let mut words = played.split_whitespace();
    let (scenario, user) = (next_small(&mut words), next_count(&mut words));
    let (item, until) = (next_number(&mut words), next_number(&mut words));
    Stint::new(scenario, user, item, until)
}

/// Hands a stint in, if it is out: what the core replies.
pub fn give_back(
    core: &mut Core,
    alloc: Global,
    stint: Stint,
    finished: bool,
    reading: u64,
) -> Said {
    if !core.is_out(0, &stint) {
        stint.spend();
        return Said::NotOut;
    }
    let tally = Tally::empty(alloc);
    let ask = Ask::Return {
        stint,
        finished,
        tally,
    };
    told(core.ask(0, ask, reading))
}

/// One user for two arrivals.
#[test]
fn drops_an_arrival(rt: HostRuntime) -> Result<(), Fail> {
    check_script::<Core, _>(&rt, DROPPED)
}

/// Two users at most.
#[test]
fn grows_for_an_arrival(rt: HostRuntime) -> Result<(), Fail> {
    check_script::<Core, _>(&rt, GROWN)
}

/// A history of ten entries.
#[test]
fn tells_of_a_full_history(rt: HostRuntime) -> Result<(), Fail> {
    check_script::<Core, _>(&rt, FULL)
}

/// A commanded stop.
#[test]
fn winds_down(rt: HostRuntime) -> Result<(), Fail> {
    check_script::<Core, _>(&rt, STOPPED)
}

/// A thread that comes late.
#[test]
fn counts_arrivals_late(rt: HostRuntime) -> Result<(), Fail> {
    check_script::<Core, _>(&rt, LATE)
}

/// A part of a test.
#[test]
fn plays_a_part(rt: HostRuntime) -> Result<(), Fail> {
    check_script::<Core, _>(&rt, PART)
}
