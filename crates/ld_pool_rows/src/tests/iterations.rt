// One scenario whose users begin one iteration after another: what it wishes, and what acts do to it.
ghost use Rattle.std.specs.Prelude.{◌≤◌};

use crate::tests::table::{State, check_script, count, number, parts};
use ld_base::{Act, Command, Outcome, Tally, Wish};
use ld_iters::{IterKind, ItersPart, ItersState};
use ld_stripe::Stripe;
use std::alloc::Global;
use std::test::Fail;

// A second, and half of one, in nanoseconds.
const SECOND: u64 = 1_000_000_000;

const HALF: u64 = 500_000_000;

// Two users share three items; who is preferred starts, if it is idle. A user that finds no open item is let go, and the
// scenario closes before its end. The first row says the kind, the users, and the whole's items. Each other row is a
// call, its reading, of an act whether a user of the pool is free and the number of a user that it takes or, of `next`,
// that is preferred, and what the scenario says: a wish is its name with its slot, its user, or its user, item and
// `until`, or its item.
const SHARED: &str = "\
shared 2 3
level => 0
item => Some(0)
moment 0 => Some(1000000000)
act 0 free 1 => take 0
act 0 free 2 => take 1
next 0 2 => start 2 0 1500000000
next 0 3 => start 1 0 1500000000
act 0 free 0 => start 1 0 1500000000
act 0 none 0 => start 2 1 1500000000
act 0 free 0 => nothing
item => Some(2)
return 400000000 1 0 => noted
act 400000000 free 0 => start 1 2 1500000000
item => None
act 400000000 free 0 => nothing
return 500000000 2 1 => noted
act 500000000 free 0 => release 2
act 500000000 free 0 => nothing
return 900000000 1 2 => noted
act 900000000 free 0 => release 1
closed => false
act 900000000 free 0 => close
closed => true
act 900000000 free 0 => nothing
moment 0 => None";

// At its end users are let go, and then what is open is dropped; before that nothing is.
const DROPPED: &str = "\
shared 1 3
act 0 free 1 => take 0
act 0 free 0 => start 1 0 1500000000
act 999999999 free 0 => nothing
act 1000000000 free 0 => drop 1
act 1000000000 free 0 => drop 2
act 1000000000 free 0 => nothing
return 1500000000 1 0 => noted
act 1500000000 free 0 => release 1
act 1500000000 free 0 => close
shared 1 2
act 0 free 1 => take 0
act 1000000000 free 0 => release 1
act 1000000000 free 0 => drop 0
act 1000000000 free 0 => drop 1
act 1000000000 free 0 => close";

// Two users with two items each: those of the second slot are 2 and 3. Each user plays its own slot's, and is let go
// behind the last of them.
const PER_USER: &str = "\
per-user 2 2
act 0 free 5 => take 0
act 0 free 3 => take 1
act 0 none 0 => start 5 0 1500000000
next 0 5 => start 3 2 1500000000
act 0 free 0 => start 3 2 1500000000
act 0 free 0 => nothing
item => Some(1)
return 100000000 5 0 => noted
act 100000000 free 0 => start 5 1 1500000000
item => Some(3)
return 200000000 5 1 => noted
act 200000000 free 0 => release 5
act 200000000 free 0 => nothing
return 300000000 3 2 => noted
next 300000000 3 => start 3 3 1500000000
act 1000000000 free 0 => release 3
act 1000000000 free 0 => drop 3
item => None
act 1000000000 free 0 => close";

// Constant users go on until the end; what each of them starts is its slot.
const CONSTANT: &str = "\
constant 2 0
act 0 free 2 => take 0
act 0 free 1 => take 1
next 0 1 => start 1 1 1500000000
act 0 none 0 => start 2 0 1500000000
act 0 none 0 => start 1 1 1500000000
item => None
return 400000000 2 0 => noted
act 400000000 none 0 => start 2 0 1500000000
return 1000000000 1 1 => noted
act 1000000000 free 0 => release 1
act 1000000000 free 0 => nothing
return 1500000000 2 0 => noted
act 1500000000 free 0 => release 2
act 1500000000 free 0 => close
moment 0 => None";

// Behind a commanded stop nothing starts and nothing is dropped; an idle user is let go, and the scenario may be halted
// when its grace is over.
const STOPPED: &str = "\
per-user 2 2
act 0 free 1 => take 0
act 0 free 2 => take 1
act 0 free 0 => start 1 0 1500000000
pause 7 => noted
level => 0
stop 7 => noted
level => 1
act 7 free 0 => release 2
act 7 free 0 => nothing
moment 7 => Some(500000007)
may-stop 500000006 => false
may-stop 500000007 => true
halt 500000007 => noted
level => 2
return 600000000 1 0 => noted
act 1000000000 free 0 => release 1
act 1000000000 free 0 => close
shared 1 3
act 0 free 1 => take 0
stop 7 => noted
act 7 free 0 => release 1
act 1000000000 free 0 => close";

impl State for ItersState {
    // One second from 0 on, with half a second of grace, of a test that isn't cut.
    fn open(alloc: Global, given: &str) -> Result<ItersState, Fail> {
        let (kind, given) = parts(given, " ");
        let (users, items) = parts(given, " ");
        match kind {
            "shared" => shared(alloc, count(users), number(items).min(400_000)),
            "per-user" => per_user(alloc, number(items).min(1000)),
            _ => constant(alloc),
        }
    }

    fn call(&mut self, alloc: Global, call: &str) -> Result<String, Fail> {
        let (kind, given) = parts(call, " ");
        let (reading, given) = parts(given, " ");
        let reading = number(reading);
        match kind {
            "act" => act(alloc, self, reading, given),
            "next" => wish_text(alloc, self.next_act(reading, true, count(given))),
            "item" => Ok(format!(in alloc; "{:?}", self.open_item())?),
            "moment" => Ok(format!(in alloc; "{:?}", self.candidate(reading))?),
            "level" => Ok(format!(in alloc; "{}", self.level())?),
            "closed" => Ok(format!(in alloc; "{}", self.is_closed())?),
            "may-stop" => Ok(format!(in alloc; "{}", self.may_stop(reading))?),
            _ => told(alloc, self, kind, reading, given),
        }
    }
}

// So many users that share so many items.
fn shared(alloc: Global, users: u32, total: u64) -> Result<ItersState, Fail>
    requires { total ≤ 400000 }
{
    let part = ItersPart {
        kind: IterKind::Shared,
        begin: 0,
        end: SECOND,
        grace: HALF,
        users,
        iterations: 0,
        stripe: Stripe::of_weights(alloc, &[1])?,
        position: 0,
        total,
    };
    Ok(ItersState::new(alloc, part)?)
}

// Two users with so many items each.
fn per_user(alloc: Global, iterations: u64) -> Result<ItersState, Fail>
    requires { iterations ≤ 1000 }
{
    let part = ItersPart {
        kind: IterKind::PerUser,
        begin: 0,
        end: SECOND,
        grace: HALF,
        users: 2,
        iterations,
        stripe: Stripe::of_weights(alloc, &[1])?,
        position: 0,
        total: 2,
    };
    Ok(ItersState::new(alloc, part)?)
}

// Two users that go on until the end.
fn constant(alloc: Global) -> Result<ItersState, Fail> {
    let part = ItersPart {
        kind: IterKind::Constant,
        begin: 0,
        end: SECOND,
        grace: HALF,
        users: 2,
        iterations: 0,
        stripe: Stripe::of_weights(alloc, &[1])?,
        position: 0,
        total: 2,
    };
    Ok(ItersState::new(alloc, part)?)
}

// Performs what the scenario wishes.
fn act(alloc: Global, state: &mut ItersState, reading: u64, given: &str) -> Result<String, Fail> {
    let (free, user) = parts(given, " ");
    let wish = state.next_act(reading, matches!(free, "free"), 0);
    if let Some(act) = act_of(wish, count(user)) {
        state.apply(&act, reading);
    }
    wish_text(alloc, wish)
}

// The act that a wish is for; a user that is taken has this number.
fn act_of(wish: Wish, user: u32) -> Option<Act> {
    let scenario = 0;
    match wish {
        Wish::Release { user } => Some(Act::Release { scenario, user }),
        Wish::Take { slot } => Some(Act::Take {
            scenario,
            user,
            slot,
        }),
        Wish::Start {
            user,
            item,
            until,
            ..
        } => Some(Act::Start {
            scenario,
            user,
            item,
            until,
        }),
        Wish::Drop { item, .. } => Some(Act::Drop { scenario, item }),
        Wish::Close => Some(Act::Close { scenario }),
        Wish::Nothing | Wish::More { .. } | Wish::Late { .. } => None,
    }
}

// A wish.
fn wish_text(alloc: Global, wish: Wish) -> Result<String, Fail> {
    match wish {
        Wish::Nothing => Ok(String::from_str(alloc, "nothing")?),
        Wish::Release { user } => Ok(format!(in alloc; "release {user}")?),
        Wish::Take { slot } => Ok(format!(in alloc; "take {slot}")?),
        Wish::Start {
            user,
            item,
            until,
            ..
        } => Ok(format!(in alloc; "start {user} {item} {until}")?),
        Wish::Drop { item, .. } => Ok(format!(in alloc; "drop {item}")?),
        Wish::Close => Ok(String::from_str(alloc, "close")?),
        Wish::More { .. } | Wish::Late { .. } => Ok(String::from_str(alloc, "an arrival")?),
    }
}

// A user's iteration ends, the scenario is halted, or a command is taken.
fn told(
    alloc: Global,
    state: &mut ItersState,
    kind: &str,
    reading: u64,
    given: &str,
) -> Result<String, Fail> {
    let (user, item) = parts(given, " ");
    let act = match kind {
        "return" => Act::Return {
            scenario: 0,
            user: count(user),
            item: number(item),
            outcome: Outcome::Done,
            tally: Tally::empty(alloc),
        },
        "halt" => Act::Stop { scenario: 0 },
        "stop" => Act::Control {
            command: Command::Stop,
        },
        _ => Act::Control {
            command: Command::Pause(true),
        },
    };
    state.apply(&act, reading);
    Ok(String::from_str(alloc, "noted")?)
}

/// Users that share their iterations.
#[test]
fn shares_iterations(rt: HostRuntime) -> Result<(), Fail> {
    check_script::<ItersState, _>(&rt, SHARED)
}

/// Iterations that are left at the end.
#[test]
fn drops_iterations(rt: HostRuntime) -> Result<(), Fail> {
    check_script::<ItersState, _>(&rt, DROPPED)
}

/// Users with iterations of their own.
#[test]
fn counts_iterations_of_each_user(rt: HostRuntime) -> Result<(), Fail> {
    check_script::<ItersState, _>(&rt, PER_USER)
}

/// Users that go on.
#[test]
fn goes_on_until_the_end(rt: HostRuntime) -> Result<(), Fail> {
    check_script::<ItersState, _>(&rt, CONSTANT)
}

/// A commanded stop.
#[test]
fn iterations_wind_down(rt: HostRuntime) -> Result<(), Fail> {
    check_script::<ItersState, _>(&rt, STOPPED)
}
