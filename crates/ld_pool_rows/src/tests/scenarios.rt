// One scenario at an arrival rate: what it wishes, and what acts do to it.
ghost use Rattle.std.specs.Prelude.{◌≡◌, ◌≤◌};
ghost use Rattle.ld_base.specs.declared.act.Act.TheVariants as acts;
ghost use Rattle.ld_rates.specs.Applies.{MayApplyWished};

use crate::tests::table::{State, check_script, count, number, parts};
use ld_arrival::{Arrivals, Ticker};
use ld_base::{Act, Command, IndexSource, Outcome, Tally, Wish};
use ld_rates::{RatesPart, RatesState};
use ld_stripe::Stripe;
use std::alloc::Global;
use std::test::Fail;

// A second, in nanoseconds.
const SECOND: u64 = 1_000_000_000;

// The second of two arrivals is played by a user that is grown for it; then all are released, and it closes. The first
// row says how many users may be held. Each other row is a call, its reading, of an act whether a user of the pool is
// free and the number of a user that it takes or grows, and what the scenario says. A wish is its name, its user, its
// item or slot, its `until` and the moment at which it is due, each 0 where it has none; the slot of `more` stands where
// others have their user.
const GROWN: &str = "\
2
level => 0
item => Some(0)
act 0 free 1 => take 0 0 0 0
act 0 none 0 => start 1 0 1000000000 0
act 0 free 0 => nothing 0 0 0 0
item => Some(1)
moment 0 => Some(500000000)
moment 500000000 => Some(1000000000)
moment 1000000000 => None
act 500000000 none 2 => more 1 1 1000000000 500000000
act 500000000 free 0 => nothing 0 0 0 0
item => None
return 500000000 2 1 => noted
return 1000000000 1 0 => noted
next 1000000000 2 => release 2 0 0 0
act 1000000000 free 0 => release 1 0 0 0
act 1000000000 free 0 => release 2 0 0 0
closed => false
act 1000000000 free 0 => close 0 0 0 0
closed => true
act 1000000000 free 0 => nothing 0 0 0 0
moment 0 => None";

// Where all users are busy, an arrival is dropped.
const DROPPED: &str = "\
1
act 0 free 1 => take 0 0 0 0
act 0 free 0 => start 1 0 1000000000 0
act 500000000 free 0 => drop 0 1 0 500000000
act 500000000 free 0 => nothing 0 0 0 0";

// Behind the end it is late.
const LATE: &str = "\
1
act 0 free 1 => take 0 0 0 0
act 0 free 0 => start 1 0 1000000000 0
act 1000000000 free 0 => late 0 1 0 500000000
act 1000000000 free 0 => nothing 0 0 0 0";

// Behind a commanded stop no arrival is answered, and an idle user is released. Without grace it may be halted at once.
const STOPPED: &str = "\
1
act 0 free 1 => take 0 0 0 0
pause 0 => noted
level => 0
may-stop 7 => false
stop 7 => noted
level => 1
moment 6 => Some(7)
may-stop 6 => false
may-stop 7 => true
act 7 free 0 => release 1 0 0 0
halt 7 => noted
level => 2
moment 0 => None
act 500000000 free 0 => close 0 0 0 0";

// What a source of two arrivals gives.
const GIVEN: &str = "\
two arrivals
next => Some((0, 0))
next => Some((1, 500000000))
next => None
next => None";

// The ticker of two arrivals in a second.
fn ticker(alloc: Global) -> Result<Ticker, Fail> {
    let arrivals = Arrivals::constant(alloc, 2, SECOND, SECOND)?;
    let stripe = Stripe::of_weights(alloc, &[1])?;
    Ok(Ticker::new(alloc, arrivals, stripe, 0)?)
}

impl State for RatesState {
    // One second from 0 on, without grace, with two arrivals; one user is taken at the begin, and so many may be held.
    fn open(alloc: Global, given: &str) -> Result<RatesState, Fail> {
        let part = RatesPart {
            begin: 0,
            end: SECOND,
            grace: 0,
            pre: 1,
            max: count(given).max(1),
            ticker: ticker(alloc)?,
        };
        Ok(RatesState::new(alloc, part)?)
    }

    fn call(&mut self, alloc: Global, call: &str) -> Result<String, Fail> {
        let (kind, given) = parts(call, " ");
        let (reading, given) = parts(given, " ");
        let reading = number(reading);
        match kind {
            "act" => act(alloc, self, reading, given),
            "next" => wish_text(alloc, self.next_act(reading, true, count(given))),
            "item" => moment_text(alloc, self.open_item()),
            "moment" => moment_text(alloc, self.candidate(reading)),
            "level" => Ok(format!(in alloc; "{}", self.level())?),
            "closed" => flag_text(alloc, self.is_closed()),
            "may-stop" => flag_text(alloc, self.may_stop(reading)),
            "return" => give_back(alloc, self, reading, given),
            _ => noted(alloc, self, kind, reading),
        }
    }
}

// Performs what the scenario wishes.
fn act(alloc: Global, state: &mut RatesState, reading: u64, given: &str) -> Result<String, Fail> {
    let (free, user) = parts(given, " ");
    let wish = state.next_act(reading, matches!(free, "free"), 0);
    perform(state, wish, user_of(user), reading);
    wish_text(alloc, wish)
}

// The number of a user.
fn user_of(given: &str) -> u32
    ensures { result ≤ 1000 }
{
    count(given).min(1000)
}

// A wish.
fn wish_text(alloc: Global, wish: Wish) -> Result<String, Fail> {
    let (name, user, item, until, due) = match wish {
        Wish::Nothing => ("nothing", 0, 0, 0, 0),
        Wish::Release { user } => ("release", user, 0, 0, 0),
        Wish::Take { slot } => ("take", 0, slot as u64, 0, 0),
        Wish::Start {
            user,
            item,
            until,
            due,
        } => ("start", user, item, until, due),
        Wish::More {
            item,
            until,
            due,
            slot,
        } => ("more", slot, item, until, due),
        Wish::Drop { item, due } => ("drop", 0, item, 0, due),
        Wish::Late { item, due } => ("late", 0, item, 0, due),
        Wish::Close => ("close", 0, 0, 0, 0),
    };
    Ok(format!(in alloc; "{name} {user} {item} {until} {due}")?)
}

// Performs a wish; a user that is taken or grown has this number.
fn perform(state: &mut RatesState, wish: Wish, user: u32, reading: u64)
    requires may { MayApplyWished state.old wish }
    requires few { user ≤ 1000 }
{
    let scenario = 0;
    match wish {
        Wish::Nothing => (),
        Wish::Release { user } => state.apply(&Act::Release { scenario, user }, reading),
        Wish::Take { slot } => {
            let take = Act::Take {
                scenario,
                user,
                slot,
            };
            state.apply(&take, reading);
        }
        Wish::Start {
            user,
            item,
            until,
            due: _,
        } => state.apply(&start_of(user, item, until), reading),
        Wish::More { slot, .. } => {
            let grow = Act::Grow {
                scenario,
                user,
                slot,
            };
            state.apply(&grow, reading);
            let wish = state.next_act(reading, false, 0);
            begin(state, wish, reading);
        }
        Wish::Drop { item, due: _ } => state.apply(&Act::Drop { scenario, item }, reading),
        Wish::Late { item, due: _ } => state.apply(&Act::Late { scenario, item }, reading),
        Wish::Close => state.apply(&Act::Close { scenario }, reading),
    }
}

// Starts what the scenario wishes to start.
fn begin(state: &mut RatesState, wish: Wish, reading: u64)
    requires { MayApplyWished state.old wish }
{
    if let Wish::Start {
        user,
        item,
        until,
        ..
    } = wish
    {
        state.apply(&start_of(user, item, until), reading);
    }
}

// The start of an item.
fn start_of(user: u32, item: u64, until: u64) -> Act
    ensures { result ≡ acts.Start 0 user item until }
{
    Act::Start {
        scenario: 0,
        user,
        item,
        until,
    }
}

// A user's iteration ends.
fn give_back(
    alloc: Global,
    state: &mut RatesState,
    reading: u64,
    given: &str,
) -> Result<String, Fail> {
    let (user, item) = parts(given, " ");
    let returned = Act::Return {
        scenario: 0,
        user: user_of(user),
        item: number(item),
        outcome: Outcome::Done,
        tally: Tally::empty(alloc),
    };
    state.apply(&returned, reading);
    Ok(String::from_str(alloc, "noted")?)
}

// The scenario is halted, or a command is taken.
fn noted(alloc: Global, state: &mut RatesState, kind: &str, reading: u64) -> Result<String, Fail> {
    let command = match kind {
        "stop" => Command::Stop,
        _ => Command::Pause(true),
    };
    let act = match kind {
        "halt" => Act::Stop { scenario: 0 },
        _ => Act::Control { command },
    };
    state.apply(&act, reading);
    Ok(String::from_str(alloc, "noted")?)
}

// A moment or an item, if there is one.
fn moment_text(alloc: Global, moment: Option<u64>) -> Result<String, Fail> {
    Ok(format!(in alloc; "{moment:?}")?)
}

// Whether something holds.
fn flag_text(alloc: Global, holds: bool) -> Result<String, Fail> {
    Ok(format!(in alloc; "{holds}")?)
}

impl State for Ticker {
    fn open(alloc: Global, _given: &str) -> Result<Ticker, Fail> {
        ticker(alloc)
    }

    fn call(&mut self, alloc: Global, _call: &str) -> Result<String, Fail> {
        Ok(format!(in alloc; "{:?}", next_of(self))?)
    }
}

// The next pair of a source.
fn next_of<S: IndexSource>(source: &mut S) -> Option<(u64, u64)> {
    source.next()
}

/// A user is grown for an arrival.
#[test]
fn grows_for_an_arrival(rt: HostRuntime) -> Result<(), Fail> {
    check_script::<RatesState, _>(&rt, GROWN)
}

/// An arrival for which no user is idle.
#[test]
fn drops_an_arrival(rt: HostRuntime) -> Result<(), Fail> {
    check_script::<RatesState, _>(&rt, DROPPED)
}

/// An arrival that is answered behind the end.
#[test]
fn counts_an_arrival_late(rt: HostRuntime) -> Result<(), Fail> {
    check_script::<RatesState, _>(&rt, LATE)
}

/// A commanded stop.
#[test]
fn winds_down(rt: HostRuntime) -> Result<(), Fail> {
    check_script::<RatesState, _>(&rt, STOPPED)
}

/// The arrivals of a source.
#[test]
fn gives_arrivals(rt: HostRuntime) -> Result<(), Fail> {
    check_script::<Ticker, _>(&rt, GIVEN)
}
