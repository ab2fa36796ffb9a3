// Rehearsals: what one thread plays of a plan in virtual time, and the summary of it.
ghost use Rattle.std.specs.Prelude.{◌≤◌, IfOk};
ghost use Rattle.ld_machine.specs.History.{IsLegal};

use crate::tests::entries::history_text;
use crate::tests::plans::plan_of;
use crate::tests::table::{Call, check, number, parts};
use ld_plan::Plan;
use ld_rehearsal::{FullJournal, RehearsalFault, Rehearsed, rehearse};
use std::alloc::Global;
use std::test::Fail;

// How long iterations last, in nanoseconds, and a plan; then what is played, and where the journal had no room. Of two
// arrivals for one user the second is dropped. With two users at most, a user is made for it. A journal of ten entries
// has room for all but the close. An iteration that would last longer than it may is cut off at its last moment.
const PLAYED: &str = "\
1000000000 2 1 1 0:1 1000000 => 1 take 0 1 0 0, 2 start 0 1 0 0, 3 drop 0 0 1 500000000, 4 return 0 1 0 1000000000, \
5 release 0 1 0 1000000000, 6 close 0 0 0 1000000000
1000000000 2 1 2 0:1 1000000 => 1 take 0 1 0 0, 2 start 0 1 0 0, 3 grow 0 2 1 500000000, 4 start 0 2 1 500000000, \
5 return 0 1 0 1000000000, 6 release 0 1 0 1000000000, 7 return 0 2 1 1500000000, 8 release 0 2 0 1500000000, \
9 close 0 0 0 1500000000
100000000 4 1 1 0:1 10 => 1 take 0 1 0 0, 2 start 0 1 0 0, 3 return 0 1 0 100000000, 4 start 0 1 1 250000000, \
5 return 0 1 1 350000000, 6 start 0 1 2 500000000, 7 return 0 1 2 600000000, 8 start 0 1 3 750000000, \
9 return 0 1 3 850000000, 10 release 0 1 0 1000000000, full Entries 11 10
31000000001 1 1 1 0:1 1000000 => 1 take 0 1 0 0, 2 start 0 1 0 0, 3 interrupted 0 1 0 31000000000, \
4 release 0 1 0 31000000000, 5 close 0 0 0 31000000000
18446744073709551615 1 1 1 0:1 1000000 => 1 take 0 1 0 0, 2 start 0 1 0 0, 3 interrupted 0 1 0 31000000000, \
4 release 0 1 0 31000000000, 5 close 0 0 0 31000000000";

// The same of tests of two scenarios. One that begins where the last iteration of the other has to have ended takes the
// other's users, and none is made. Where they overlap each makes a user of its own. The rooms of both share a journal.
const TOGETHER: &str = "\
1000000000 2 1 2 0:1 1000000 | next 2 2 2 \"startTime\":\"31s\", => 1 take 0 1 0 0, 2 start 0 1 0 0, \
3 take 0 2 1 500000000, 4 start 0 2 1 500000000, 5 return 0 1 0 1000000000, 6 release 0 1 0 1000000000, \
7 return 0 2 1 1500000000, 8 release 0 2 0 1500000000, 9 close 0 0 0 1500000000, 10 take 1 1 0 31000000000, \
11 take 1 2 1 31000000000, 12 start 1 1 0 31000000000, 13 start 1 2 1 31500000000, 14 return 1 1 0 32000000000, \
15 release 1 1 0 32000000000, 16 return 1 2 1 32500000000, 17 release 1 2 0 32500000000, 18 close 1 0 0 32500000000
1000000000 2 1 2 0:1 1000000 | next 2 1 2 \"startTime\":\"250ms\", => 1 take 0 1 0 0, 2 start 0 1 0 0, \
3 take 1 2 0 250000000, 4 start 1 2 0 250000000, 5 grow 0 3 1 500000000, 6 start 0 3 1 500000000, \
7 grow 1 4 1 750000000, 8 start 1 4 1 750000000, 9 return 0 1 0 1000000000, 10 release 0 1 0 1000000000, \
11 return 1 2 0 1250000000, 12 release 1 2 0 1250000000, 13 return 0 3 1 1500000000, 14 release 0 3 0 1500000000, \
15 close 0 0 0 1500000000, 16 return 1 4 1 1750000000, 17 release 1 4 0 1750000000, 18 close 1 0 0 1750000000
1000000000 2 2 2 0:1 10 | next 2 2 2 => 1 take 0 1 0 0, 2 take 0 2 1 0, 3 take 1 3 0 0, 4 take 1 4 1 0, \
5 start 0 1 0 0, 6 start 1 3 0 0, 7 start 0 2 1 500000000, 8 return 0 1 0 1000000000, 9 return 1 3 0 1000000000, \
10 return 0 2 1 1500000000, full Entries 12 10";

struct Rehearsal;

impl Call for Rehearsal {
    fn answer(alloc: Global, given: &str) -> Result<String, Fail> {
        told(alloc, &played(alloc, given)?)
    }
}

// What was rehearsed.
fn told(alloc: Global, played: &Rehearsed) -> Result<String, Fail> {
    let mut said = history_text(alloc, &played.history)?;
    if let Some(full) = played.full {
        said.push_str(full_text(alloc, full)?.as_str())?;
    }
    Ok(said)
}

/// What is played with iterations of the given length of the plan that the other words tell.
pub fn played(alloc: Global, given: &str) -> Result<Rehearsed, Fail>
    ensures { IfOk result (λ played. IsLegal played.plan.plan played.history.entries) }
{
    let (length, words) = parts(given, " ");
    let plan = plan_of(alloc, words)?;
    Ok(played_of(alloc, plan, number(length).max(1))?)
}

// What is played of a plan.
fn played_of(alloc: Global, plan: Plan, length: u64) -> Result<Rehearsed, RehearsalFault>
    requires { 1 ≤ length }
    ensures { IfOk result (λ played. IsLegal played.plan.plan played.history.entries) }
{
    let played = rehearse(alloc, plan, length)?;
    Ok(played)
}

// Which limit was met, what was needed, and the limit.
fn full_text(alloc: Global, full: FullJournal) -> Result<String, Fail> {
    let FullJournal {
        room,
        needed,
        limit,
    } = full;
    Ok(format!(in alloc; ", full {room:?} {needed} {limit}")?)
}

/// Users, their iterations, and a journal without room.
#[test]
fn rehearsals(rt: HostRuntime) -> Result<(), Fail> {
    check::<Rehearsal, _>(&rt, PLAYED)
}

/// The same of tests of two scenarios.
#[test]
fn rehearsals_together(rt: HostRuntime) -> Result<(), Fail> {
    check::<Rehearsal, _>(&rt, TOGETHER)
}
