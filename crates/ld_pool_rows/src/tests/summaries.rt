// Summaries of runs, and texts of plans.
ghost use Rattle.ld_machine.specs.History.{IsLegal};

use crate::tests::plans::plan_of;
use crate::tests::rehearsals::played;
use crate::tests::table::{Call, check, parts, shown};
use ld_base::History;
use ld_plan::Plan;
use ld_summary::{SummaryFault, plan_text, summary_text};
use std::alloc::Global;
use std::slice;
use std::test::Fail;

// How long iterations last, in nanoseconds, and a plan; then the summary of what is played. Three quarters of a test
// own four of its five users, and eight of its ten arrivals.
const SUMMARIES: &str = "\
1000000000 2 1 1 0:1 1000000 => users 1 1/scenario main planned 2 started 1 done 1 interrupted 0 dropped 1 late 0/
1000000000 2 1 2 0:1 1000000 => users 1 2/scenario main planned 2 started 2 done 2 interrupted 0 dropped 0 late 0/
40000000000 1 1 1 0:1 1000000 => users 1 1/scenario main planned 1 started 1 done 0 interrupted 1 dropped 0 late 0/
1 10 2 5 1/4:1 1000000 => users 1 4/scenario main planned 8 started 8 done 8 interrupted 0 dropped 0 late 0/
1000000000 2 1 2 0:1 1000000 | early 3 1 1 => users 2 3/\
scenario early planned 3 started 1 done 1 interrupted 0 dropped 2 late 0/\
scenario main planned 2 started 2 done 2 interrupted 0 dropped 0 late 0/";

// Whether the items of a plan are listed, and the plan; then what is printed of it: whole tests and two halves of one.
// Of tests of two scenarios the users are those that both need together at some moment: where the later one begins when
// the iterations of the other have to have ended, those of one of them; a nanosecond earlier, the sum. Most users may
// be needed at another moment than most planned ones.
const PLANS: &str = "\
listed 3 1 1 0:1 1000000 => sequence 0,1 position 0/users 1 1/scenario main constant-arrival-rate \
begin 0 end 1000000000 hard 31000000000 users 1 max 1 items 3/moment 0 0/moment 1 333333333/moment 2 666666666/
short 3 1 1 0:1 1000000 => sequence 0,1 position 0/users 1 1/scenario main constant-arrival-rate \
begin 0 end 1000000000 hard 31000000000 users 1 max 1 items 3/
listed 4 2 2 0:1/2 1000000 => sequence 0,1/2,1 position 0/users 1 1/scenario main constant-arrival-rate \
begin 0 end 1000000000 hard 31000000000 users 1 max 1 items 2/moment 0 0/moment 2 500000000/
listed 4 2 2 1/2:1 1000000 => sequence 0,1/2,1 position 1/users 1 1/scenario main constant-arrival-rate \
begin 0 end 1000000000 hard 31000000000 users 1 max 1 items 2/moment 1 250000000/moment 3 750000000/
short 10 2 5 0:1 1000000 \"startTime\":\"5s\",\"gracefulStop\":\"10s\", => \
sequence 0,1 position 0/users 2 5/scenario main constant-arrival-rate \
begin 5000000000 end 6000000000 hard 16000000000 users 2 max 5 items 10/
short 2 1 2 0:1 1000000 | next 3 2 2 \"startTime\":\"31s\", => sequence 0,1 position 0/users 2 2/\
scenario main constant-arrival-rate begin 0 end 1000000000 hard 31000000000 users 1 max 2 items 2/\
scenario next constant-arrival-rate begin 31000000000 end 32000000000 hard 62000000000 users 2 max 2 items 3/
short 2 1 2 0:1 1000000 | next 3 2 2 \"startTime\":\"30999999999ns\", => sequence 0,1 position 0/users 3 4/\
scenario main constant-arrival-rate begin 0 end 1000000000 hard 31000000000 users 1 max 2 items 2/\
scenario next constant-arrival-rate begin 30999999999 end 31999999999 hard 61999999999 users 2 max 2 items 3/
listed 2 1 2 1/2:1 1000000 | next 3 2 2 \"startTime\":\"30999999999ns\", => sequence 0,1/2,1 position 1/users 1 2/\
scenario main constant-arrival-rate begin 0 end 1000000000 hard 31000000000 users 0 max 1 items 1/\
moment 1 500000000/\
scenario next constant-arrival-rate begin 30999999999 end 31999999999 hard 61999999999 users 1 max 1 items 1/\
moment 1 31333333332/
short 2 3 3 0:1 1000000 | early 2 1 5 \"startTime\":\"31s\", => sequence 0,1 position 0/users 3 5/\
scenario early constant-arrival-rate begin 31000000000 end 32000000000 hard 62000000000 users 1 max 5 items 2/\
scenario main constant-arrival-rate begin 0 end 1000000000 hard 31000000000 users 3 max 3 items 2/";

struct Summary;

impl Call for Summary {
    fn answer(alloc: Global, given: &str) -> Result<String, Fail> {
        let played = played(alloc, given)?;
        summary_shown(alloc, &played.plan, &played.history)
    }
}

// The summary of a history, as it is shown.
fn summary_shown(alloc: Global, plan: &Plan, history: &History) -> Result<String, Fail>
    requires { IsLegal plan.now.plan history.now.entries }
{
    let text = summary_of(alloc, plan, history)?;
    shown(alloc, &text)
}

// The summary of one history.
fn summary_of(alloc: Global, plan: &Plan, history: &History) -> Result<Vec<u8>, SummaryFault>
    requires { IsLegal plan.now.plan history.now.entries }
{
    let mut text = Vec::new(alloc);
    summary_text(slice::from_ref(plan), slice::from_ref(history), &mut text)?;
    Ok(text)
}

struct Printed;

impl Call for Printed {
    fn answer(alloc: Global, given: &str) -> Result<String, Fail> {
        let (kind, words) = parts(given, " ");
        let plan = plan_of(alloc, words)?;
        plan_shown(alloc, &plan, matches!(kind, "listed"))
    }
}

// The text of a plan, as it is shown.
fn plan_shown(alloc: Global, plan: &Plan, listed: bool) -> Result<String, Fail> {
    let text = text_of(alloc, plan, listed)?;
    shown(alloc, &text)
}

// The text of a plan.
fn text_of(alloc: Global, plan: &Plan, listed: bool) -> Result<Vec<u8>, SummaryFault> {
    let mut text = Vec::new(alloc);
    plan_text(plan, listed, &mut text)?;
    Ok(text)
}

/// What became of the items of a plan.
#[test]
fn summaries(rt: HostRuntime) -> Result<(), Fail> {
    check::<Summary, _>(&rt, SUMMARIES)
}

/// Plans, with their items and without.
#[test]
fn plans(rt: HostRuntime) -> Result<(), Fail> {
    check::<Printed, _>(&rt, PLANS)
}
