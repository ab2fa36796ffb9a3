// Plans: what a segment owns of a test, and why it has no plan.

use crate::tests::arrivals::next_of;
use crate::tests::table::{Call, add, check, first_word, may_cross, named, number, said, text_of};
use ld_arrival::Ticker;
use ld_options::Options;
use ld_plan::{OwnedPart, Plan, PlanFault, Row};
use ld_segment::{Segment, Sequence};
use std::alloc::Global;
use std::test::Fail;

// Tests by their names: two arrivals in a second, for one user and at most two; ten in a second that begins late, for
// two users and at most five; four in a second for one user; as many as there may be, one more, a million, and more
// than any number tells. Then tests of two scenarios: a thousand users together, and one more; twice 600 users, the
// later ones where the iterations of the others have to have ended, and a nanosecond earlier; and too many arrivals of
// the greater scenario, beside too many users. Then five iterations that two users share, two iterations of each of three
// users, and three constant users.
const TESTS: &str =
    r#"small {"options":{"scenarios":{"main":{"executor":"constant-arrival-rate","rate":2,"timeUnit":"1s","duration":"1s","preAllocatedVUs":1,"maxVUs":2}}},"scripts":{"default":[]}}
late {"options":{"scenarios":{"late":{"executor":"constant-arrival-rate","startTime":"5s","gracefulStop":"10s","rate":10,"timeUnit":"1s","duration":"1s","preAllocatedVUs":2,"maxVUs":5}}},"scripts":{"default":[]}}
lonely {"options":{"scenarios":{"main":{"executor":"constant-arrival-rate","rate":4,"timeUnit":"1s","duration":"1s","preAllocatedVUs":0,"maxVUs":1}}},"scripts":{"default":[]}}
many {"options":{"scenarios":{"main":{"executor":"constant-arrival-rate","rate":400000,"timeUnit":"1s","duration":"1s","preAllocatedVUs":1,"maxVUs":1}}},"scripts":{"default":[]}}
too_many {"options":{"scenarios":{"main":{"executor":"constant-arrival-rate","rate":400001,"timeUnit":"1s","duration":"1s","preAllocatedVUs":1,"maxVUs":1}}},"scripts":{"default":[]}}
million {"options":{"scenarios":{"main":{"executor":"constant-arrival-rate","rate":1000000,"timeUnit":"1s","duration":"1s","preAllocatedVUs":1,"maxVUs":1}}},"scripts":{"default":[]}}
untold {"options":{"scenarios":{"main":{"executor":"constant-arrival-rate","rate":1000000,"timeUnit":"1ns","duration":"720h","preAllocatedVUs":1,"maxVUs":1}}},"scripts":{"default":[]}}
thousand {"options":{"scenarios":{"main":{"executor":"constant-arrival-rate","rate":2,"duration":"1s","preAllocatedVUs":600},"also":{"executor":"constant-arrival-rate","rate":3,"duration":"1s","preAllocatedVUs":1,"maxVUs":400}}},"scripts":{"default":[]}}
crowd {"options":{"scenarios":{"main":{"executor":"constant-arrival-rate","rate":2,"duration":"1s","preAllocatedVUs":600},"also":{"executor":"constant-arrival-rate","rate":3,"duration":"1s","preAllocatedVUs":1,"maxVUs":401}}},"scripts":{"default":[]}}
in_turn {"options":{"scenarios":{"main":{"executor":"constant-arrival-rate","rate":2,"duration":"1s","preAllocatedVUs":600},"next":{"executor":"constant-arrival-rate","startTime":"31s","rate":3,"duration":"1s","preAllocatedVUs":600}}},"scripts":{"default":[]}}
overlap {"options":{"scenarios":{"main":{"executor":"constant-arrival-rate","rate":2,"duration":"1s","preAllocatedVUs":600},"next":{"executor":"constant-arrival-rate","startTime":"30999999999ns","rate":3,"duration":"1s","preAllocatedVUs":600}}},"scripts":{"default":[]}}
greater {"options":{"scenarios":{"next":{"executor":"constant-arrival-rate","rate":400001,"duration":"1s","preAllocatedVUs":600},"main":{"executor":"constant-arrival-rate","rate":2,"duration":"1s","preAllocatedVUs":600}}},"scripts":{"default":[]}}
shared {"options":{"scenarios":{"main":{"executor":"shared-iterations","vus":2,"iterations":5}}},"scripts":{"default":[]}}
each {"options":{"scenarios":{"main":{"executor":"per-vu-iterations","vus":3,"iterations":2,"maxDuration":"1m"}}},"scripts":{"default":[]}}
steady {"options":{"scenarios":{"main":{"executor":"constant-vus","vus":3,"duration":"1s"}}},"scripts":{"default":[]}}"#;

// A test, a segment, a sequence and the journal's entries, with the position, the users, the row of the scenario, and
// the items among the first ten that the plan owns, arrivals with their moments. The pattern of a third and two thirds is
// 1, 0, 1; two users go one to each, so that the items that they share go in turn, while slots go by the pattern.
const OWNED: &str = "\
small 0:1 0,1 1000000 => 0: needs 1 2, begin 0 end 1000000000 hard 31000000000 users 1 2 with 2 items, owns 0 at 0 1 at 500000000
late 0:1/4 0,1/4,1 1000000 => 0: needs 1 1, begin 5000000000 end 6000000000 hard 16000000000 users 1 1 with 2 items, owns 1 at 5100000000 6 at 5600000000
late 1/4:1 0,1/4,1 1000000 => 1: needs 1 4, begin 5000000000 end 6000000000 hard 16000000000 users 1 4 with 8 items, owns 0 at 5000000000 2 at 5200000000 3 at 5300000000 4 at 5400000000 5 at 5500000000 7 at 5700000000 8 at 5800000000 9 at 5900000000
lonely 0:1/4 0,1/4,1 10 => 0: needs 0 0, begin 0 end 1000000000 hard 31000000000 users 0 0 with 0 items, owns
lonely 1/4:1 0,1/4,1 10 => 1: needs 0 1, begin 0 end 1000000000 hard 31000000000 users 0 1 with 4 items, owns 0 at 0 1 at 250000000 2 at 500000000 3 at 750000000
shared 0:1/3 0,1/3,1 1000000 => 0: needs 1 1, begin 0 end 600000000000 hard 630000000000 users 1 1 with 3 items, owns 0 2 4
shared 1/3:1 0,1/3,1 1000000 => 1: needs 1 1, begin 0 end 600000000000 hard 630000000000 users 1 1 with 2 items, owns 1 3
each 0:1/3 0,1/3,1 1000000 => 0: needs 1 1, begin 0 end 60000000000 hard 90000000000 users 1 1 with 2 items, owns 2 3
each 1/3:1 0,1/3,1 1000000 => 1: needs 2 2, begin 0 end 60000000000 hard 90000000000 users 2 2 with 4 items, owns 0 1 4 5
steady 1/3:1 0,1/3,1 10 => 1: needs 2 2, begin 0 end 1000000000 hard 31000000000 users 2 2 with 0 items, owns";

// The same, with the entries, the number of scenarios, the name of the first, how many of its items the plan owns, its
// grace and its sample room; and of what the plan was made of, the numbers of scripts and scenarios, and the sequence.
const KEPT: &str = "\
late 1/4:1 0,1/4,1 1000000 => 1000000 1 late 8 of 10 10000000000 0 1 1 0,1/4,1";

// The same, with what the ticker of the first scenario gives: each owned arrival once, counted from the scenario's
// begin.
const TICKS: &str = "\
late 0:1/4 0,1/4,1 1000000 => 1@100000000 6@600000000 none";

// The same, with why there is no plan: segments that are none of the sequence, and periods that are too large; they
// come before too many arrivals, over the whole test; then too many users of all scenarios at one moment, over the
// whole test; and then a journal that is too small for the owned items.
const REFUSED: &str = "\
small 0:1/2 0,1/2,1 10 => planned
small 0:1/2 0,1/3,1 10 => NotInSequence
small 0:1 0,1/2,1 10 => NotInSequence
million 0:1/2 0,1/100003,1 10 => NotInSequence
million 0:1/100003 0,1/100003,1 10 => PeriodTooLarge(100003)
small 0:1/99991 0,1/99991,1/2,1 10 => PeriodTooLarge(199982)
small 0:1/999999937 0,1/999999937,1/999999929,1/999999893,1 10 => PeriodTooLarge(18446744073709551615)
small 0:1/100000 0,1/100000,1 10 => planned
too_many 0:1 0,1 10 => TooManyArrivals { scenario: 0, count: 400001 }
million 0:1 0,1 1000000 => TooManyArrivals { scenario: 0, count: 1000000 }
million 1/4:1 0,1/4,1 10 => TooManyArrivals { scenario: 0, count: 1000000 }
untold 0:1 0,1 10 => TooManyArrivals { scenario: 0, count: 18446744073709551615 }
many 0:1 0,1 800000 => JournalTooSmall { needed: 800001, limit: 800000 }
many 0:1 0,1 800001 => planned
late 0:1 0,1 20 => JournalTooSmall { needed: 21, limit: 20 }
late 0:1 0,1 21 => planned
late 1/4:1 0,1/4,1 10 => JournalTooSmall { needed: 17, limit: 10 }
late 1/4:1 0,1/4,1 16 => JournalTooSmall { needed: 17, limit: 16 }
late 1/4:1 0,1/4,1 17 => planned
thousand 0:1 0,1 12 => planned
thousand 0:1 0,1 11 => JournalTooSmall { needed: 12, limit: 11 }
crowd 0:1 0,1 10 => TooManyUsers(1001)
crowd 0:1/4 0,1/4,1 12 => TooManyUsers(1001)
in_turn 0:1 0,1 12 => planned
overlap 0:1 0,1 12 => TooManyUsers(1200)
greater 0:1 0,1 10 => TooManyArrivals { scenario: 1, count: 400001 }
shared 0:1 0,1 10 => JournalTooSmall { needed: 11, limit: 10 }
shared 0:1/3 0,1/3,1 10 => planned
each 0:1 0,1 12 => JournalTooSmall { needed: 13, limit: 12 }
steady 0:1 0,1 10 => planned";

// The test of this name.
fn test_named(name: &str) -> &'static str {
    for line in TESTS.lines() {
        let (test, text) = first_word(line);
        if test == name {
            return text;
        }
    }
    ""
}

// The plan of a test, a segment, a sequence and the journal's entries, or why there is none.
fn planned(alloc: Global, line: &str) -> Result<Result<Plan, PlanFault>, Fail> {
    let (test, rest) = first_word(line);
    let (segment, rest) = first_word(rest);
    let (sequence, entries) = first_word(rest);
    let segment = Segment::read(segment.as_bytes())?;
    let sequence = Sequence::read(alloc, sequence.as_bytes())?;
    let filled = Sequence::fill(alloc, &segment, Some(sequence))?;
    let entries = number(entries).clamp(10, 1_000_000) as u32;
    let options = Options::read(alloc, test_named(test).as_bytes())?;
    Ok(Plan::of(alloc, options, segment, filled, entries))
}

// Puts an item behind others, if the plan owns it, and an arrival with its moment.
fn put_owned(alloc: Global, line: &mut String, plan: &Plan, item: u64) -> Result<(), Fail> {
    let _ = plan.scenarios();
    if item < plan.whole_items(0) && plan.owns(0, item) {
        add(line, item_told(alloc, plan, item)?)?;
    }
    Ok(())
}

// An item, and when it is due where it is an arrival.
fn item_told(alloc: Global, plan: &Plan, item: u64) -> Result<String, Fail> {
    let _ = plan.scenarios();
    if item < plan.arrivals(0) {
        let moment = plan.moment(0, item);
        Ok(format!(in alloc; "{item} at {moment}")?)
    } else {
        Ok(format!(in alloc; "{item}")?)
    }
}

// The moments of a row.
fn moments_told(alloc: Global, row: Row) -> Result<String, Fail> {
    let (begin, end, hard) = (row.begin, row.end, row.hard);
    Ok(format!(in alloc; "begin {begin} end {end} hard {hard}")?)
}

// The users and the items of a row.
fn counts_told(alloc: Global, row: Row) -> Result<String, Fail> {
    let (users, max, items) = (row.users, row.max, row.items);
    Ok(format!(in alloc; "users {users} {max} with {items} items, owns")?)
}

// The row of the first scenario.
fn row_of(plan: &Plan) -> Row {
    let _ = plan.scenarios();
    plan.row(0)
}

// The row of the first scenario, as a text.
fn row_told(alloc: Global, plan: &Plan) -> Result<String, Fail> {
    let row = row_of(plan);
    let mut line = moments_told(alloc, row)?;
    add(&mut line, counts_told(alloc, row)?)?;
    Ok(line)
}

struct Owned;

impl Call for Owned {
    fn answer(alloc: Global, given: &str) -> Result<String, Fail> {
        owned_told(alloc, &planned(alloc, given)??)
    }
}

// What a plan owns.
fn owned_told(alloc: Global, plan: &Plan) -> Result<String, Fail> {
    let (position, users) = (plan.position(), plan.users());
    let mut line = format!(in alloc; "{position}: needs {} {},", users.planned, users.limit)?;
    add(&mut line, row_told(alloc, plan)?)?;
    for item in 0..10 {
        put_owned(alloc, &mut line, plan, item)?;
    }
    Ok(line)
}

// What a plan owns of its first scenario.
fn items_told(alloc: Global, plan: &Plan) -> Result<String, Fail> {
    let _ = plan.scenarios();
    let (owned, whole) = (plan.owned(0), plan.whole_items(0));
    let (grace, room) = (plan.grace(0), plan.sample_room(0));
    Ok(format!(in alloc; "{owned} of {whole} {grace} {room}")?)
}

// The entries of a plan, its scenarios, and what it owns of the first.
fn scenario_told(alloc: Global, plan: &Plan) -> Result<String, Fail> {
    let (entries, scenarios) = (plan.entries(), plan.scenarios());
    let name = text_of(plan.name(0).as_slice());
    let mut line = format!(in alloc; "{entries} {scenarios} {name}")?;
    add(&mut line, items_told(alloc, plan)?)?;
    Ok(line)
}

// What a plan was made of.
fn origin_told(alloc: Global, plan: &Plan) -> Result<String, Fail> {
    let options = plan.options();
    let (scripts, scenarios) = (options.scripts.count(), options.scenarios.as_slice().len());
    let mut sequence = Vec::new(alloc);
    plan.sequence().print(&mut sequence)?;
    let sequence = text_of(&sequence);
    Ok(format!(in alloc; "{scripts} {scenarios} {sequence}")?)
}

struct Kept;

impl Call for Kept {
    fn answer(alloc: Global, given: &str) -> Result<String, Fail> {
        kept_told(alloc, &planned(alloc, given)??)
    }
}

// What else a plan tells. It may go to another thread.
fn kept_told(alloc: Global, plan: &Plan) -> Result<String, Fail> {
    may_cross(plan);
    let mut line = scenario_told(alloc, plan)?;
    add(&mut line, origin_told(alloc, plan)?)?;
    Ok(line)
}

struct Ticks;

impl Call for Ticks {
    fn answer(alloc: Global, given: &str) -> Result<String, Fail> {
        ticks_told(alloc, &planned(alloc, given)??)
    }
}

// What the ticker of a plan's first scenario gives.
fn ticks_told(alloc: Global, plan: &Plan) -> Result<String, Fail> {
    let _ = plan.scenarios();
    match plan.owned_part(alloc, 0)? {
        OwnedPart::Rates { mut ticker, .. } => ticker_told(alloc, &mut ticker),
        _ => said(alloc, "no arrivals"),
    }
}

// The first three arrivals that a ticker gives.
fn ticker_told(alloc: Global, ticker: &mut Ticker) -> Result<String, Fail> {
    let mut line = String::new(alloc);
    for _ in 0..3 {
        add(&mut line, next_of(alloc, ticker)?)?;
    }
    Ok(line)
}

struct Refused;

impl Call for Refused {
    fn answer(alloc: Global, given: &str) -> Result<String, Fail> {
        match planned(alloc, given)? {
            Ok(_) => said(alloc, "planned"),
            Err(fault) => named(alloc, fault),
        }
    }
}

/// The parts that plans have of tests. Of five users a quarter and the rest have one and four, and so every fifth item
/// goes to the quarter. A position without a share of the users owns no items.
#[test]
fn owned_parts(rt: HostRuntime) -> Result<(), Fail> {
    check::<Owned, _>(&rt, OWNED)
}

/// What else a plan tells.
#[test]
fn kept_parts(rt: HostRuntime) -> Result<(), Fail> {
    check::<Kept, _>(&rt, KEPT)
}

/// The ticker of a plan.
#[test]
fn ticked_arrivals(rt: HostRuntime) -> Result<(), Fail> {
    check::<Ticks, _>(&rt, TICKS)
}

/// Why tests have no plan.
#[test]
fn refused_plans(rt: HostRuntime) -> Result<(), Fail> {
    check::<Refused, _>(&rt, REFUSED)
}

/// A fault says what is too large.
#[test]
fn displayed_faults(rt: HostRuntime) -> Result<(), Fail> {
    let fault = PlanFault::PeriodTooLarge(100_001);
    let text = format!(in rt.alloc(); "{fault}")?;
    assert_eq!(rt;
        text.as_str(),
        "the pattern repeats only after 100001 indices"
    );
    Ok(())
}
