// Tests of ramping arrivals: planned, rehearsed, and refused.

use crate::tests::desk::AtADesk;
use crate::tests::table::check;
use std::test::Fail;

// Plans of wholes and of halves: an arrival is due at the first whole nanosecond at which as many have come, and none falls
// on the end.
const PLANNED: &str =
    r#"test rising | plan t --list => 0, out "sequence 0,1 position 0\nusers 1 1\nscenario main ramping-arrival-rate begin 0 end 1000000000 hard 31000000000 users 1 max 1 items 4\nmoment 0 447213596\nmoment 1 632455533\nmoment 2 774596670\nmoment 3 894427191\n", read t
test rising | plan t => 0, out "sequence 0,1 position 0\nusers 1 1\nscenario main ramping-arrival-rate begin 0 end 1000000000 hard 31000000000 users 1 max 1 items 4\n", read t
test rising-for-two | plan t --segment 1/2:1 --sequence 0,1/2,1 --list => 0, out "sequence 0,1/2,1 position 1\nusers 1 1\nscenario main ramping-arrival-rate begin 0 end 1000000000 hard 31000000000 users 1 max 1 items 2\nmoment 1 632455533\nmoment 3 894427191\n", read t"#;

// A rehearsal.
const PLAYED: &str =
    r#"test rising | rehearse t --iteration 100ms --journal j => 0, out "users 1 1\nscenario main planned 4 started 4 done 4 interrupted 0 dropped 0 late 0\n", read t, start j, append j, j is rising"#;

// Documents that are refused, and tests that have no plan.
const REFUSED: &str =
    r#"test {"options":{"scenarios":{"main":{"executor":"ramping-arrival-rate","preAllocatedVUs":1,"stages":[]}}},"scripts":{"default":[]}} | plan t => 5, err "error 63 NoStages /options/scenarios/main/stages\n", read t
test {"options":{"scenarios":{"main":{"executor":"ramping-arrival-rate","startRate":1000000,"preAllocatedVUs":1,"stages":[{"duration":"1s","target":1000000}]}}},"scripts":{"default":[]}} | plan t => 5, err "error 31 TooManyArrivals 0 999999\n", read t
test {"options":{"scenarios":{"main":{"executor":"ramping-arrival-rate","preAllocatedVUs":1}}},"scripts":{"default":[]}} | plan t => 5, err "error 41 Missing /options/scenarios/main/stages\n", read t
test {"options":{"scenarios":{"main":{"executor":"ramping-arrival-rate","preAllocatedVUs":1,"stages":[{"duration":"1s","target":1},{"duration":"1s","target":1000001}]}}},"scripts":{"default":[]}} | plan t => 5, err "error 62 Range /options/scenarios/main/stages/1/target\n", read t
test {"options":{"scenarios":{"main":{"executor":"ramping-arrival-rate","preAllocatedVUs":1,"stages":[{"duration":"24h","target":1},{"duration":"696h1ns","target":1}]}}},"scripts":{"default":[]}} | plan t => 5, err "error 62 Range /options/scenarios/main/stages\n", read t"#;

/// Plans of wholes and of halves.
#[test]
fn planned_ramps(rt: HostRuntime) -> Result<(), Fail> {
    check::<AtADesk, _>(&rt, PLANNED)
}

/// A rehearsal, with its journal.
#[test]
fn played_ramps(rt: HostRuntime) -> Result<(), Fail> {
    check::<AtADesk, _>(&rt, PLAYED)
}

/// Refusals. Nothing is written.
#[test]
fn refused_ramps(rt: HostRuntime) -> Result<(), Fail> {
    check::<AtADesk, _>(&rt, REFUSED)
}
