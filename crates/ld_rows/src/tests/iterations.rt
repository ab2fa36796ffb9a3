// Tests of shared iterations, iterations of each user, and constant users: planned, rehearsed, and refused.

use crate::tests::desk::AtADesk;
use crate::tests::table::check;
use std::test::Fail;

// Plans of wholes and of halves: users and slots go by the striping of the segment, shared items by that of the users, and
// the items of a user with its slot.
const PLANNED: &str =
    r#"test three-users | plan t --segment 0:1/2 --sequence 0,1/2,1 => 0, out "sequence 0,1/2,1 position 0\nusers 2 2\nscenario main constant-vus begin 0 end 1000000000 hard 31000000000 users 2 max 2 items 0\n", read t
test three-users | plan t --segment 1/2:1 --sequence 0,1/2,1 --list => 0, out "sequence 0,1/2,1 position 1\nusers 1 1\nscenario main constant-vus begin 0 end 1000000000 hard 31000000000 users 1 max 1 items 0\n", read t
test ten-shared | plan t --segment 0:1/2 --sequence 0,1/2,1 => 0, out "sequence 0,1/2,1 position 0\nusers 1 1\nscenario main shared-iterations begin 0 end 600000000000 hard 630000000000 users 1 max 1 items 10\n", read t
test ten-shared | plan t --segment 1/2:1 --sequence 0,1/2,1 => 0, out "sequence 0,1/2,1 position 1\nusers 0 0\nscenario main shared-iterations begin 0 end 600000000000 hard 630000000000 users 0 max 0 items 0\n", read t
test five-shared | plan t --segment 0:1/2 --sequence 0,1/2,1 --list => 0, out "sequence 0,1/2,1 position 0\nusers 1 1\nscenario main shared-iterations begin 0 end 600000000000 hard 630000000000 users 1 max 1 items 3\n", read t
test two-each | plan t => 0, out "sequence 0,1 position 0\nusers 3 3\nscenario main per-vu-iterations begin 0 end 600000000000 hard 630000000000 users 3 max 3 items 6\n", read t
test two-each | plan t --segment 0:1/2 --sequence 0,1/2,1 => 0, out "sequence 0,1/2,1 position 0\nusers 2 2\nscenario main per-vu-iterations begin 0 end 600000000000 hard 630000000000 users 2 max 2 items 4\n", read t
test after | plan t => 0, out "sequence 0,1 position 0\nusers 2 2\nscenario a constant-vus begin 0 end 10000000000 hard 15000000000 users 2 max 2 items 0\nscenario b constant-vus begin 15000000000 end 16000000000 hard 46000000000 users 2 max 2 items 0\n", read t
test beside | plan t => 0, out "sequence 0,1 position 0\nusers 4 4\nscenario a constant-vus begin 0 end 10000000000 hard 15000000000 users 2 max 2 items 0\nscenario b constant-vus begin 14000000000 end 15000000000 hard 45000000000 users 2 max 2 items 0\n", read t
test mixed | plan t --list => 0, out "sequence 0,1 position 0\nusers 3 3\nscenario a constant-arrival-rate begin 0 end 1000000000 hard 31000000000 users 1 max 1 items 2\nmoment 0 0\nmoment 1 500000000\nscenario b shared-iterations begin 0 end 600000000000 hard 630000000000 users 1 max 1 items 2\nscenario c constant-vus begin 0 end 1000000000 hard 31000000000 users 1 max 1 items 0\n", read t"#;

// Rehearsals of them, and of scripts with steps: a rehearsal plays none of these, but the samples that an iteration may
// give have to find room.
const PLAYED: &str =
    r#"test three-each | rehearse t --iteration 2s --journal j => 0, out "users 1 1\nscenario main planned 3 started 2 done 2 interrupted 0 dropped 1 late 0\n", read t, start j, append j, j is three-each
test graceful | rehearse t --iteration 1500ms --journal j => 0, out "users 1 1\nscenario main planned 0 started 1 done 1 interrupted 0 dropped 0 late 0\n", read t, start j, append j, j is graceful
test graceful | rehearse t --iteration 1500000001ns --journal j => 0, out "users 1 1\nscenario main planned 0 started 1 done 0 interrupted 1 dropped 0 late 0\n", read t, start j, append j, j is cut-off
test after | rehearse t --iteration 8s --journal j => 0, out "users 2 2\nscenario a planned 0 started 4 done 2 interrupted 2 dropped 0 late 0\nscenario b planned 0 started 2 done 2 interrupted 0 dropped 0 late 0\n", read t, start j, append j, j is after
test steady | rehearse t --iteration 1s --entries 10 --journal j => 7, out "users 1 1\nscenario main planned 0 started 4 done 4 interrupted 0 dropped 0 late 0\n", err "error full entries 11 10\n", read t, start j, append j, j is steady
test five-shared | rehearse t --iteration 1s --journal j => 0, out "users 2 2\nscenario main planned 5 started 5 done 5 interrupted 0 dropped 0 late 0\n", read t, start j, append j, j is five-shared
test five-shared | rehearse t --iteration 1s --journal j --segment 1/2:1 => 0, out "users 1 1\nscenario main planned 2 started 2 done 2 interrupted 0 dropped 0 late 0\n", read t, start j, append j, j is half-shared
test mixed | rehearse t --iteration 400ms --journal j => 0, out "users 3 3\nscenario a planned 2 started 2 done 2 interrupted 0 dropped 0 late 0\nscenario b planned 2 started 2 done 2 interrupted 0 dropped 0 late 0\nscenario c planned 0 started 3 done 3 interrupted 0 dropped 0 late 0\n", read t, start j, append j, j is mixed
test grouped | rehearse t --iteration 1s --journal j => 0, out "users 1 1\nscenario main planned 0 started 1 done 1 interrupted 0 dropped 0 late 0\n", read t, start j, append j, j is grouped
test counting | rehearse t --iteration 1s --entries 10 --journal j => 7, out "users 1 1\nscenario main planned 0 started 0 done 0 interrupted 0 dropped 0 late 0\n", err "error full samples 11 10\n", read t, start j, append j, j is counting"#;

// Documents that are refused, and tests that have no plan.
const REFUSED: &str =
    r#"test {"options":{"scenarios":{"main":{"executor":"shared-iterations","vus":0}}},"scripts":{"default":[]}} | plan t => 5, err "error 62 Range /options/scenarios/main/vus\n", read t
test {"options":{"scenarios":{"main":{"executor":"per-vu-iterations","vus":2,"iterations":200001}}},"scripts":{"default":[]}} | plan t => 5, err "error 62 Range /options/scenarios/main/iterations\n", read t
test {"options":{"scenarios":{"main":{"executor":"constant-vus"}}},"scripts":{"default":[]}} | plan t => 5, err "error 41 Missing /options/scenarios/main/duration\n", read t
test {"options":{"scenarios":{"a":{"executor":"constant-vus","vus":600,"duration":"1s"},"b":{"executor":"constant-vus","vus":600,"duration":"1s"}}},"scripts":{"default":[]}} | plan t => 5, err "error 80 TooManyUsers 1200\n", read t
test {"options":{"scenarios":{"main":{"executor":"shared-iterations","iterations":5}}},"scripts":{"default":[]}} | plan t --entries 10 => 5, err "error 81 JournalTooSmall 11 10\n", read t"#;

/// Plans of wholes and of halves.
#[test]
fn planned(rt: HostRuntime) -> Result<(), Fail> {
    check::<AtADesk, _>(&rt, PLANNED)
}

/// Rehearsals, with their journals.
#[test]
fn played(rt: HostRuntime) -> Result<(), Fail> {
    check::<AtADesk, _>(&rt, PLAYED)
}

/// Refusals. Nothing is written.
#[test]
fn refused(rt: HostRuntime) -> Result<(), Fail> {
    check::<AtADesk, _>(&rt, REFUSED)
}
