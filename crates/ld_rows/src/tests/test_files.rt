// Tests in files: planned, rehearsed, and refused.

use crate::tests::desk::AtADesk;
use crate::tests::table::check;
use std::test::Fail;

// Plans of whole tests and of parts, and rehearsals of parts.
const ANSWERED: &str =
    r#"test three | plan t --list => 0, out "sequence 0,1 position 0\nusers 1 1\nscenario main constant-arrival-rate begin 0 end 1000000000 hard 31000000000 users 1 max 1 items 3\nmoment 0 0\nmoment 1 333333333\nmoment 2 666666666\n", read t
test four | plan t --segment 1/2:1 --sequence 0,1/2,1 => 0, out "sequence 0,1/2,1 position 1\nusers 1 1\nscenario main constant-arrival-rate begin 0 end 1000000000 hard 31000000000 users 1 max 1 items 2\n", read t
test four | rehearse t --segment 1/2 --iteration 100ms --journal j => 0, out "users 1 1\nscenario main planned 2 started 2 done 2 interrupted 0 dropped 0 late 0\n", read t, start j, append j, j is first-half
test four | rehearse t --journal j --segment=1/2:1 --sequence=0,1/2,1 --iteration=100ms --entries=20 => 0, out "users 1 1\nscenario main planned 2 started 2 done 2 interrupted 0 dropped 0 late 0\n", read t, start j, append j, j is second-half
test in-turn | plan t --list => 0, out "sequence 0,1 position 0\nusers 1 2\nscenario first constant-arrival-rate begin 0 end 1000000000 hard 31000000000 users 1 max 2 items 2\nmoment 0 0\nmoment 1 500000000\nscenario second constant-arrival-rate begin 31000000000 end 32000000000 hard 62000000000 users 1 max 2 items 2\nmoment 0 31000000000\nmoment 1 31500000000\n", read t
test in-turn | rehearse t --iteration 1s --journal j => 0, out "users 1 2\nscenario first planned 2 started 2 done 2 interrupted 0 dropped 0 late 0\nscenario second planned 2 started 2 done 2 interrupted 0 dropped 0 late 0\n", read t, start j, append j, j is in-turn"#;

// Documents that are refused, a row for each refusal.
const REFUSED: &str = r#"test { | plan t => 5, err "error 40 NotJson\n", read t
test {"options":{"scenarios":{"main":{"rate":3,"duration":"1s","preAllocatedVUs":1}}},"scripts":{"default":[]}} | rehearse t --iteration 1s --journal j => 5, err "error 41 Missing /options/scenarios/main/executor\n", read t
test {"options":{"scenarios":{"main":{"executor":"constant-arrival-rate","rate":"3","duration":"1s","preAllocatedVUs":1}}},"scripts":{"default":[]}} | plan t => 5, err "error 42 WrongKind /options/scenarios/main/rate\n", read t
test {"options":{"scenarios":{"main":{"executor":"constant-arrival-rate","rate":3,"duration":"1s","preAllocatedVUs":1,"vus":1}}},"scripts":{"default":[]}} | plan t => 5, err "error 43 Unknown /options/scenarios/main/vus\n", read t
test {"options":{"scenarios":{"a/b~c":{}}},"scripts":{"default":[]}} | plan t => 5, err "error 60 BadName /options/scenarios/a~1b~0c\n", read t
test {"options":{"scenarios":{"main":{"executor":"fast"}}},"scripts":{"default":[]}} | plan t => 5, err "error 61 BadExecutor /options/scenarios/main/executor\n", read t
test {"options":{"scenarios":{"main":{"executor":"constant-arrival-rate","rate":0,"duration":"1s","preAllocatedVUs":1}}},"scripts":{"default":[]}} | plan t => 5, err "error 62 Range /options/scenarios/main/rate\n", read t
test {"options":{"scenarios":{"main":{"executor":"constant-arrival-rate","rate":3,"duration":"1s","preAllocatedVUs":3,"maxVUs":2}}},"scripts":{"default":[]}} | plan t => 5, err "error 64 MaxBelowPre /options/scenarios/main/maxVUs\n", read t
test {"options":{"scenarios":{"main":{"executor":"constant-arrival-rate","exec":"third","rate":3,"duration":"1s","preAllocatedVUs":1}}},"scripts":{"default":[]}} | plan t => 5, err "error 65 ScriptUnknown /options/scenarios/main/exec\n", read t
test {"options":{"scenarios":{"main":{"executor":"constant-arrival-rate","rate":3,"duration":"","preAllocatedVUs":1}}},"scripts":{"default":[]}} | plan t => 5, err "error 1 Empty /options/scenarios/main/duration\n", read t
test {"options":{"scenarios":{"main":{"executor":"constant-arrival-rate","rate":3,"duration":"abc","preAllocatedVUs":1}}},"scripts":{"default":[]}} | plan t => 5, err "error 2 BadDigit /options/scenarios/main/duration\n", read t
test {"options":{"scenarios":{"main":{"executor":"constant-arrival-rate","rate":3,"duration":"31d","preAllocatedVUs":1}}},"scripts":{"default":[]}} | plan t => 5, err "error 4 TooLarge /options/scenarios/main/duration\n", read t
test {"options":{"scenarios":{"main":{"executor":"constant-arrival-rate","rate":3,"duration":"1x","preAllocatedVUs":1}}},"scripts":{"default":[]}} | plan t => 5, err "error 5 BadUnit /options/scenarios/main/duration\n", read t
test {"options":{"scenarios":{"main":{"executor":"constant-arrival-rate","rate":3,"duration":"0.1ns","preAllocatedVUs":1}}},"scripts":{"default":[]}} | plan t => 5, err "error 6 NotWhole /options/scenarios/main/duration\n", read t"#;

// Tests that are read and have no plan.
const UNPLANNED: &str =
    r#"test three | plan t --segment 1/3 --sequence 0,1/2,1 => 5, err "error 15 NotInSequence\n", read t
test three | plan t --segment 1/100001 => 5, err "error 16 PeriodTooLarge 100001\n", read t
test {"options":{"scenarios":{"main":{"executor":"constant-arrival-rate","rate":1000000,"duration":"1s","preAllocatedVUs":1}}},"scripts":{"default":[]}} | plan t => 5, err "error 31 TooManyArrivals 0 1000000\n", read t
test {"options":{"scenarios":{"main":{"executor":"constant-arrival-rate","rate":10,"duration":"1s","preAllocatedVUs":1}}},"scripts":{"default":[]}} | plan t --entries 10 => 5, err "error 81 JournalTooSmall 21 10\n", read t
test {"options":{"scenarios":{"b":{"executor":"constant-arrival-rate","rate":1,"duration":"1s","preAllocatedVUs":1,"maxVUs":401},"a":{"executor":"constant-arrival-rate","rate":1,"duration":"1s","preAllocatedVUs":600}}},"scripts":{"default":[]}} | plan t => 5, err "error 80 TooManyUsers 1001\n", read t"#;

// Segments and sequences that are refused before the file is read.
const CUTS: &str = r#"test { | plan t --segment 0:101% => 5, err "error 12 AboveOne 1\n"
test { | rehearse t --sequence 1/2 --iteration 1s --journal j => 5, err "error 14 FewPoints\n"
test { | plan missing --sequence 1/2 --segment 1/0 => 5, err "error 3 ZeroDenominator 1\n""#;

// Files that can't be read or aren't there, the longest that is read, and one that is a byte too long.
const UNREAD: &str = r#"test three shelf 1 | plan t => 3, err "error read\n", read t failed
test three shelf 1 | rehearse t --iteration 1s --journal j => 3, err "error read\n", read t failed
test three | plan missing => 3, err "error read\n", read missing failed
blanks 1048576 | plan t => 5, err "error 40 NotJson\n", read t
blanks 1048577 | plan t => 11, err "error too-long 1\n", read t failed"#;

/// Plans and rehearsals of tests in files.
#[test]
fn answered(rt: HostRuntime) -> Result<(), Fail> {
    check::<AtADesk, _>(&rt, ANSWERED)
}

/// Documents that are refused. Nothing is written.
#[test]
fn refused(rt: HostRuntime) -> Result<(), Fail> {
    check::<AtADesk, _>(&rt, REFUSED)
}

/// Tests that have no plan. Nothing is written.
#[test]
fn unplanned(rt: HostRuntime) -> Result<(), Fail> {
    check::<AtADesk, _>(&rt, UNPLANNED)
}

/// Segments and sequences that are refused before the file is read.
#[test]
fn cuts(rt: HostRuntime) -> Result<(), Fail> {
    check::<AtADesk, _>(&rt, CUTS)
}

/// Files that aren't read, and the longest that is.
#[test]
fn unread(rt: HostRuntime) -> Result<(), Fail> {
    check::<AtADesk, _>(&rt, UNREAD)
}
