// Rehearsals of tests by options.

use crate::tests::desk::AtADesk;
use crate::tests::table::check;
use std::test::Fail;

// One user and two, an iteration that is interrupted, and a journal without room.
const PLAYED: &str =
    r#"rehearse --rate 2 --unit 1s --duration 1s --pre 1 --max 1 --iteration 1s --journal j => 0, out "users 1 1\nscenario main planned 2 started 1 done 1 interrupted 0 dropped 1 late 0\n", start j, append j, j is one-user
rehearse --rate 2 --unit 1s --duration 1s --pre 1 --max 2 --iteration 1s --journal j => 0, out "users 1 2\nscenario main planned 2 started 2 done 2 interrupted 0 dropped 0 late 0\n", start j, append j, j is two-users
rehearse --rate 1 --unit 1s --duration 1s --pre 1 --max 1 --iteration 40s --journal j => 0, out "users 1 1\nscenario main planned 1 started 1 done 0 interrupted 1 dropped 0 late 0\n", start j, append j, j is interrupted
rehearse --rate 4 --unit 1s --duration 1s --pre 1 --max 1 --iteration 100ms --journal j --entries 10 => 7, out "users 1 1\nscenario main planned 4 started 4 done 4 interrupted 0 dropped 0 late 0\n", err "error full entries 11 10\n", start j, append j, j is full"#;

// Durations in several units, with fractions and without a unit; options in another order, and joined to their values.
const DURATIONS: &str =
    r#"rehearse --rate 1 --unit 1500ms --duration 3s --pre 1 --max 1 --iteration 0.5s --journal j => 0, out "users 1 1\nscenario main planned 2 started 2 done 2 interrupted 0 dropped 0 late 0\n", start j, append j, j is apart
rehearse --journal=j --iteration=500000us --max=01 --pre=1 --duration=0.05m --unit=1s500ms --rate=1 => 0, out "users 1 1\nscenario main planned 2 started 2 done 2 interrupted 0 dropped 0 late 0\n", start j, append j, j is apart
rehearse --rate 2 --unit 1m --duration 60000 --pre 1 --max 1 --iteration 1500 --journal j => 0, out "users 1 1\nscenario main planned 2 started 2 done 2 interrupted 0 dropped 0 late 0\n", start j, append j, j is minute
rehearse --max 1 --pre 1 --rate 2 --entries=1000000 --unit 1000000000ns --duration .5s0.5s --iteration 1000. --journal j => 0, out "users 1 1\nscenario main planned 2 started 1 done 1 interrupted 0 dropped 1 late 0\n", start j, append j, j is one-user"#;

/// Users, their iterations, and a journal without room.
#[test]
fn played(rt: HostRuntime) -> Result<(), Fail> {
    check::<AtADesk, _>(&rt, PLAYED)
}

/// Durations and options, as they may be written.
#[test]
fn durations(rt: HostRuntime) -> Result<(), Fail> {
    check::<AtADesk, _>(&rt, DURATIONS)
}
