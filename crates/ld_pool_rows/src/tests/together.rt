// Cores of tests of several scenarios: whose act comes first, how long to wait, commanded stops, and a full history.
// Rows are those of cores. Scenarios are numbered in order of their names, wherever they stand in the test.

use crate::tests::table::check_script;
use ld_core::Core;
use std::test::Fail;

// Where both scenarios are due the lesser one comes first, in each rank. An arrival that was due earlier comes before
// one of a lesser scenario, and a drop before a start where its arrival is of a lesser scenario. At one reading the
// greater scenario lets its user go, the lesser takes a user, the greater counts an arrival late that was due before
// that of the lesser, and then the lesser starts; the greater closes last. The greater one's take comes before the
// lesser one's start, and its drop before the lesser one's close.
const ORDER: &str = "\
4 1 1 0:1 1000000 | early 2 1 1
act 0 => Took(0, 1)
act 0 => Took(1, 2)
act 0 => Run(0, 1, 0, 31000000000)
act 0 => Run(1, 2, 0, 31000000000)
return 400000000 1 2 0 31000000000 => Noted
act 500000000 => Run(1, 2, 1, 31000000000)
act 500000000 => Dropped(0, 1)
act 500000000 => Dropped(1, 2)
return 1000000000 1 2 1 31000000000 => Noted
return 1000000000 0 1 0 31000000000 => Noted
act 1000000000 => Released(0, 1)
act 1000000000 => Released(1, 2)
act 1000000000 => Late(1, 3)
act 1000000000 => Closed(0)
act 1000000000 => Closed(1)
act 1000000000 => Over
2 1 1 0:1 1000000 | early 2 1 1
act 0 => Took(0, 1)
act 0 => Took(1, 2)
act 0 => Run(0, 1, 0, 31000000000)
act 0 => Run(1, 2, 0, 31000000000)
return 400000000 1 2 0 31000000000 => Noted
act 500000000 => Dropped(0, 1)
act 500000000 => Run(1, 2, 1, 31000000000)
2 1 1 0:1 1000000 | early 2 1 1 \"startTime\":\"1s\",
act 0 => Took(1, 1)
act 0 => Run(1, 1, 0, 31000000000)
return 400000000 1 1 0 31000000000 => Noted
act 1000000000 => Released(1, 1)
act 1000000000 => Took(0, 1)
act 1000000000 => Late(1, 1)
act 1000000000 => Run(0, 1, 0, 32000000000)
act 1000000000 => Closed(1)
act 1000000000 => Wait(1500000000)
2 1 1 0:1 1000000 | next 2 1 1 \"startTime\":\"500ms\",
act 0 => Took(0, 1)
act 0 => Run(0, 1, 0, 31000000000)
return 400000000 0 1 0 31000000000 => Noted
act 500000000 => Took(1, 2)
act 500000000 => Run(0, 1, 1, 31000000000)
act 500000000 => Run(1, 2, 0, 31500000000)
return 900000000 0 1 1 31000000000 => Noted
act 1000000000 => Released(0, 1)
act 1000000000 => Dropped(1, 1)
act 1000000000 => Closed(0)
act 1000000000 => Wait(1500000000)";

// How long to wait: until the least of the begins, the ends and the open arrivals of all scenarios, and of what busy
// users play, whichever scenario it is of.
const WAITS: &str = "\
2 1 1 0:1 1000000 \"startTime\":\"2s\", | next 2 1 1 \"startTime\":\"1s\",
act 0 => Wait(1000000000)
2 1 1 0:1 1000000 | next 2 1 1 \"startTime\":\"300ms\",
act 0 => Took(0, 1)
act 0 => Run(0, 1, 0, 31000000000)
act 0 => Wait(300000000)
act 300000000 => Took(1, 2)
act 300000000 => Run(1, 2, 0, 31300000000)
act 300000000 => Wait(500000000)
act 500000000 => Dropped(0, 1)
act 500000000 => Wait(800000000)
act 800000000 => Dropped(1, 1)
act 800000000 => Wait(1000000000)
act 1000000000 => Wait(1300000000)
act 1300000000 => Wait(31000000000)
return 31000000000 0 1 0 31000000000 => Noted
act 31000000000 => Released(0, 1)
act 31000000000 => Closed(0)
act 31000000000 => Wait(31300000000)";

// Behind a commanded stop each scenario is halted when its own grace is over, and a check tells of its own scenario.
// A halt comes before a release. Every other command is denied, and so is a second stop.
const STOPPED: &str = "\
2 2 2 0:1 1000000 | next 2 1 1 \"gracefulStop\":\"1s\",
pause 0 => Denied
act 0 => Took(0, 1)
act 0 => Took(0, 2)
act 0 => Took(1, 3)
act 0 => Run(0, 1, 0, 31000000000)
act 0 => Run(1, 3, 0, 2000000000)
users 0 => Denied
stop 1 => Noted
stop 1 => Denied
check 1 1 => Go
act 1 => Released(0, 2)
act 1 => Wait(1000000001)
act 1000000000 => Wait(1000000001)
check 1000000001 1 => Go
return 1000000001 0 1 0 31000000000 => Noted
act 1000000001 => Stopped(1)
check 1000000001 0 => Go
check 1000000001 1 => Halt
most-users 1000000001 => Denied
act 1000000001 => Released(0, 1)
act 1000000001 => Closed(0)
act 1000000001 => Wait(2000000000)
return 2000000001 1 3 0 2000000000 => Noted
act 2000000001 => Released(1, 3)
act 2000000001 => Closed(1)
act 2000000001 => Over
stop 2000000001 => Denied
pause 2000000001 => Denied
2 1 1 0:1 1000000 \"gracefulStop\":\"1s\", | next 2 1 1
act 0 => Took(0, 1)
act 0 => Took(1, 2)
act 0 => Run(0, 1, 0, 2000000000)
act 0 => Run(1, 2, 0, 31000000000)
stop 1 => Noted
act 1000000001 => Stopped(0)
check 1000000001 0 => Halt
check 1000000001 1 => Go";

// In a history of ten entries the busy users of both scenarios count: their returns have to find room.
const FULL: &str = "\
2 2 2 0:1 10 | next 2 2 2
act 0 => Took(0, 1)
act 0 => Took(0, 2)
act 0 => Took(1, 3)
act 0 => Took(1, 4)
act 0 => Run(0, 1, 0, 31000000000)
act 0 => Run(1, 3, 0, 31000000000)
act 500000000 => Run(0, 2, 1, 31000000000)
act 500000000 => Full(Entries, 12, 10)
stop 500000000 => Full(Entries, 11, 10)
pause 500000000 => Denied
return 600000000 0 1 0 31000000000 => Noted
act 600000000 => Full(Entries, 12, 10)
return 1000000000 1 3 0 31000000000 => Noted
act 1000000000 => Full(Entries, 11, 10)";

/// The order of acts.
#[test]
fn acts_in_order(rt: HostRuntime) -> Result<(), Fail> {
    check_script::<Core, _>(&rt, ORDER)
}

/// How long to wait.
#[test]
fn waits_for_the_least_moment(rt: HostRuntime) -> Result<(), Fail> {
    check_script::<Core, _>(&rt, WAITS)
}

/// Commanded stops.
#[test]
fn winds_down(rt: HostRuntime) -> Result<(), Fail> {
    check_script::<Core, _>(&rt, STOPPED)
}

/// A history of ten entries.
#[test]
fn tells_of_a_full_history(rt: HostRuntime) -> Result<(), Fail> {
    check_script::<Core, _>(&rt, FULL)
}
