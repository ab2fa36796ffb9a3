// The fields of shared iterations, iterations per user and constant users.

use crate::tests::options::told;
use crate::tests::table::{Call, add_behind_comma, check, first_word};
use std::alloc::Global;
use std::test::Fail;

// Members of a scenario, with what the document asks for: none but those that are needed, each member, and the ends of
// the ranges.
const READ: &str =
    r#"executor "shared-iterations" => main begin 0 grace 30000000000 script 0 of 2 shared-iterations vus 1 iterations 1 maxDuration 600000000000
executor "shared-iterations", startTime "1m30s", gracefulStop 1500, exec "second", vus 3, iterations 10, maxDuration "1.5h" => main begin 90000000000 grace 1500000000 script 1 of 2 shared-iterations vus 3 iterations 10 maxDuration 5400000000000
executor "shared-iterations", vus 7 => main begin 0 grace 30000000000 script 0 of 2 shared-iterations vus 7 iterations 1 maxDuration 600000000000
executor "shared-iterations", iterations 7 => main begin 0 grace 30000000000 script 0 of 2 shared-iterations vus 1 iterations 7 maxDuration 600000000000
executor "shared-iterations", maxDuration 1500 => main begin 0 grace 30000000000 script 0 of 2 shared-iterations vus 1 iterations 1 maxDuration 1500000000
executor "shared-iterations", vus 1, iterations 1, maxDuration "1ns" => main begin 0 grace 30000000000 script 0 of 2 shared-iterations vus 1 iterations 1 maxDuration 1
executor "shared-iterations", vus 1000, iterations 400000, maxDuration "30d" => main begin 0 grace 30000000000 script 0 of 2 shared-iterations vus 1000 iterations 400000 maxDuration 2592000000000000
executor "per-vu-iterations" => main begin 0 grace 30000000000 script 0 of 2 per-vu-iterations vus 1 iterations 1 maxDuration 600000000000
executor "per-vu-iterations", startTime 7, gracefulStop "0s", exec "default", vus 3, iterations 10, maxDuration "7" => main begin 7000000 grace 0 script 0 of 2 per-vu-iterations vus 3 iterations 10 maxDuration 7000000
executor "per-vu-iterations", vus 7 => main begin 0 grace 30000000000 script 0 of 2 per-vu-iterations vus 7 iterations 1 maxDuration 600000000000
executor "per-vu-iterations", iterations 7 => main begin 0 grace 30000000000 script 0 of 2 per-vu-iterations vus 1 iterations 7 maxDuration 600000000000
executor "per-vu-iterations", vus 1, iterations 1, maxDuration "1ns" => main begin 0 grace 30000000000 script 0 of 2 per-vu-iterations vus 1 iterations 1 maxDuration 1
executor "per-vu-iterations", vus 1, iterations 400000, maxDuration 2592000000 => main begin 0 grace 30000000000 script 0 of 2 per-vu-iterations vus 1 iterations 400000 maxDuration 2592000000000000
executor "per-vu-iterations", vus 1000, iterations 400 => main begin 0 grace 30000000000 script 0 of 2 per-vu-iterations vus 1000 iterations 400 maxDuration 600000000000
executor "per-vu-iterations", vus 3, iterations 133333 => main begin 0 grace 30000000000 script 0 of 2 per-vu-iterations vus 3 iterations 133333 maxDuration 600000000000
executor "constant-vus", duration "1s" => main begin 0 grace 30000000000 script 0 of 2 constant-vus vus 1 duration 1000000000
executor "constant-vus", startTime "30d", gracefulStop 2592000000, exec "second", vus 3, duration "1.5h" => main begin 2592000000000000 grace 2592000000000000 script 1 of 2 constant-vus vus 3 duration 5400000000000
executor "constant-vus", vus 1, duration "1ns" => main begin 0 grace 30000000000 script 0 of 2 constant-vus vus 1 duration 1
executor "constant-vus", vus 1000, duration "30d" => main begin 0 grace 30000000000 script 0 of 2 constant-vus vus 1000 duration 2592000000000000
executor "constant-vus", duration 2592000000 => main begin 0 grace 30000000000 script 0 of 2 constant-vus vus 1 duration 2592000000000000"#;

// Members of a scenario, with the cause for which it is refused: names of executors, members that another executor
// has, one value, and two values of which the second is looked at first.
const REFUSED: &str = r#"executor "shared-iteration" => BadExecutor /options/scenarios/main/executor
executor "shared-iterations-" => BadExecutor /options/scenarios/main/executor
executor "Per-vu-iterations" => BadExecutor /options/scenarios/main/executor
executor "per-VU-iterations" => BadExecutor /options/scenarios/main/executor
executor "constant-vu" => BadExecutor /options/scenarios/main/executor
executor "constant-VUs", duration "1s" => BadExecutor /options/scenarios/main/executor
executor "shared-iterations", duration "1s" => Unknown /options/scenarios/main/duration
executor "shared-iterations", preAllocatedVUs 1 => Unknown /options/scenarios/main/preAllocatedVUs
executor "per-vu-iterations", maxVUs 1 => Unknown /options/scenarios/main/maxVUs
executor "per-vu-iterations", maxduration "1s" => Unknown /options/scenarios/main/maxduration
executor "constant-vus", duration "1s", iterations 1 => Unknown /options/scenarios/main/iterations
executor "constant-vus", duration "1s", maxDuration "1s" => Unknown /options/scenarios/main/maxDuration
executor "constant-arrival-rate", vus 1 => Unknown /options/scenarios/main/vus
executor "constant-arrival-rate", iterations 1 => Unknown /options/scenarios/main/iterations
executor "shared-iterations", vus "1" => WrongKind /options/scenarios/main/vus
executor "shared-iterations", vus null => WrongKind /options/scenarios/main/vus
executor "shared-iterations", vus 0 => Range /options/scenarios/main/vus
executor "shared-iterations", vus 1001 => Range /options/scenarios/main/vus
executor "shared-iterations", vus 18446744073709551615 => Range /options/scenarios/main/vus
executor "shared-iterations", iterations "10" => WrongKind /options/scenarios/main/iterations
executor "shared-iterations", iterations [] => WrongKind /options/scenarios/main/iterations
executor "shared-iterations", iterations 0 => Range /options/scenarios/main/iterations
executor "shared-iterations", iterations 400001 => Range /options/scenarios/main/iterations
executor "shared-iterations", iterations 18446744073709551615 => Range /options/scenarios/main/iterations
executor "shared-iterations", maxDuration true => WrongKind /options/scenarios/main/maxDuration
executor "shared-iterations", maxDuration null => WrongKind /options/scenarios/main/maxDuration
executor "shared-iterations", maxDuration "" => Empty /options/scenarios/main/maxDuration
executor "shared-iterations", maxDuration "abc" => BadDigit /options/scenarios/main/maxDuration
executor "shared-iterations", maxDuration "1x" => BadUnit /options/scenarios/main/maxDuration
executor "shared-iterations", maxDuration "0.1ns" => NotWhole /options/scenarios/main/maxDuration
executor "shared-iterations", maxDuration "30d1ns" => TooLarge /options/scenarios/main/maxDuration
executor "shared-iterations", maxDuration "0s" => Range /options/scenarios/main/maxDuration
executor "shared-iterations", maxDuration 0 => Range /options/scenarios/main/maxDuration
executor "per-vu-iterations", vus true => WrongKind /options/scenarios/main/vus
executor "per-vu-iterations", vus 0 => Range /options/scenarios/main/vus
executor "per-vu-iterations", vus 1001 => Range /options/scenarios/main/vus
executor "per-vu-iterations", iterations {} => WrongKind /options/scenarios/main/iterations
executor "per-vu-iterations", iterations 0 => Range /options/scenarios/main/iterations
executor "per-vu-iterations", iterations 400001 => Range /options/scenarios/main/iterations
executor "per-vu-iterations", vus 2, iterations 200001 => Range /options/scenarios/main/iterations
executor "per-vu-iterations", vus 3, iterations 133334 => Range /options/scenarios/main/iterations
executor "per-vu-iterations", vus 801, iterations 500 => Range /options/scenarios/main/iterations
executor "per-vu-iterations", vus 1000, iterations 401 => Range /options/scenarios/main/iterations
executor "per-vu-iterations", vus 1000, iterations 18446744073709551615 => Range /options/scenarios/main/iterations
executor "per-vu-iterations", maxDuration [] => WrongKind /options/scenarios/main/maxDuration
executor "per-vu-iterations", maxDuration "31d" => TooLarge /options/scenarios/main/maxDuration
executor "per-vu-iterations", maxDuration 0 => Range /options/scenarios/main/maxDuration
executor "constant-vus" => Missing /options/scenarios/main/duration
executor "constant-vus", duration null => WrongKind /options/scenarios/main/duration
executor "constant-vus", duration "1 s" => BadUnit /options/scenarios/main/duration
executor "constant-vus", duration 2592000001 => TooLarge /options/scenarios/main/duration
executor "constant-vus", duration "0s" => Range /options/scenarios/main/duration
executor "constant-vus", duration 0 => Range /options/scenarios/main/duration
executor "constant-vus", duration "1s", vus [] => WrongKind /options/scenarios/main/vus
executor "constant-vus", duration "1s", vus 0 => Range /options/scenarios/main/vus
executor "constant-vus", duration "1s", vus 1001 => Range /options/scenarios/main/vus
executor "shared-iterations", startTime true, env 1 => Unknown /options/scenarios/main/env
executor "per-vu-iterations", vus 0, env 1 => Unknown /options/scenarios/main/env
executor "constant-vus", env 1 => Unknown /options/scenarios/main/env
executor "shared-iterations", vus true, startTime "" => Empty /options/scenarios/main/startTime
executor "per-vu-iterations", vus 0, gracefulStop true => WrongKind /options/scenarios/main/gracefulStop
executor "constant-vus", exec "third" => ScriptUnknown /options/scenarios/main/exec
executor "shared-iterations", iterations true, vus 1001 => Range /options/scenarios/main/vus
executor "shared-iterations", maxDuration 0, vus true => WrongKind /options/scenarios/main/vus
executor "shared-iterations", maxDuration true, iterations 400001 => Range /options/scenarios/main/iterations
executor "shared-iterations", maxDuration "", iterations "1" => WrongKind /options/scenarios/main/iterations
executor "per-vu-iterations", iterations 400001, vus 0 => Range /options/scenarios/main/vus
executor "per-vu-iterations", iterations 400, vus 1001 => Range /options/scenarios/main/vus
executor "per-vu-iterations", maxDuration 0, iterations null => WrongKind /options/scenarios/main/iterations
executor "per-vu-iterations", maxDuration true, iterations 0 => Range /options/scenarios/main/iterations
executor "per-vu-iterations", maxDuration true, vus 1000, iterations 401 => Range /options/scenarios/main/iterations
executor "constant-vus", vus 1001 => Range /options/scenarios/main/vus
executor "constant-vus", duration true, vus "1" => WrongKind /options/scenarios/main/vus
executor "constant-vus", duration 0, vus 0 => Range /options/scenarios/main/vus"#;

// The text of an object of these members.
fn object_text(alloc: Global, members: &str) -> Result<String, Fail> {
    let mut object = String::new(alloc);
    for member in members.split(", ") {
        let (name, value) = first_word(member);
        add_behind_comma(&mut object, format!(in alloc; "\"{name}\":{value}")?)?;
    }
    Ok(format!(in alloc; "{{{object}}}")?)
}

/// The document of a scenario of these members, and what it asks for.
pub struct Listed;

impl Call for Listed {
    fn answer(alloc: Global, given: &str) -> Result<String, Fail> {
        let scenario = object_text(alloc, given)?;
        let options = r#"{"options":{"scenarios":{"main":"#;
        let scripts = r#""scripts":{"default":[],"second":[]}"#;
        told(
            alloc,
            format!(in alloc; "{options}{scenario}}}}},{scripts}}}")?.as_str(),
        )
    }
}

/// Good scenarios.
#[test]
fn executors(rt: HostRuntime) -> Result<(), Fail> {
    check::<Listed, _>(&rt, READ)
}

/// Scenarios that are refused.
#[test]
fn refused_executors(rt: HostRuntime) -> Result<(), Fail> {
    check::<Listed, _>(&rt, REFUSED)
}
