// The fields of ramping arrivals, and their stages.

use crate::tests::executors::Listed;
use crate::tests::table::check;
use std::test::Fail;

// Members of a scenario, with what the document asks for: none but those that are needed, each member, the ends of the
// ranges, stages that last no time or have equal targets, and a hundred stages.
const READ: &str =
    r#"executor "ramping-arrival-rate", preAllocatedVUs 1, stages [{"duration":"1s","target":10}] => main begin 0 grace 30000000000 script 0 of 2 ramping-arrival-rate start 0 unit 1000000000 1000000000:10 users 1 1
executor "ramping-arrival-rate", startRate 1000000, timeUnit "1d", preAllocatedVUs 0, maxVUs 1000, stages [{"duration":"29d","target":1000000},{"duration":"1d","target":0}] => main begin 0 grace 30000000000 script 0 of 2 ramping-arrival-rate start 1000000 unit 86400000000000 2505600000000000:1000000 86400000000000:0 users 0 1000
executor "ramping-arrival-rate", startTime "1s", gracefulStop "2s", startRate 3, timeUnit "1m", preAllocatedVUs 4, maxVUs 5, stages [{"duration":"1ns","target":3},{"duration":0,"target":7}] => main begin 1000000000 grace 2000000000 script 0 of 2 ramping-arrival-rate start 3 unit 60000000000 1:3 0:7 users 4 5"#;

// Members of a scenario, with the cause for which it is refused: names of executors, the list of stages, its elements, all
// of them together, other fields, and two values of which one is looked at first.
const REFUSED: &str =
    r#"executor "ramping-arrival-rates", stages [] => BadExecutor /options/scenarios/main/executor
executor "ramping-arrival-rate", preAllocatedVUs 1 => Missing /options/scenarios/main/stages
executor "ramping-arrival-rate", preAllocatedVUs 1, stages null => WrongKind /options/scenarios/main/stages
executor "ramping-arrival-rate", preAllocatedVUs 1, stages {} => WrongKind /options/scenarios/main/stages
executor "ramping-arrival-rate", preAllocatedVUs 1, stages [] => NoStages /options/scenarios/main/stages
executor "ramping-arrival-rate", preAllocatedVUs 1, stages [{"duration":"1ms","target":1},{"duration":"1ms","target":1},{"duration":"1ms","target":1},{"duration":"1ms","target":1},{"duration":"1ms","target":1},{"duration":"1ms","target":1},{"duration":"1ms","target":1},{"duration":"1ms","target":1},{"duration":"1ms","target":1},{"duration":"1ms","target":1},{"duration":"1ms","target":1},{"duration":"1ms","target":1},{"duration":"1ms","target":1},{"duration":"1ms","target":1},{"duration":"1ms","target":1},{"duration":"1ms","target":1},{"duration":"1ms","target":1},{"duration":"1ms","target":1},{"duration":"1ms","target":1},{"duration":"1ms","target":1},{"duration":"1ms","target":1},{"duration":"1ms","target":1},{"duration":"1ms","target":1},{"duration":"1ms","target":1},{"duration":"1ms","target":1},{"duration":"1ms","target":1},{"duration":"1ms","target":1},{"duration":"1ms","target":1},{"duration":"1ms","target":1},{"duration":"1ms","target":1},{"duration":"1ms","target":1},{"duration":"1ms","target":1},{"duration":"1ms","target":1},{"duration":"1ms","target":1},{"duration":"1ms","target":1},{"duration":"1ms","target":1},{"duration":"1ms","target":1},{"duration":"1ms","target":1},{"duration":"1ms","target":1},{"duration":"1ms","target":1},{"duration":"1ms","target":1},{"duration":"1ms","target":1},{"duration":"1ms","target":1},{"duration":"1ms","target":1},{"duration":"1ms","target":1},{"duration":"1ms","target":1},{"duration":"1ms","target":1},{"duration":"1ms","target":1},{"duration":"1ms","target":1},{"duration":"1ms","target":1},{"duration":"1ms","target":1},{"duration":"1ms","target":1},{"duration":"1ms","target":1},{"duration":"1ms","target":1},{"duration":"1ms","target":1},{"duration":"1ms","target":1},{"duration":"1ms","target":1},{"duration":"1ms","target":1},{"duration":"1ms","target":1},{"duration":"1ms","target":1},{"duration":"1ms","target":1},{"duration":"1ms","target":1},{"duration":"1ms","target":1},{"duration":"1ms","target":1},{"duration":"1ms","target":1},{"duration":"1ms","target":1},{"duration":"1ms","target":1},{"duration":"1ms","target":1},{"duration":"1ms","target":1},{"duration":"1ms","target":1},{"duration":"1ms","target":1},{"duration":"1ms","target":1},{"duration":"1ms","target":1},{"duration":"1ms","target":1},{"duration":"1ms","target":1},{"duration":"1ms","target":1},{"duration":"1ms","target":1},{"duration":"1ms","target":1},{"duration":"1ms","target":1},{"duration":"1ms","target":1},{"duration":"1ms","target":1},{"duration":"1ms","target":1},{"duration":"1ms","target":1},{"duration":"1ms","target":1},{"duration":"1ms","target":1},{"duration":"1ms","target":1},{"duration":"1ms","target":1},{"duration":"1ms","target":1},{"duration":"1ms","target":1},{"duration":"1ms","target":1},{"duration":"1ms","target":1},{"duration":"1ms","target":1},{"duration":"1ms","target":1},{"duration":"1ms","target":1},{"duration":"1ms","target":1},{"duration":"1ms","target":1},{"duration":"1ms","target":1},{"duration":"1ms","target":1},{"duration":"1ms","target":1},{"duration":"1ms","target":1},{"duration":"1ms","target":1}] => Range /options/scenarios/main/stages
executor "ramping-arrival-rate", preAllocatedVUs 1, stages [1,1,1,1,1,1,1,1,1,1,1,1,1,1,1,1,1,1,1,1,1,1,1,1,1,1,1,1,1,1,1,1,1,1,1,1,1,1,1,1,1,1,1,1,1,1,1,1,1,1,1,1,1,1,1,1,1,1,1,1,1,1,1,1,1,1,1,1,1,1,1,1,1,1,1,1,1,1,1,1,1,1,1,1,1,1,1,1,1,1,1,1,1,1,1,1,1,1,1,1,1] => Range /options/scenarios/main/stages
executor "ramping-arrival-rate", preAllocatedVUs 1, stages [1] => WrongKind /options/scenarios/main/stages/0
executor "ramping-arrival-rate", preAllocatedVUs 1, stages [{}] => Missing /options/scenarios/main/stages/0/duration
executor "ramping-arrival-rate", preAllocatedVUs 1, stages [{"duration":"1s"}] => Missing /options/scenarios/main/stages/0/target
executor "ramping-arrival-rate", preAllocatedVUs 1, stages [{"target":1}] => Missing /options/scenarios/main/stages/0/duration
executor "ramping-arrival-rate", preAllocatedVUs 1, stages [{"duration":"1s","target":1,"name":1}] => Unknown /options/scenarios/main/stages/0/name
executor "ramping-arrival-rate", preAllocatedVUs 1, stages [{"duration":"1s","target":1},{"duration":"1s","Target":1}] => Unknown /options/scenarios/main/stages/1/Target
executor "ramping-arrival-rate", preAllocatedVUs 1, stages [{"duration":true,"target":1}] => WrongKind /options/scenarios/main/stages/0/duration
executor "ramping-arrival-rate", preAllocatedVUs 1, stages [{"duration":"","target":1}] => Empty /options/scenarios/main/stages/0/duration
executor "ramping-arrival-rate", preAllocatedVUs 1, stages [{"duration":"31d","target":1}] => TooLarge /options/scenarios/main/stages/0/duration
executor "ramping-arrival-rate", preAllocatedVUs 1, stages [{"duration":"1s","target":"1"}] => WrongKind /options/scenarios/main/stages/0/target
executor "ramping-arrival-rate", preAllocatedVUs 1, stages [{"duration":"1s","target":1000001}] => Range /options/scenarios/main/stages/0/target
executor "ramping-arrival-rate", preAllocatedVUs 1, stages [{"duration":"1s","target":1000000},{"duration":"1s","target":1000001}] => Range /options/scenarios/main/stages/1/target
executor "ramping-arrival-rate", preAllocatedVUs 1, stages [{"duration":"30d","target":1},{"duration":"1ns","target":1}] => Range /options/scenarios/main/stages
executor "ramping-arrival-rate", preAllocatedVUs 1, stages [{"duration":"1ns","target":1},{"duration":"30d","target":1}] => Range /options/scenarios/main/stages
executor "ramping-arrival-rate", preAllocatedVUs 1, stages [{"duration":"30d","target":1},{"duration":"30d","target":1},{"duration":"30d","target":1000001}] => Range /options/scenarios/main/stages/2/target
executor "ramping-arrival-rate", preAllocatedVUs 1, stages [{"duration":"1s","target":1}], duration "1s" => Unknown /options/scenarios/main/duration
executor "ramping-arrival-rate", preAllocatedVUs 1, stages [{"duration":"1s","target":1}], vus 1 => Unknown /options/scenarios/main/vus
executor "ramping-arrival-rate", preAllocatedVUs 1, stages [{"duration":"1s","target":1}], rate 1 => Unknown /options/scenarios/main/rate
executor "ramping-arrival-rate", preAllocatedVUs 1, stages [{"duration":"1s","target":1}], startVUs 1 => Unknown /options/scenarios/main/startVUs
executor "ramping-arrival-rate", preAllocatedVUs 1, stages [{"duration":"1s","target":1}], gracefulRampDown 1 => Unknown /options/scenarios/main/gracefulRampDown
executor "ramping-arrival-rate", preAllocatedVUs 1, startRate 1000001, stages [] => Range /options/scenarios/main/startRate
executor "ramping-arrival-rate", preAllocatedVUs 1, startRate 1000001, timeUnit true => Range /options/scenarios/main/startRate
executor "ramping-arrival-rate", preAllocatedVUs 1, timeUnit 0, stages [] => Range /options/scenarios/main/timeUnit
executor "ramping-arrival-rate", preAllocatedVUs 1, timeUnit "1d1ns", stages [] => Range /options/scenarios/main/timeUnit
executor "ramping-arrival-rate", stages [] => Missing /options/scenarios/main/preAllocatedVUs
executor "ramping-arrival-rate", preAllocatedVUs 1001, stages [] => Range /options/scenarios/main/preAllocatedVUs
executor "ramping-arrival-rate", preAllocatedVUs 2, maxVUs 1, stages [] => MaxBelowPre /options/scenarios/main/maxVUs
executor "ramping-arrival-rate", preAllocatedVUs 0, stages [] => Range /options/scenarios/main/maxVUs"#;

/// Good ramps.
#[test]
fn ramps(rt: HostRuntime) -> Result<(), Fail> {
    check::<Listed, _>(&rt, READ)
}

/// Ramps that are refused.
#[test]
fn refused_ramps(rt: HostRuntime) -> Result<(), Fail> {
    check::<Listed, _>(&rt, REFUSED)
}
