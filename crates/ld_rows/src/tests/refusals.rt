// What is refused of tests by options, and a refusal by itself.

use crate::tests::desk::AtADesk;
use crate::tests::report::report_of;
use crate::tests::table::check;
use ld_answer::Refusal;
use std::test::Fail;

// Each number out of its range, the least maximum, too many arrivals, and a journal that is too small for them.
const REFUSED: &str =
    r#"rehearse --rate 0 --unit 1s --duration 1s --pre 1 --max 1 --iteration 1s --journal j => 5, err "error 62 Range /options/scenarios/main/rate\n"
rehearse --rate 1000001 --unit 1s --duration 1s --pre 1 --max 1 --iteration 1s --journal j => 5, err "error 62 Range /options/scenarios/main/rate\n"
rehearse --rate 1 --unit 24h1ns --duration 1s --pre 1 --max 1 --iteration 1s --journal j => 5, err "error 62 Range /options/scenarios/main/timeUnit\n"
rehearse --rate 1 --unit 1s --duration 1s --pre 1001 --max 1001 --iteration 1s --journal j => 5, err "error 62 Range /options/scenarios/main/preAllocatedVUs\n"
rehearse --rate 1 --unit 1s --duration 1s --pre 0 --max 0 --iteration 1s --journal j => 5, err "error 62 Range /options/scenarios/main/maxVUs\n"
rehearse --rate 1 --unit 1s --duration 1s --pre 1000 --max 1001 --iteration 1s --journal j => 5, err "error 62 Range /options/scenarios/main/maxVUs\n"
rehearse --rate 1 --unit 1s --duration 1s --pre 2 --max 1 --iteration 1s --journal j => 5, err "error 64 MaxBelowPre /options/scenarios/main/maxVUs\n"
rehearse --rate 1000000 --unit 1s --duration 1s --pre 1 --max 1 --iteration 1s --journal j => 5, err "error 31 TooManyArrivals 0 1000000\n"
rehearse --rate 400001 --unit 1s --duration 1s --pre 1 --max 1 --iteration 1s --journal j => 5, err "error 31 TooManyArrivals 0 400001\n"
rehearse --rate 10 --unit 1s --duration 1s --pre 1 --max 1 --iteration 1s --journal j --entries 10 => 5, err "error 81 JournalTooSmall 21 10\n"
rehearse --rate 5 --unit 1s --duration 1s --pre 1 --max 1 --iteration 1s --journal j --entries 10 => 5, err "error 81 JournalTooSmall 11 10\n"
rehearse --rate 0 --unit 2d --duration 1s --pre 2 --max 1 --iteration 1s --journal j => 5, err "error 62 Range /options/scenarios/main/rate\n""#;

/// Tests by options that have no plan. No file is started.
#[test]
fn tests_without_a_plan(rt: HostRuntime) -> Result<(), Fail> {
    check::<AtADesk, _>(&rt, REFUSED)
}

/// A refusal tells its status and its line.
#[test]
fn a_refusal_by_itself(rt: HostRuntime) -> Result<(), Fail> {
    let refusal = Refusal::NoSuchPosition(2);
    let line = refusal.line(rt.alloc())?;
    let report = report_of(rt.alloc(), refusal.status(), b"", &line)?;
    assert_eq!(rt; report.as_str(), r#"5, err "error 22 NoSuchPosition 2\n""#);
    Ok(())
}
