// The text of a plan.
ghost use Rattle.std.specs.Prelude.{◌≡◌, ◌<◌, ◌++◌, IsSomeAnd, OnErr, OnOk, Some, length, slice_get};
ghost use Rattle.std.specs.List.{concat};
ghost use Rattle.ld_line.specs.Line.{Grows};
ghost use Rattle.ld_options.specs.declared.scenario.Scenario.{Scenario};
ghost use Rattle.ld_plan.specs.Plan.{IsMade};
ghost use Rattle.ld_summary.specs.PlanText.{all_scenario_lines, arrival_lines, moment_line, plan_text, scenario_line, scenario_lines, sequence_line, users_line};

use crate::fault::SummaryFault;
use ld_base::BaseFault;
use ld_line::{Word, put_line};
use ld_options::Scenario;
use ld_plan::{Plan, Row};

/// Appends what a plan says: its sequence and position, how many users it needs, and for each
/// scenario its name, its executor and what the instance owns of it in numbers. Where `listed`, the
/// arrivals that the instance owns of the scenario follow in rising order, each with the moment at which
/// it is due. Moments are in nanoseconds from the run's start.
///
/// Fails where the allocator gives no memory for the text; `into` is then as before.
pub fn plan_text(plan: &Plan, listed: bool, into: &mut Vec<u8>) -> Result<(), SummaryFault>
    ensures ok { OnOk result (into.new.items ≡ into.old.items ++ plan_text plan.now listed) }
    ensures err { OnErr result (into.new.items ≡ into.old.items) }
{
    let length = into.len();
    match put_plan(plan, listed, into) {
        Ok(()) => Ok(()),
        Err(fault) => {
            into.truncate(length);
            Err(SummaryFault::from(fault))
        }
    }
}

// Appends all lines.
fn put_plan(plan: &Plan, listed: bool, into: &mut Vec<u8>) -> Result<(), BaseFault>
    ensures ok { OnOk result (into.new.items ≡ into.old.items ++ plan_text plan.now listed) }
    ensures err { OnErr result (Grows into.old.items into.new.items) }
{
    put_sequence(plan, into)?;
    put_users(plan, into)?;
    put_scenarios(plan, listed, into)
}

// Appends the line of the sequence and the position.
fn put_sequence(plan: &Plan, into: &mut Vec<u8>) -> Result<(), BaseFault>
    ensures ok { OnOk result (into.new.items ≡ into.old.items ++ sequence_line plan.now) }
    ensures err { OnErr result (Grows into.old.items into.new.items) }
{
    into.extend_from_slice(b"sequence ")?;
    let Ok(()) = plan.sequence().print(into) else {
        return Err(BaseFault::Memory);
    };
    into.extend_from_slice(b" ")?;
    put_line(
        into,
        &[
            Word::Text(b"position"),
            Word::Number(plan.position() as u64),
        ],
    )
}

// Appends the line of the users.
fn put_users(plan: &Plan, into: &mut Vec<u8>) -> Result<(), BaseFault>
    ensures ok { OnOk result (into.new.items ≡ into.old.items ++ users_line plan.now) }
    ensures err { OnErr result (Grows into.old.items into.new.items) }
{
    let users = plan.users();
    put_line(
        into,
        &[
            Word::Text(b"users"),
            Word::Number(users.planned as u64),
            Word::Number(users.limit as u64),
        ],
    )
}

// Appends the lines of all scenarios, in order.
fn put_scenarios(plan: &Plan, listed: bool, into: &mut Vec<u8>) -> Result<(), BaseFault>
    ensures ok { OnOk result (into.new.items ≡ into.old.items ++ concat (all_scenario_lines listed plan.now)) }
    ensures err { OnErr result (Grows into.old.items into.new.items) }
{
    let scenarios = plan.options().scenarios.as_slice();
    for number in 0..plan.scenarios() {
        put_scenario(plan, number, &scenarios[number as usize], listed, into)?;
    }
    Ok(())
}

// Appends the lines of the scenario of a number.
fn put_scenario(
    plan: &Plan,
    number: u16,
    scenario: &Scenario,
    listed: bool,
    into: &mut Vec<u8>,
) -> Result<(), BaseFault>
    requires made { IsMade plan.now }
    requires inside { number < length plan.now.plan.parts }
    requires asked { slice_get plan.now.options.scenarios number ≡ Some scenario.now }
    ensures ok { OnOk result (IsSomeAnd (slice_get plan.now.plan.parts number)
        (λ part. into.new.items ≡ into.old.items ++ concat (scenario_lines listed (scenario.now, part)))) }
    ensures err { OnErr result (Grows into.old.items into.new.items) }
{
    put_row(scenario, plan.row(number), into)?;
    if listed {
        put_arrivals(plan, number, into)
    } else {
        Ok(())
    }
}

// Appends the line of a scenario with these numbers.
fn put_row(scenario: &Scenario, row: Row, into: &mut Vec<u8>) -> Result<(), BaseFault>
    ensures ok { OnOk result (into.new.items ≡ into.old.items ++ scenario_line scenario.now row) }
    ensures err { OnErr result (Grows into.old.items into.new.items) }
{
    put_line(
        into,
        &[
            Word::Text(b"scenario"),
            Word::Text(scenario.name.as_slice()),
            Word::Text(scenario.executor.name().as_bytes()),
            Word::Text(b"begin"),
            Word::Number(row.begin),
            Word::Text(b"end"),
            Word::Number(row.end),
            Word::Text(b"hard"),
            Word::Number(row.hard),
            Word::Text(b"users"),
            Word::Number(row.users as u64),
            Word::Text(b"max"),
            Word::Number(row.max as u64),
            Word::Text(b"items"),
            Word::Number(row.items),
        ],
    )
}

// Appends a line for each arrival that the instance owns of the scenario of a number, in rising order.
fn put_arrivals(plan: &Plan, number: u16, into: &mut Vec<u8>) -> Result<(), BaseFault>
    requires made { IsMade plan.now }
    requires inside { number < length plan.now.plan.parts }
    ensures ok { OnOk result (IsSomeAnd (slice_get plan.now.plan.parts number)
        (λ part. into.new.items ≡ into.old.items ++ concat (arrival_lines part))) }
    ensures err { OnErr result (Grows into.old.items into.new.items) }
{
    for item in 0..plan.arrivals(number) {
        if plan.owns(number, item) {
            put_moment(item, plan.moment(number, item), into)?;
        }
    }
    Ok(())
}

// Appends the line of an arrival that is due at a moment.
fn put_moment(item: u64, moment: u64, into: &mut Vec<u8>) -> Result<(), BaseFault>
    ensures ok { OnOk result (into.new.items ≡ into.old.items ++ moment_line item moment) }
    ensures err { OnErr result (Grows into.old.items into.new.items) }
{
    put_line(
        into,
        &[
            Word::Text(b"moment"),
            Word::Number(item),
            Word::Number(moment),
        ],
    )
}
