// The text of the summary.
ghost use Rattle.std.specs.Prelude.{◌≡◌, ◌≤◌, ◌++◌, IfOk, IsTrue, OnErr, OnOk, length};
ghost use Rattle.std.specs.List.{concat};
ghost use Rattle.ld_line.specs.Line.{Grows};
ghost use Rattle.ld_summary.specs.Summary.{scenario_line, scenario_lines, summary_text, users_line};
ghost use Rattle.ld_summary.specs.Summed.{AreSummed};

use crate::counts::Counts;
use crate::fault::SummaryFault;
use crate::planned::{sum_items, sum_users};
use ld_base::{BaseFault, History};
use ld_line::{Word, put_line};
use ld_plan::Plan;

/// Appends the summary of the histories of a test's instances, each under the plan of its place, and
/// answers whether all thresholds of the test hold: a test has none so far.
///
/// There are 1 to 100 plans, all of one test, and as many histories, each legal under its plan.
///
/// Fails where the allocator gives no memory for the text; `into` is then as before.
pub fn summary_text(
    plans: &[Plan],
    histories: &[History],
    into: &mut Vec<u8>,
) -> Result<bool, SummaryFault>
    requires { AreSummed plans.now histories.now }
    ensures holds { IfOk result (λ holds. IsTrue holds) }
    ensures ok { OnOk result (into.new.items ≡ into.old.items ++ summary_text plans.now histories.now) }
    ensures err { OnErr result (into.new.items ≡ into.old.items) }
{
    let length = into.len();
    match put_summary(plans, histories, into) {
        Ok(()) => Ok(true),
        Err(fault) => {
            into.truncate(length);
            Err(SummaryFault::from(fault))
        }
    }
}

// Appends the summary.
fn put_summary(plans: &[Plan], histories: &[History], into: &mut Vec<u8>) -> Result<(), BaseFault>
    requires { AreSummed plans.now histories.now }
    ensures ok { OnOk result (into.new.items ≡ into.old.items ++ summary_text plans.now histories.now) }
    ensures err { OnErr result (Grows into.old.items into.new.items) }
{
    put_users(plans, into)?;
    put_scenarios(plans, histories, into)
}

// Appends the line of the users.
fn put_users(plans: &[Plan], into: &mut Vec<u8>) -> Result<(), BaseFault>
    requires { length plans.now ≤ 100 }
    ensures ok { OnOk result (into.new.items ≡ into.old.items ++ users_line plans.now) }
    ensures err { OnErr result (Grows into.old.items into.new.items) }
{
    let (planned, limit) = sum_users(plans);
    put_line(
        into,
        &[
            Word::Text(b"users"),
            Word::Number(planned),
            Word::Number(limit),
        ],
    )
}

// Appends the lines of the scenarios, in order.
fn put_scenarios(plans: &[Plan], histories: &[History], into: &mut Vec<u8>) -> Result<(), BaseFault>
    requires { AreSummed plans.now histories.now }
    ensures ok { OnOk result (into.new.items ≡ into.old.items ++ concat (scenario_lines plans.now histories.now)) }
    ensures err { OnErr result (Grows into.old.items into.new.items) }
{
    let first = &plans[0];
    for scenario in 0..first.scenarios() {
        let name = first.name(scenario).as_slice();
        let planned = sum_items(plans, scenario);
        let counts = Counts::of(histories, scenario);
        put_scenario(name, planned, counts, into)?;
    }
    Ok(())
}

// Appends the line of a scenario.
fn put_scenario(
    name: &[u8],
    planned: u64,
    counts: Counts,
    into: &mut Vec<u8>,
) -> Result<(), BaseFault>
    ensures ok { OnOk result (into.new.items ≡ into.old.items ++ scenario_line name.now planned counts) }
    ensures err { OnErr result (Grows into.old.items into.new.items) }
{
    put_line(
        into,
        &[
            Word::Text(b"scenario"),
            Word::Text(name),
            Word::Text(b"planned"),
            Word::Number(planned),
            Word::Text(b"started"),
            Word::Number(counts.started),
            Word::Text(b"done"),
            Word::Number(counts.done),
            Word::Text(b"interrupted"),
            Word::Number(counts.interrupted),
            Word::Text(b"dropped"),
            Word::Number(counts.dropped),
            Word::Text(b"late"),
            Word::Number(counts.late),
        ],
    )
}
