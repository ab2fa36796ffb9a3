// Scenarios of ramping arrivals.
ghost use Rattle.std.specs.Prelude.{◌≡◌, ◌≢◌, IfErr, IfOk};
ghost use Rattle.ld_json.specs.Rules.{Accepts};
ghost use Rattle.ld_options.specs.Executors.{IsExecutor, executor_kind};
ghost use Rattle.ld_options.specs.RampingArrivals.{RefusesRampingArrivals};
ghost use Rattle.ld_options.specs.Ranges.{IsInRange};
ghost use Rattle.ld_options.specs.declared.fault.OptionsFault.TheVariants.{Memory};
ghost use Rattle.ld_options.specs.declared.kind.Kind.TheVariants.{RampingArrivals};

use crate::executor::Executor;
use crate::fault::OptionsFault;
use crate::fields::number;
use crate::stages::stages;
use crate::times::{UNITS, time};
use crate::users::{greatest, planned_users};
use ld_json::Node;
use ld_script::Range;
use std::alloc::Global;

/// The range of the rate at the begin and of targets, in arrivals for each unit of time.
const RATES: Range = Range {
    least: 0,
    most: 1_000_000,
};

// The ramping arrivals that the fields of a scenario say.
pub(crate) fn ramping_arrivals(alloc: Global, node: &Node<'_>) -> Result<Executor, OptionsFault>
    ensures kind { IfOk result (λ executor. executor_kind executor ≡ RampingArrivals) }
    ensures value { IfOk result (IsExecutor node.now) }
    ensures within { IfOk result IsInRange }
    ensures accepted { IfOk result (λ _. Accepts (RefusesRampingArrivals node.now)) }
    ensures refused { IfErr result (λ f. f ≢ Memory → RefusesRampingArrivals node.now f) }
{
    let start_rate = number(alloc, node, "startRate", Some(0), RATES)?;
    let unit = time(alloc, node, "timeUnit", Some("1s"), UNITS)?;
    let pre = planned_users(alloc, node)?;
    let max = greatest(alloc, node, pre)?;
    let stages = stages(alloc, node, RATES.most)?;
    Ok(Executor::RampingArrivals {
        start_rate,
        unit,
        stages,
        pre: pre as u32,
        max: max as u32,
    })
}
