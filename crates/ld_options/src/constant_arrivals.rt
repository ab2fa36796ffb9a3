// Scenarios at a constant rate of arrivals.
ghost use Rattle.std.specs.Prelude.{◌≡◌, ◌≢◌, IfErr, IfOk};
ghost use Rattle.ld_json.specs.Rules.{Accepts};
ghost use Rattle.ld_options.specs.ConstantArrivals.{RefusesArrivals};
ghost use Rattle.ld_options.specs.Executors.{IsExecutor, executor_kind};
ghost use Rattle.ld_options.specs.Ranges.{IsInRange};
ghost use Rattle.ld_options.specs.declared.fault.OptionsFault.TheVariants.{Memory};
ghost use Rattle.ld_options.specs.declared.kind.Kind.TheVariants.{ConstantArrivals};

use crate::executor::Executor;
use crate::fault::OptionsFault;
use crate::fields::number;
use crate::times::{DURATIONS, UNITS, time};
use crate::users::{greatest, planned_users};
use ld_json::Node;
use ld_script::Range;
use std::alloc::Global;

/// The range of a rate, in arrivals for each unit of time.
const RATES: Range = Range {
    least: 1,
    most: 1_000_000,
};

// The constant rate of arrivals that the fields of a scenario say.
pub(crate) fn constant_arrivals(alloc: Global, node: &Node<'_>) -> Result<Executor, OptionsFault>
    ensures kind { IfOk result (λ executor. executor_kind executor ≡ ConstantArrivals) }
    ensures value { IfOk result (IsExecutor node.now) }
    ensures within { IfOk result IsInRange }
    ensures accepted { IfOk result (λ _. Accepts (RefusesArrivals node.now)) }
    ensures refused { IfErr result (λ f. f ≢ Memory → RefusesArrivals node.now f) }
{
    let rate = number(alloc, node, "rate", None, RATES)?;
    let unit = time(alloc, node, "timeUnit", Some("1s"), UNITS)?;
    let duration = time(alloc, node, "duration", None, DURATIONS)?;
    let pre = planned_users(alloc, node)?;
    let max = greatest(alloc, node, pre)?;
    Ok(Executor::ConstantArrivals {
        rate,
        unit,
        duration,
        pre: pre as u32,
        max: max as u32,
    })
}
