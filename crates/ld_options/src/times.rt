// Spans of time in a document, as scripts have them.
ghost use Rattle.std.specs.Prelude.{◌≢◌, IfErr, IfOk, option_copied};
ghost use Rattle.ld_json.specs.Rules.{Accepts};
ghost use Rattle.ld_options.specs.Times.{IsTime, RefusesTime};
ghost use Rattle.ld_options.specs.declared.fault.OptionsFault.TheVariants.{Memory};

use crate::fault::OptionsFault;
use ld_json::Node;
use ld_script::Range;
use std::alloc::Global;

/// The range of a unit of time, in nanoseconds: up to a day.
pub(crate) const UNITS: Range = Range {
    least: 1,
    most: 86_400_000_000_000,
};

/// The range of a duration, in nanoseconds: up to 30 days.
pub(crate) const DURATIONS: Range = Range {
    least: 1,
    most: 2_592_000_000_000_000,
};

/// The range of begins and of graces, in nanoseconds: up to 30 days.
pub(crate) const SPANS: Range = Range {
    least: 0,
    most: 2_592_000_000_000_000,
};

// The span of time of the field of this name, in its range. Without a default it is needed.
pub(crate) fn time(
    alloc: Global,
    node: &Node<'_>,
    name: &str,
    default: Option<&str>,
    range: Range,
) -> Result<u64, OptionsFault>
    ensures value { IfOk result (IsTime range (option_copied default.entry) node.now name.now) }
    ensures accepted { IfOk result (λ _. Accepts (RefusesTime range (option_copied default.entry) node.now name.now)) }
    ensures refused { IfErr result (λ f. f ≢ Memory → RefusesTime range (option_copied default.entry) node.now name.now f) }
{
    Ok(ld_script::time(alloc, node, name, default, range)?)
}
