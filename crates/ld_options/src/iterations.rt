// Scenarios of a number of iterations: one that all users share, or one that each user has.
ghost use Rattle.std.specs.Prelude.{◌≡◌, ◌≢◌, ◌≤◌, ◌*◌, IfErr, IfOk};
ghost use Rattle.ld_json.specs.Rules.{Accepts};
ghost use Rattle.ld_options.specs.Executors.{IsExecutor, executor_kind};
ghost use Rattle.ld_options.specs.Faults.{Answers};
ghost use Rattle.ld_options.specs.Iterations.{IsMaxDuration, RefusesMaxDuration, RefusesPerUser, RefusesShared, count_of_each as each_of, iteration_count};
ghost use Rattle.ld_options.specs.Ranges.{IsInRange, IsWithin, most_items};
ghost use Rattle.ld_options.specs.declared.fault.OptionsFault.TheVariants.{Memory};
ghost use Rattle.ld_options.specs.declared.kind.Kind.TheVariants.{PerVuIterations, SharedIterations};

use crate::executor::Executor;
use crate::fault::OptionsFault;
use crate::fields::number;
use crate::times::{DURATIONS, time};
use crate::users::user_count;
use ld_json::Node;
use ld_script::Range;
use std::alloc::Global;

/// The range of a number of iterations, of each user and of all of them together.
const COUNTS: Range = Range {
    least: 1,
    most: 400_000,
};

// The shared iterations that the fields of a scenario say.
pub(crate) fn shared_iterations(alloc: Global, node: &Node<'_>) -> Result<Executor, OptionsFault>
    ensures kind { IfOk result (λ executor. executor_kind executor ≡ SharedIterations) }
    ensures value { IfOk result (IsExecutor node.now) }
    ensures within { IfOk result IsInRange }
    ensures accepted { IfOk result (λ _. Accepts (RefusesShared node.now)) }
    ensures refused { IfErr result (λ f. f ≢ Memory → RefusesShared node.now f) }
{
    let vus = user_count(alloc, node)?;
    let iterations = iteration_count(alloc, node)?;
    let max_duration = max_duration(alloc, node)?;
    Ok(Executor::SharedIterations {
        vus,
        iterations,
        max_duration,
    })
}

// The iterations per user that the fields of a scenario say.
pub(crate) fn iterations_per_user(alloc: Global, node: &Node<'_>) -> Result<Executor, OptionsFault>
    ensures kind { IfOk result (λ executor. executor_kind executor ≡ PerVuIterations) }
    ensures value { IfOk result (IsExecutor node.now) }
    ensures within { IfOk result IsInRange }
    ensures accepted { IfOk result (λ _. Accepts (RefusesPerUser node.now)) }
    ensures refused { IfErr result (λ f. f ≢ Memory → RefusesPerUser node.now f) }
{
    let vus = user_count(alloc, node)?;
    let iterations = count_of_each(alloc, node, vus)?;
    let max_duration = max_duration(alloc, node)?;
    Ok(Executor::PerVuIterations {
        vus,
        iterations,
        max_duration,
    })
}

// How many iterations there are.
fn iteration_count(alloc: Global, node: &Node<'_>) -> Result<u64, OptionsFault>
    ensures answer { Answers result (iteration_count node.now) }
    ensures within { IfOk result (λ n. IsWithin 1 most_items n) }
{
    number(alloc, node, "iterations", Some(1), COUNTS)
}

// How many iterations each of so many users has.
fn count_of_each(alloc: Global, node: &Node<'_>, vus: u32) -> Result<u64, OptionsFault>
    ensures answer { Answers result (each_of vus node.now) }
    ensures within { IfOk result (λ n. IsWithin 1 most_items n) }
    ensures few { IfOk result (λ n. vus * n ≤ most_items) }
{
    let iterations = iteration_count(alloc, node)?;
    if u64::from(vus) * iterations > COUNTS.most {
        return Err(OptionsFault::Range(node.path_of(alloc, "iterations")?));
    }
    Ok(iterations)
}

// How long iterations begin at most.
fn max_duration(alloc: Global, node: &Node<'_>) -> Result<u64, OptionsFault>
    ensures value { IfOk result (IsMaxDuration node.now) }
    ensures accepted { IfOk result (λ _. Accepts (RefusesMaxDuration node.now)) }
    ensures refused { IfErr result (λ f. f ≢ Memory → RefusesMaxDuration node.now f) }
{
    time(alloc, node, "maxDuration", Some("10m"), DURATIONS)
}
