// Scenarios of a constant number of users.
ghost use Rattle.std.specs.Prelude.{◌≡◌, ◌≢◌, IfErr, IfOk};
ghost use Rattle.ld_json.specs.Rules.{Accepts};
ghost use Rattle.ld_options.specs.ConstantUsers.{RefusesConstant};
ghost use Rattle.ld_options.specs.Executors.{IsExecutor, executor_kind};
ghost use Rattle.ld_options.specs.Ranges.{IsInRange};
ghost use Rattle.ld_options.specs.declared.fault.OptionsFault.TheVariants.{Memory};
ghost use Rattle.ld_options.specs.declared.kind.Kind.TheVariants.{ConstantVus};

use crate::executor::Executor;
use crate::fault::OptionsFault;
use crate::times::{DURATIONS, time};
use crate::users::user_count;
use ld_json::Node;
use std::alloc::Global;

// The constant users that the fields of a scenario say.
pub(crate) fn constant_users(alloc: Global, node: &Node<'_>) -> Result<Executor, OptionsFault>
    ensures kind { IfOk result (λ executor. executor_kind executor ≡ ConstantVus) }
    ensures value { IfOk result (IsExecutor node.now) }
    ensures within { IfOk result IsInRange }
    ensures accepted { IfOk result (λ _. Accepts (RefusesConstant node.now)) }
    ensures refused { IfErr result (λ f. f ≢ Memory → RefusesConstant node.now f) }
{
    let vus = user_count(alloc, node)?;
    let duration = time(alloc, node, "duration", None, DURATIONS)?;
    Ok(Executor::ConstantVus { vus, duration })
}
