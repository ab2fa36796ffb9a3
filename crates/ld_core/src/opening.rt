// What a core begins with.
ghost use Rattle.std.specs.Prelude.{◌≡◌, IfErr, IfOk};
ghost use Rattle.ld_plan.specs.Plan.{IsMade};
ghost use Rattle.ld_core.specs.Core.{IsOpening};
ghost use Rattle.ld_core.specs.Shows.{ShowOpenings};
ghost use Rattle.ld_core.specs.declared.fault.CoreFault.{CoreFault};

use crate::fault::CoreFault;
use ld_base::History;
use ld_executor::ExecutorState;
use ld_plan::Plan;
use ld_pool::Pool;
use std::alloc::Global;

/// The parts of a core before anything was done.
#[derive(Drop)]
pub struct OpeningParts {
    pub pool: Pool,
    pub scenarios: Vec<ExecutorState>,
    pub history: History,
}

// The parts of a core of a plan, before anything was done. They take all memory of the run.
pub fn opening(alloc: Global, plan: &Plan) -> Result<OpeningParts, CoreFault>
    requires made { IsMade plan.now }
    ensures opens { IfOk result (IsOpening plan.now) }
    ensures memory { IfErr result (λ f. f ≡ CoreFault.Memory) }
{
    let scenarios = opening_scenarios(alloc, plan)?;
    let users = plan.users();
    let pool = Pool::new(alloc, users.planned, users.limit)?;
    let history = History::new(alloc, plan.entries())?;
    Ok(OpeningParts {
        pool,
        scenarios,
        history,
    })
}

// The states of the plan's scenarios before anything was done. They take all memory of the scenarios.
fn opening_scenarios(alloc: Global, plan: &Plan) -> Result<Vec<ExecutorState>, CoreFault>
    ensures show { IfOk result (λ scenarios. ShowOpenings plan.now.plan scenarios.items) }
    ensures memory { IfErr result (λ f. f ≡ CoreFault.Memory) }
{
    let mut scenarios = Vec::new(alloc);
    for number in 0..plan.scenarios() {
        let scenario = ExecutorState::opening(alloc, plan, number)?;
        let Ok(()) = scenarios.push(scenario) else {
            return Err(CoreFault::Memory);
        };
    }
    Ok(scenarios)
}
