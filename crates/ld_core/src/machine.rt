ghost use Rattle.std.specs.Prelude.{◌≡◌, [], IfErr, IfOk};

use crate::fault::CoreFault;
use crate::opening::opening;
use ld_base::{Ask, History, Reply, Stint};
use ld_executor::ExecutorState;
use ld_plan::Plan;
use ld_pool::Pool;
use std::alloc::Global;
use std::marker::Model;

/// The pool's machine for one instance: who plays what, and the history of it. It is seen as its plan
/// and its history. All memory of the run is taken when it is made.
#[derive(Drop)]
pub struct Core {
    pub(crate) plan: Plan,
    pub(crate) pool: Pool,
    pub(crate) scenarios: Vec<ExecutorState>,
    pub(crate) stopped: bool,
    pub(crate) samples: u64,
    pub(crate) under_way: u64,
    pub(crate) history: History,
}

impl Model for Core {
    ghost use Rattle.ld_core.specs.CoreView.{CoreView};

    ghost Value = { CoreView };

    ghost use Rattle.ld_core.specs.Core.{core_view, IsCore};

    ghost view = { λ c. core_view c };

    ghost invariant = { λ c. IsCore c };
}

impl Core {
    ghost use Rattle.std.specs.Prelude.{◌≡◌, [], IfErr, IfOk};
    ghost use Rattle.ld_core.specs.Changes.{MayAsk};
    ghost use Rattle.ld_core.specs.CoreView.{IsAsked, state_of};
    ghost use Rattle.ld_machine.specs.Step.{is_out};
    ghost use Rattle.ld_core.specs.declared.fault.CoreFault.{CoreFault};

    /// The core of a plan, with an empty history. It takes all memory of the run.
    pub fn new(alloc: Global, plan: Plan) -> Result<Core, CoreFault>
        ensures plan { IfOk result (λ core. core.plan ≡ plan) }
        ensures empty { IfOk result (λ core. core.entries ≡ []) }
        ensures memory { IfErr result (λ f. f ≡ CoreFault.Memory) }
    {
        match opening(alloc, &plan) {
            Ok(opening) => Ok(Core {
                plan,
                pool: opening.pool,
                scenarios: opening.scenarios,
                stopped: false,
                samples: 0,
                under_way: 0,
                history: opening.history,
            }),
            Err(fault) => Err(fault),
        }
    }

    /// Answers an ask of a thread at a reading, in nanoseconds from the run's start: it is one step of
    /// the machine. Takes no memory.
    ///
    /// A Return is of a stint that this core handed to the thread, with a tally that fits its script,
    /// and a Check names a scenario of the plan.
    pub fn ask(&mut self, thread: u32, ask: Ask, reading: u64) -> Reply
        requires may { MayAsk self.old thread ask }
        ensures step { IsAsked self.old self.new thread ask reading result }
    {
        match ask {
            Ask::Act => self.act(thread, reading),
            Ask::Return {
                stint,
                finished,
                tally,
            } => self.take_back(thread, stint, finished, tally, reading),
            Ask::Check { scenario } => self.check(scenario),
            Ask::Look => self.look(),
            Ask::Control(command) => self.control(thread, command, reading),
        }
    }

    /// Whether a stint is out at a thread: it was handed to the thread, and is to be handed in yet.
    pub fn is_out(&self, thread: u32, stint: &Stint) -> bool
        ensures { result ≡ is_out (state_of self.now) thread stint.now }
    {
        match self.pool.busy(stint.user()) {
            Some(busy) => busy.plays(thread, stint),
            None => false,
        }
    }

    /// The history so far.
    pub fn history(&self) -> &History
        ensures { result.now.entries ≡ self.now.entries }
    {
        &self.history
    }

    /// The plan.
    pub fn plan(&self) -> &Plan
        ensures { result.now ≡ self.now.plan }
    {
        &self.plan
    }

    /// The plan and the history.
    pub fn into_parts(self) -> (Plan, History)
        ensures plan { result.0 ≡ self.plan }
        ensures history { result.1.entries ≡ self.entries }
    {
        let Core {
            plan,
            pool: _,
            scenarios: _,
            stopped: _,
            samples: _,
            under_way: _,
            history,
        } = self;
        (plan, history)
    }
}
