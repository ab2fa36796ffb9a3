ghost use Rattle.std.specs.Prelude.{◌≡◌, ◌≤◌, None, IfOk, IfErr, IsTrue, option_map};
ghost use Rattle.ld_machine.specs.Rehearsal.{nothing_late, FirstRefusal, IsRehearsed};
ghost use Rattle.ld_machine.specs.Settled.{IsSettled};
ghost use Rattle.ld_rehearsal.specs.Stage.{full_reply};
ghost use Rattle.ld_rehearsal.specs.declared.fault.RehearsalFault.{RehearsalFault};

use crate::fault::RehearsalFault;
use crate::full::FullJournal;
use crate::stage::Stage;
use ld_base::History;
use ld_plan::Plan;
use std::alloc::Global;

/// What was rehearsed.
#[derive(Drop)]
pub struct Rehearsed {
    /// The plan.
    pub plan: Plan,
    /// The history that was played.
    pub history: History,
    /// The first place at which the journal had no room for an act, if there was one.
    pub full: Option<FullJournal>,
}

/// Rehearses a plan: one thread, number 0, plays it in virtual time. Each iteration takes `length`, in
/// nanoseconds, or ends at its `until` where that comes first. At each moment the iterations that end are
/// returned first, in order of their users. Then acts are asked for until nothing is to be done, or until the
/// journal has no room. The next moment is the least one at which something becomes possible or an iteration
/// ends.
///
/// Its one fault is want of memory.
pub fn rehearse(alloc: Global, plan: Plan, length: u64) -> Result<Rehearsed, RehearsalFault>
    requires { 1 ≤ length }
    ensures plan { IfOk result (λ r. r.plan ≡ plan) }
    ensures rehearsed { IfOk result (λ r. IsRehearsed plan.plan length r.history.entries) }
    ensures first { IfOk result (λ r. FirstRefusal plan.plan r.history.entries (option_map full_reply r.full)) }
    ensures settled { IfOk result (λ r. r.full ≡ None → IsSettled plan.plan r.history.entries) }
    ensures in_time { IfOk result (λ r. r.full ≡ None → IsTrue (nothing_late r.history.entries)) }
    ensures memory { IfErr result (λ f. f ≡ RehearsalFault.Memory) }
{
    let mut stage = Stage::new(alloc, plan, length)?;
    stage.run(alloc);
    let Stage {
        core,
        dues: _,
        moment: _,
        length: _,
        full,
    } = stage;
    let (plan, history) = core.into_parts();
    Ok(Rehearsed {
        plan,
        history,
        full,
    })
}
