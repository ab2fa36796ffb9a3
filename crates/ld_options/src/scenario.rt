ghost use Rattle.std.specs.Prelude.{◌≡◌, IfOk};

use crate::executor::Executor;
use ld_base::Text;
use std::alloc::{AllocError, Global};

/// A scenario of a test, as k6's options of the same names
/// (<https://grafana.com/docs/k6/latest/using-k6/scenarios/>).
#[derive(Drop)]
pub struct Scenario {
    /// The name: 1 to 64 letters, digits, `_` and `-`.
    pub name: Text,
    /// When the scenario begins, `startTime`, in nanoseconds from the run's start: at most 30 days.
    pub begin: u64,
    /// How long iterations may last behind the scenario's end, `gracefulStop`, in nanoseconds: at
    /// most 30 days.
    pub grace: u64,
    /// The number of the script that its iterations run, `exec`.
    pub script: u16,
    /// How its iterations are planned.
    pub executor: Executor,
}

impl Scenario {
    // An equal scenario.
    pub(crate) fn copy(&self, alloc: Global) -> Result<Scenario, AllocError>
        ensures { IfOk result (λ s. s ≡ self.now) }
    {
        let name = Text::of(Vec::from_slice(alloc, self.name.as_slice())?);
        let executor = self.executor.copy(alloc)?;
        Ok(Scenario {
            name,
            begin: self.begin,
            grace: self.grace,
            script: self.script,
            executor,
        })
    }
}
