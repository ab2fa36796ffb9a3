ghost use Rattle.std.specs.Prelude.{◌≡◌, IfOk};

use crate::scenario::Scenario;
use std::alloc::{AllocError, Global};
use std::marker::Model;

/// The scenarios of a test, in byte order of their names. Their numbers are in their ranges.
#[derive(Drop)]
pub struct Scenarios {
    items: Vec<Scenario>,
}

impl Model for Scenarios {
    ghost use Rattle.std.specs.Prelude.{List};
    ghost use Rattle.ld_options.specs.Ranges.{AreInRange};
    ghost use Rattle.ld_options.specs.declared.scenario.Scenario.{Scenario};

    ghost Value = { List Scenario };

    ghost view = { λ s. s.items.items };

    ghost invariant = { λ s. AreInRange s.items.items };
}

impl Scenarios {
    ghost use Rattle.ld_options.specs.Ranges.{AreInRange};

    /// The list of these scenarios, whose numbers are in their ranges. Takes no memory.
    pub fn of(items: Vec<Scenario>) -> Scenarios
        requires { AreInRange items.items }
        ensures { result ≡ items.items }
    {
        Scenarios { items }
    }

    /// The scenarios, lent. Takes no memory.
    pub fn as_slice(&self) -> &[Scenario]
        ensures list { result.now ≡ self.now }
        ensures ranges { AreInRange self.now }
    {
        self.items.as_slice()
    }

    // Equal scenarios.
    pub(crate) fn copy(&self, alloc: Global) -> Result<Scenarios, AllocError>
        ensures { IfOk result (λ list. list ≡ self.now) }
    {
        let items = copies(alloc, self.as_slice())?;
        Ok(Scenarios { items })
    }
}

// The same scenarios.
fn copies(alloc: Global, scenarios: &[Scenario]) -> Result<Vec<Scenario>, AllocError>
    ensures { IfOk result (λ copies. copies.items ≡ scenarios.now) }
{
    let mut copies = Vec::new(alloc);
    for scenario in scenarios {
        let copy = scenario.copy(alloc)?;
        let Ok(()) = copies.push(copy) else {
            return Err(AllocError);
        };
    }
    Ok(copies)
}
