ghost use Rattle.std.specs.Prelude.{◌≡◌, ◌≤◌, IfOk, length};
ghost use Rattle.ld_script.specs.ScriptView.{IsScript};
ghost use Rattle.ld_script.specs.Step.{most_steps, sample_count};

use crate::step::Step;
use std::alloc::{AllocError, Global};
use std::marker::Model;

/// What a virtual user does in one iteration: at most 200 steps.
#[derive(Drop)]
pub struct Script {
    steps: Vec<Step>,
    room: u32,
}

impl Model for Script {
    ghost use Rattle.ld_script.specs.ScriptView.{IsScript, ScriptView};

    ghost Value = { ScriptView };

    ghost view = { λ s. record { steps = s.steps.items; room = s.room } };

    ghost invariant = { λ s. IsScript (record { steps = s.steps.items; room = s.room }) };
}

impl Script {
    // The script of these steps.
    pub(crate) fn of(steps: Vec<Step>) -> Script
        requires { length steps.items ≤ most_steps }
        ensures { result ≡ record { steps = steps.items; room = sample_count steps.items } }
    {
        let room = samples_of(&steps);
        Script { steps, room }
    }

    /// The steps, in order. Groups are laid flat.
    pub fn steps(&self) -> &[Step]
        ensures steps { result.now ≡ self.now.steps }
        ensures script { IsScript self.now }
    {
        self.steps.as_slice()
    }

    /// How many samples one iteration may give at most: one for each step that counts.
    pub fn sample_room(&self) -> u32
        ensures room { result ≡ self.now.room }
        ensures script { IsScript self.now }
    {
        self.room
    }

    // The same script.
    pub(crate) fn copy(&self, alloc: Global) -> Result<Script, AllocError>
        ensures { IfOk result (λ script. script ≡ self.now) }
    {
        let steps = Vec::from_slice(alloc, self.steps.as_slice())?;
        Ok(Script {
            steps,
            room: self.room,
        })
    }
}

// How many samples steps give.
fn samples_of(steps: &[Step]) -> u32
    requires { length steps.now ≤ most_steps }
    ensures { result ≡ sample_count steps.now }
{
    let mut room = 0;
    for step in steps {
        if step.gives_sample() {
            room += 1;
        }
    }
    room
}
