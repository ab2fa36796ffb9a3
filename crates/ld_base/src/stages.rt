ghost use Rattle.std.specs.Prelude.{◌≡◌};

use crate::stage::Stage;
use std::marker::Model;

/// The stages of a ramp, in order.
#[derive(Drop)]
pub struct Stages {
    stages: Vec<Stage>,
}

impl Model for Stages {
    ghost use Rattle.std.specs.Prelude.{List};
    ghost use Rattle.ld_base.specs.declared.stage.Stage.{Stage};

    ghost Value = { List Stage };

    ghost view = { λ s. s.stages.items };
}

impl Stages {
    /// The ramp of these stages. Takes no memory.
    pub fn of(stages: Vec<Stage>) -> Stages
        ensures { result ≡ stages.items }
    {
        Stages { stages }
    }

    /// The stages, lent. Takes no memory.
    pub fn as_slice(&self) -> &[Stage]
        ensures { result.now ≡ self.now }
    {
        self.stages.as_slice()
    }
}
