ghost use Rattle.std.specs.Prelude.{◌≡◌};
ghost use Rattle.ld_script.specs.Step.{gives_sample};

/// A step of a script. Groups are laid flat.
#[derive(Clone, Copy, PartialEq, Eq)]
pub enum Step {
    /// Waits for so long, in nanoseconds: at most 30 days.
    Sleep(u64),
    /// Adds to a counter.
    Count {
        /// The number of the counter's name.
        name: u16,
        /// What is added: at most 1,000,000.
        add: u64,
    },
}

impl Step {
    // Whether the step gives a sample.
    pub(crate) fn gives_sample(&self) -> bool
        ensures { result ≡ gives_sample self.now }
    {
        match self {
            Step::Sleep(_) => false,
            Step::Count { name: _, add: _ } => true,
        }
    }
}
