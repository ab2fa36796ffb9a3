/// Whether a scenario goes on.
#[derive(Clone, Copy, PartialEq, Eq)]
pub enum Level {
    /// It runs.
    Runs,
    /// It starts nothing more, since a stop was commanded at this reading, in nanoseconds from the
    /// run's start.
    StartsNothing { commanded: u64 },
    /// It was halted.
    Halted,
}
