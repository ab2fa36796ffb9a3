/// What an instance owns of one scenario, in numbers. Moments are in nanoseconds from the run's
/// start.
#[derive(Clone, Copy, PartialEq, Eq)]
pub struct Row {
    /// When the scenario begins.
    pub begin: u64,
    /// When it ends: no iteration begins at this moment or later.
    pub end: u64,
    /// When its iterations are cut off: its grace behind its end.
    pub hard: u64,
    /// How many users it has.
    pub users: u32,
    /// How many users it may have at most.
    pub max: u32,
    /// How many items the instance owns.
    pub items: u64,
}
