// So many users from a moment up to and without another, both in nanoseconds from the run's start: those that are
// planned, and those that there may be.
#[derive(Clone, Copy, PartialEq, Eq)]
pub struct Stay {
    pub from: u64,
    pub until: u64,
    pub planned: u32,
    pub limit: u32,
}
