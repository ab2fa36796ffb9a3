use crate::act::Act;

/// One line of a pool's history.
#[derive(Drop)]
pub struct Entry {
    /// The entry's place in the history, from 1.
    pub turn: u64,
    /// The number of the thread whose turn it was, from 0.
    pub thread: u32,
    /// What happened.
    pub act: Act,
    /// The clock's reading that the thread handed in, in nanoseconds from the run's start.
    pub reading: u64,
}
