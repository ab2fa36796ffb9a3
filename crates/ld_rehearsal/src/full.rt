use ld_base::Room;

/// Where the journal has no room for an act: which of its limits was met, how many places the act
/// would need in all, and the limit.
#[derive(Clone, Copy, PartialEq, Eq)]
pub struct FullJournal {
    /// Which limit was met: that on entries, or that on samples.
    pub room: Room,
    /// How many places would be needed.
    pub needed: u64,
    /// How many there may be.
    pub limit: u64,
}
