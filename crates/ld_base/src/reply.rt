use crate::stint::Stint;

/// Which of a run's limits was met.
#[derive(Clone, Copy, Debug, PartialEq, Eq)]
pub enum Room {
    /// That on the entries of the history.
    Entries,
    /// That on the samples of all tallies.
    Samples,
}

/// What the pool answers to an ask.
///
/// In each variant `scenario` is the scenario's number, from 0 in byte order of the scenarios'
/// names, `user` is a user's number, from 1, and `item` is an item's index, from 0. A reply can
/// hold a stint, so it can't be dropped.
pub enum Reply {
    /// An iteration began, and the thread is to play it.
    Run(Stint),
    /// An item was given up: an arrival that no user could play, or an iteration that was left at
    /// its scenario's end.
    Dropped {
        scenario: u16,
        item: u64,
    },
    /// An arrival was still waiting at its scenario's end.
    Late {
        scenario: u16,
        item: u64,
    },
    /// A scenario took a user.
    Took {
        scenario: u16,
        user: u32,
    },
    /// A scenario let an idle user go.
    Released {
        scenario: u16,
        user: u32,
    },
    /// A scenario was halted, since its grace behind a commanded stop is over.
    Stopped {
        scenario: u16,
    },
    /// A scenario was closed.
    Closed {
        scenario: u16,
    },
    /// What was handed in is recorded.
    Noted,
    /// The command can't be taken.
    Denied,
    /// The scenario's iterations may go on.
    Go,
    /// The scenario's iterations are to be cut off.
    Halt,
    /// The run goes on, and this is its state: whether the externally controlled scenario is
    /// paused, whether a stop was commanded, and that scenario's users, active and at most.
    Alive {
        paused: bool,
        stopped: bool,
        vus: u32,
        vus_max: u32,
    },
    /// Nothing is to be done now. The thread is to ask again at this moment, in nanoseconds from
    /// the run's start.
    Wait(u64),
    /// Every scenario is closed.
    Over,
    /// Nothing was done, since the act needs `needed` places in all where the limit is `limit`.
    Full {
        room: Room,
        needed: u64,
        limit: u64,
    },
}
