use crate::command::Command;
use crate::tally::Tally;

/// How an iteration ended.
#[derive(Clone, Copy, PartialEq, Eq)]
pub enum Outcome {
    /// Its script finished, and no later than the iteration's `until`.
    Done,
    /// It was cut off, or ended too late.
    Interrupted,
}

/// What happened in a pool, as a history records it.
///
/// In each variant `scenario` is the scenario's number, from 0 in byte order of the scenarios'
/// names. `user` is a user's number, from 1. `slot` is the place, from 0, that the user takes among
/// its scenario's users. `item` is the index, from 0, of an iteration or an arrival; it is the slot
/// where the executor has no items and loops.
#[derive(Drop)]
pub enum Act {
    /// A scenario took a free user.
    Take {
        scenario: u16,
        user: u32,
        slot: u32,
    },
    /// A user was made, and a scenario took it.
    Grow {
        scenario: u16,
        user: u32,
        slot: u32,
    },
    /// A user began an iteration, which is to have ended at the moment `until`, in nanoseconds
    /// from the run's start.
    Start {
        scenario: u16,
        user: u32,
        item: u64,
        until: u64,
    },
    /// An item was given up: an arrival that no user could play, or an iteration that was left at
    /// its scenario's end.
    Drop {
        scenario: u16,
        item: u64,
    },
    /// An arrival was still waiting at its scenario's end.
    Late {
        scenario: u16,
        item: u64,
    },
    /// A user's iteration ended, with what it measured.
    Return {
        scenario: u16,
        user: u32,
        item: u64,
        outcome: Outcome,
        tally: Tally,
    },
    /// A scenario let an idle user go, which is free again.
    Release {
        scenario: u16,
        user: u32,
    },
    /// A scenario was halted, since its grace behind a commanded stop is over.
    Stop {
        scenario: u16,
    },
    /// A scenario was closed: it holds no user, and nothing of it is left to do.
    Close {
        scenario: u16,
    },
    /// A command was taken.
    Control {
        command: Command,
    },
}
