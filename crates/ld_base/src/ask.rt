use crate::command::Command;
use crate::stint::Stint;
use crate::tally::Tally;

/// What a thread asks of the pool in one turn.
///
/// An ask can hold a stint, so it can't be dropped.
pub enum Ask {
    /// Performs the first act that is enabled.
    Act,
    /// Hands a stint back, with what its iteration measured, and whether its script finished.
    Return {
        stint: Stint,
        finished: bool,
        tally: Tally,
    },
    /// Asks whether iterations of a scenario are to go on.
    Check {
        scenario: u16,
    },
    /// Asks for the state of the run.
    Look,
    /// Hands a command in.
    Control(Command),
}
