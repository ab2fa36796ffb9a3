ghost use Rattle.std.specs.Prelude.{◌≡◌};
ghost use Rattle.ld_pool.specs.Users.{busy_of, holder_of, is_busy, is_free};

use crate::busy::Busy;

/// What a pool knows of one user.
///
/// A scenario's number counts from 0, in byte order of the scenarios' names.
#[derive(Clone, Copy)]
pub enum User {
    /// No scenario holds the user.
    Free,
    /// A scenario holds the user, which plays nothing.
    Idle { scenario: u16 },
    /// A scenario holds the user, which plays this.
    Busy(Busy),
}

impl User {
    // Whether no scenario holds the user.
    pub(crate) fn is_free(self) -> bool
        ensures { result ≡ is_free self }
    {
        matches!(self, User::Free)
    }

    // Whether the user plays an item.
    pub(crate) fn is_busy(self) -> bool
        ensures { result ≡ is_busy self }
    {
        matches!(self, User::Busy(_))
    }

    // The scenario that holds the user, or None exactly where it is free.
    pub(crate) fn holder(self) -> Option<u16>
        ensures { result ≡ holder_of self }
    {
        match self {
            User::Free => None,
            User::Idle { scenario } => Some(scenario),
            User::Busy(busy) => Some(busy.scenario),
        }
    }

    // What the user plays, or None exactly where it plays nothing.
    pub(crate) fn busy(self) -> Option<Busy>
        ensures { result ≡ busy_of self }
    {
        match self {
            User::Busy(busy) => Some(busy),
            _ => None,
        }
    }
}
