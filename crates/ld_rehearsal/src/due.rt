// The iterations under way, in a table by user number.
use ld_set::MomentTable;
use std::alloc::{AllocError, Global};
use std::marker::Model;

/// An iteration under way, whose length is known.
#[derive(Clone, Copy, PartialEq, Eq)]
pub struct Due {
    /// The scenario's number, from 0 in byte order of the scenarios' names.
    pub scenario: u16,
    /// The item's index, from 0.
    pub item: u64,
    /// The moment at which the iteration is to have ended, in nanoseconds from the run's start.
    pub until: u64,
    /// The moment at which it ends.
    pub end: u64,
    /// Whether its script finishes.
    pub finished: bool,
}

/// The iteration that each user plays, if it plays one, by its number from 1. All of its memory is taken when
/// it is made.
#[derive(Drop)]
pub struct Dues {
    users: Vec<Option<Due>>,
    // When each iteration ends, by the user's number less 1.
    ends: MomentTable,
}

impl Model for Dues {
    ghost use Rattle.std.specs.Prelude.{List, Option};
    ghost use Rattle.ld_rehearsal.specs.Dues.{IsKept};
    ghost use Rattle.ld_rehearsal.specs.declared.due.Due.{Due};

    ghost Value = { List (Option Due) };

    ghost view = { λ d. d.users.items };

    ghost invariant = { λ d. IsKept d.users.items d.ends };
}

impl Dues {
    ghost use Rattle.std.specs.Prelude.{◌≡◌, ◌<◌, ◌≤◌, ◌-◌, ℕ, IfNone, IfOk, IfSome, None, Some, length, replicate, slice_set};
    ghost use Rattle.ld_machine.specs.Wait.{least_of};
    ghost use Rattle.ld_rehearsal.specs.Dues.{due_at, ends_of, EndsLater};

    // A table of so many users, of whom none plays.
    pub(crate) fn new(alloc: Global, limit: u32) -> Result<Dues, AllocError>
        ensures { IfOk result (λ dues. dues ≡ replicate limit None) }
    {
        let users = vec![in alloc; None; limit as usize]?;
        let ends = MomentTable::new(alloc, limit)?;
        Ok(Dues { users, ends })
    }

    // The first user behind this number whose iteration ends by the moment, and what it plays. None exactly
    // where there is none.
    pub(crate) fn first_due(&self, last: u32, moment: u64) -> Option<(u32, Due)>
        ensures behind { IfSome result (λ found. last < found.0) }
        ensures plays { IfSome result (λ found. due_at self.now found.0 ≡ Some found.1) }
        ensures ends { IfSome result (λ found. found.1.end ≤ moment) }
        ensures first { IfSome result (λ found. (user : ℕ) → last < user → user < found.0 → EndsLater self.now moment user) }
        ensures none { IfNone result ((user : ℕ) → last < user → EndsLater self.now moment user) }
    {
        let index = self.ends.first_due(last, moment)?;
        let due = self.users[index as usize]?;
        Some((index + 1, due))
    }

    // The user plays this from now on.
    pub(crate) fn put(&mut self, user: u32, due: Due)
        requires some { 1 ≤ user }
        requires within { user ≤ length self.old }
        ensures { self.new ≡ slice_set self.old (user - 1) (Some due) }
    {
        self.users[user as usize - 1] = Some(due);
        self.ends.set(user - 1, Some(due.end));
    }

    // The user plays nothing from now on.
    pub(crate) fn clear(&mut self, user: u32)
        requires some { 1 ≤ user }
        requires within { user ≤ length self.old }
        ensures { self.new ≡ slice_set self.old (user - 1) None }
    {
        self.users[user as usize - 1] = None;
        self.ends.set(user - 1, None);
    }

    // The least moment at which an iteration ends, if one is under way.
    pub(crate) fn next_end(&self) -> Option<u64>
        ensures { result ≡ least_of (ends_of self.now) }
    {
        self.ends.least()
    }
}
