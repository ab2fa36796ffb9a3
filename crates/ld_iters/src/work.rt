ghost use Rattle.std.specs.Prelude.{◌≡◌, IfOk};
ghost use Rattle.ld_iters.specs.ItersPart.{IsSmall};
ghost use Rattle.ld_iters.specs.SlotsOpening.{IsFirstWork};
ghost use Rattle.ld_iters.specs.Work.{IsPassed, least_left, next_item};

use crate::iters_part::{IterKind, ItersPart};
use crate::next_items::NextItems;
use ld_set::NumberSet;
use std::alloc::{AllocError, Global};

/// What slots have left to start.
#[derive(Drop)]
pub enum Work {
    /// Each slot has a number of items.
    Counted(NextItems),
    /// There is no end of them.
    Endless,
}

impl Work {
    /// All that the slots of a part have to start at the opening.
    ///
    /// Fails where the allocator gives no memory for it.
    pub fn of_part(alloc: Global, part: &ItersPart) -> Result<Work, AllocError>
        requires small { IsSmall part.now.kind part.now }
        ensures first { IfOk result (IsFirstWork part.now) }
    {
        match part.kind {
            IterKind::PerUser => Ok(Work::Counted(NextItems::new(
                alloc,
                part.total,
                part.iterations,
            )?)),
            IterKind::Shared | IterKind::Constant => Ok(Work::Endless),
        }
    }

    /// The item that the slot starts next, where it goes on.
    pub fn next(&self, slot: u32) -> Option<u64>
        ensures { result ≡ next_item self.now slot }
    {
        match self {
            Work::Counted(items) => items.of(slot),
            Work::Endless => Some(slot as u64),
        }
    }

    /// The next item of the least of these slots, where each slot has a number of items. None where there is no slot, or no
    /// end of items.
    pub fn least(&self, going: &NumberSet) -> Option<u64>
        ensures { result ≡ least_left self.now going.now.numbers }
    {
        match self {
            Work::Counted(items) => items.of(going.least()?),
            Work::Endless => None,
        }
    }

    /// Passes the slot's next item over, and says whether it was the slot's last.
    pub fn pass(&mut self, slot: u32) -> bool
        ensures { IsPassed slot self.old self.new result }
    {
        match self {
            Work::Counted(items) => items.pass(slot),
            Work::Endless => false,
        }
    }
}
