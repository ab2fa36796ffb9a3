ghost use Rattle.std.specs.Prelude.{◌≡◌, IfOk};
ghost use Rattle.ld_ramping.specs.Owned.{AreOwned};
ghost use Rattle.ld_ramping.specs.Standing.{numbers_of};

use crate::slot::Slot;
use ld_set::NumberSet;
use std::alloc::{AllocError, Global};

/// The most slots that there may be. Their numbers count from 0.
pub const SLOTS: u32 = 1000;

/// The numbers of an instance's slots, as a set.
///
/// Fails where there is no memory for them.
pub fn owned_set(alloc: Global, slots: &[Slot]) -> Result<NumberSet, AllocError>
    requires { AreOwned slots.now }
    ensures { IfOk result (λ set. set ≡ record { numbers = numbers_of slots.now; limit = 1000 }) }
{
    let mut owned = NumberSet::new(alloc, SLOTS)?;
    for slot in slots {
        owned.insert(slot.number);
    }
    Ok(owned)
}
