ghost use Rattle.std.specs.Prelude.{◌≡◌, IfOk};
ghost use Rattle.ld_stripe.specs.Striping.{owned_indices};

use ld_set::NumberSet;
use ld_stripe::Stripe;
use std::alloc::{AllocError, Global};

/// The numbers below a total that a position owns, as a set that may hold all numbers below the total.
///
/// Fails where there is no memory for them.
pub fn owned_set(
    alloc: Global,
    stripe: &Stripe,
    position: usize,
    total: u32,
) -> Result<NumberSet, AllocError>
    ensures { IfOk result (λ set. set ≡ record { numbers = owned_indices stripe.now.owners position total; limit = total }) }
{
    let mut owned = NumberSet::new(alloc, total)?;
    for number in 0..total {
        if stripe.owner(u64::from(number)) == position {
            owned.insert(number);
        }
    }
    Ok(owned)
}
