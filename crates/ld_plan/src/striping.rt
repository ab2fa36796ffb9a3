// The stripings of the positions of a sequence.
ghost use Rattle.std.specs.Prelude.{◌≡◌, ◌≢◌, ◌<◌, ◌≤◌, All, length, sum, IfOk, IfErr};
ghost use Rattle.ld_segment.specs.Points.{IsFilled};
ghost use Rattle.ld_segment.specs.Segments.{most_segments, segments_of};
ghost use Rattle.ld_segment.specs.Weights.{greatest_period, HasWeights};
ghost use Rattle.ld_stripe.specs.Striping.{IsStripingOf, share_at, shares_at};
ghost use Rattle.ld_plan.specs.IsPlanOf.{IsSequenceStriping, whole_striping};
ghost use Rattle.ld_plan.specs.PlanFault.{HasShortPeriod, IsLongPeriod};
ghost use Rattle.ld_plan.specs.declared.fault.PlanFault.TheVariants.{Memory};

use crate::fault::PlanFault;
use ld_segment::{SegmentFault, Sequence};
use ld_stripe::{Stripe, StripeFault};
use std::alloc::Global;

// The weights of the positions of a filled sequence.
fn weights_of(alloc: Global, sequence: &Sequence) -> Result<Vec<u64>, PlanFault>
    requires filled { IsFilled sequence.now }
    ensures weights { IfOk result (λ weights. HasWeights sequence.now (sum weights.items) weights.items) }
    ensures small { IfOk result (λ weights. sum weights.items ≤ greatest_period) }
    ensures positions { IfOk result (λ weights. length weights.items ≡ length (segments_of sequence.now)) }
    ensures few { IfOk result (λ weights. length weights.items ≤ most_segments) }
    ensures weighted { IfOk result (λ weights. All (λ w. 0 < w) weights.items) }
    ensures refused { IfErr result (λ f. f ≢ Memory → IsLongPeriod sequence.now f) }
{
    match sequence.weights(alloc) {
        Ok(weights) => Ok(weights),
        Err(SegmentFault::PeriodTooLarge(period)) => Err(PlanFault::PeriodTooLarge(period)),
        Err(_) => Err(PlanFault::Memory),
    }
}

// The striping of the positions of a filled sequence. Its weights are never refused by the striping.
pub fn of_sequence(alloc: Global, sequence: &Sequence) -> Result<Stripe, PlanFault>
    requires filled { IsFilled sequence.now }
    ensures striping { IfOk result (IsSequenceStriping sequence.now) }
    ensures positions { IfOk result (λ s. length s.weights ≡ length (segments_of sequence.now)) }
    ensures short { IfOk result (λ _. HasShortPeriod sequence.now) }
    ensures refused { IfErr result (λ f. f ≢ Memory → IsLongPeriod sequence.now f) }
{
    let weights = weights_of(alloc, sequence)?;
    match Stripe::of_weights(alloc, &weights) {
        Ok(stripe) => Ok(stripe),
        Err(fault) => match fault {
            StripeFault::Memory => Err(PlanFault::Memory),
            _ => unreachable!(),
        },
    }
}

// The striping of a test that isn't cut.
pub fn of_whole(alloc: Global) -> Result<Stripe, PlanFault>
    ensures striping { IfOk result (λ s. s ≡ whole_striping) }
    ensures memory { IfErr result (λ f. f ≡ Memory) }
{
    match Stripe::of_weights(alloc, &[1]) {
        Ok(stripe) => Ok(stripe),
        Err(fault) => match fault {
            StripeFault::Memory => Err(PlanFault::Memory),
            _ => unreachable!(),
        },
    }
}

// The striping of a scenario's items, which is that of the shares of its greatest number of users.
pub fn of_items(alloc: Global, positions: &Stripe, max: u32) -> Result<Stripe, PlanFault>
    requires some { 1 ≤ max }
    requires few { max ≤ 1000 }
    ensures striping { IfOk result (IsStripingOf (shares_at positions.now max)) }
    ensures positions { IfOk result (λ s. length s.weights ≡ length positions.now.weights) }
    ensures memory { IfErr result (λ f. f ≡ Memory) }
{
    let Ok(rescaled) = positions.rescale(alloc, max as u64) else {
        return Err(PlanFault::Memory);
    };
    Ok(rescaled)
}

// An equal striping.
pub fn copy_of(alloc: Global, stripe: &Stripe) -> Result<Stripe, PlanFault>
    ensures equal { IfOk result (λ s. s ≡ stripe.now) }
    ensures memory { IfErr result (λ f. f ≡ Memory) }
{
    let Ok(copy) = stripe.copy(alloc) else {
        return Err(PlanFault::Memory);
    };
    Ok(copy)
}

// How many of these users a position has.
pub fn share_of(positions: &Stripe, position: usize, users: u32) -> u32
    requires { position < length positions.now.weights }
    ensures { result ≡ share_at positions.now.owners position users }
{
    positions.share(position, users as u64) as u32
}
