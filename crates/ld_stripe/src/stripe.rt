ghost use Rattle.std.specs.Prelude.{◌≡◌, ◌<◌, ◌≤◌, length, sum, IfOk};
ghost use Rattle.ld_stripe.specs.Striping.{IsLowestTerms, IsStriping};

use crate::fault::StripeFault;
use crate::pattern::{owners_of, share_of, shares_of};
use crate::weights::{capped_sum, first_zero, in_lowest_terms};
use std::alloc::{AllocError, Global};
use std::marker::Model;

/// The greatest number of weights, one for each segment of a test.
const MOST_WEIGHTS: usize = 100;

/// The greatest period that a striping may have, in indices.
const GREATEST_PERIOD: u64 = 100_000;

/// A striping: it says which position owns each index. It is seen as the weights of the positions,
/// in lowest terms, and the owner of each index of one period.
#[derive(Drop)]
pub struct Stripe {
    weights: Vec<u64>,
    owners: Vec<usize>,
}

impl Model for Stripe {
    ghost use Rattle.std.specs.Prelude.{◌<◌, length};
    ghost use Rattle.ld_stripe.specs.Striping.{Striping, IsStriping};

    ghost Value = { Striping };

    ghost view = { λ s. record { weights = s.weights.items; owners = s.owners.items } };

    ghost invariant = { λ s. IsStriping s.weights.items s.owners.items × (0 < length s.owners.items) };
}

impl Stripe {
    ghost use Rattle.std.specs.Prelude.{◌≡◌, ◌≢◌, ◌<◌, ◌≤◌, ◌%◌, All, length, IfOk, IfErr};
    ghost use Rattle.ld_stripe.specs.Striping.{IsStriping, IsStripingOf, owner_at, share_at, shares_at};
    ghost use Rattle.ld_stripe.specs.StripeFault.{IsRefusal};
    ghost use Rattle.ld_stripe.specs.declared.fault.StripeFault.{StripeFault};

    /// The striping of weights, one for each position.
    ///
    /// The weights are divided by their greatest common divisor, and their sum is then the period.
    /// Refused are, in this order, no weights, more than 100 of them, a weight that is zero and a
    /// period of more than 100,000.
    pub fn of_weights(alloc: Global, weights: &[u64]) -> Result<Stripe, StripeFault>
        ensures striping { IfOk result (λ s. IsStripingOf weights.now s) }
        ensures positions { IfOk result (λ s. length s.weights ≡ length weights.now) }
        ensures weighted { IfOk result (λ s. All (λ w. 0 < w) s.weights) }
        ensures accepted { IfOk result (λ s. (f : StripeFault) → IsRefusal weights.now f → ⊥) }
        ensures refused { IfErr result (λ f. f ≢ StripeFault.Memory → IsRefusal weights.now f) }
    {
        if weights.is_empty() {
            return Err(StripeFault::NoWeights);
        }
        if weights.len() > MOST_WEIGHTS {
            return Err(StripeFault::TooMany);
        }
        if let Some(position) = first_zero(weights) {
            return Err(StripeFault::ZeroWeight(position));
        }
        let weights = in_lowest_terms(alloc, weights)?;
        let period = capped_sum(&weights);
        if period > GREATEST_PERIOD {
            return Err(StripeFault::PeriodTooLarge(period));
        }
        let owners = owners_of(alloc, &weights, period)?;
        Ok(Stripe { weights, owners })
    }

    /// The position that owns an index, counted from 0.
    pub fn owner(&self, index: u64) -> usize
        ensures owner { result ≡ owner_at self.now.owners index }
        ensures striping { IsStriping self.now.weights self.now.owners }
    {
        let period = self.owners.len() as u64;
        self.owners[(index % period) as usize]
    }

    // The weights of the positions.
    pub(crate) fn weights(&self) -> &[u64]
        ensures weights { result.now ≡ self.now.weights }
        ensures striping { IsStriping self.now.weights self.now.owners }
        ensures some { 0 < length self.now.owners }
    {
        self.weights.as_slice()
    }

    // The owners of one period.
    pub(crate) fn owners(&self) -> &[usize]
        ensures { result.now ≡ self.now.owners }
    {
        self.owners.as_slice()
    }

    /// How many of the indices below `v` a position owns.
    pub fn share(&self, position: usize, v: u64) -> u64
        requires { position < length self.now.weights }
        ensures share { result ≡ share_at self.now.owners position v }
        ensures striping { IsStriping self.now.weights self.now.owners }
    {
        share_of(&self.weights, &self.owners, position, v)
    }

    /// An equal striping.
    ///
    /// Fails where there is no memory for it.
    pub fn copy(&self, alloc: Global) -> Result<Stripe, StripeFault>
        ensures equal { IfOk result (λ s. s ≡ self.now) }
        ensures memory { IfErr result (λ f. f ≡ StripeFault.Memory) }
    {
        let weights = Vec::from_slice(alloc, self.weights.as_slice())?;
        let owners = Vec::from_slice(alloc, self.owners.as_slice())?;
        Ok(Stripe { weights, owners })
    }

    /// The striping of the shares that the positions have of `v` indices, from 1 to 100,000. Each
    /// position keeps its place, and one without a share owns nothing.
    pub fn rescale(&self, alloc: Global, v: u64) -> Result<Stripe, StripeFault>
        requires some { 1 ≤ v }
        requires few { v ≤ 100000 }
        ensures striping { IfOk result (IsStripingOf (shares_at self.now v)) }
        ensures positions { IfOk result (λ s. length s.weights ≡ length self.now.weights) }
        ensures memory { IfErr result (λ f. f ≡ StripeFault.Memory) }
    {
        let shares = shares_of(alloc, &self.weights, &self.owners, v)?;
        let (weights, owners) = rescaled(alloc, &shares)?;
        Ok(Stripe { weights, owners })
    }
}

// The shares in lowest terms, and the owners of one period of theirs.
fn rescaled(alloc: Global, shares: &[u64]) -> Result<(Vec<u64>, Vec<usize>), AllocError>
    requires some { 0 < sum shares.now }
    requires few { sum shares.now ≤ 100000 }
    ensures lowest_terms { IfOk result (λ pair. IsLowestTerms shares.now pair.0.items) }
    ensures each { IfOk result (λ pair. length pair.0.items ≡ length shares.now) }
    ensures striping { IfOk result (λ pair. IsStriping pair.0.items pair.1.items) }
    ensures some { IfOk result (λ pair. 0 < length pair.1.items) }
{
    let weights = in_lowest_terms(alloc, shares)?;
    let owners = owners_of(alloc, &weights, capped_sum(&weights))?;
    Ok((weights, owners))
}
