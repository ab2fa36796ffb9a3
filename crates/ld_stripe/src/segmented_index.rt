ghost use Rattle.std.specs.Prelude.{◌≡◌, ◌+◌, ◌-◌, ◌<◌, ◌≤◌, ◌^◌, ℕ, List, length, slice_index};
ghost use Rattle.ld_stripe.specs.Place.{IsPlace};
ghost use Rattle.ld_stripe.specs.Striping.{share_at};

use crate::pattern::{next_owned, owned_below};
use crate::stripe::Stripe;

/// Where an instance stands among the indices that its position owns, as k6's execution segments count
/// them: `unscaled` is the index that it stands at, plus 1, and `scaled` the number of that index among
/// those that the position owns, from 1. Both are 0 before the first.
#[derive(Clone, Copy, PartialEq, Eq)]
pub struct SegmentedIndex {
    pub scaled: u64,
    pub unscaled: u64,
}

impl SegmentedIndex {
    /// The place before the first index, (0, 0).
    pub fn new() -> SegmentedIndex
        ensures scaled { result.scaled ≡ 0 }
        ensures unscaled { result.unscaled ≡ 0 }
        ensures place { (owners : List ℕ) (j : ℕ) → IsPlace owners j result.scaled result.unscaled }
    {
        SegmentedIndex {
            scaled: 0,
            unscaled: 0,
        }
    }

    /// Moves to the next index that the position owns. The position has a weight.
    pub fn next(&mut self, stripe: &Stripe, position: usize)
        requires inside { position < length stripe.now.weights }
        requires weighted { 0 < slice_index stripe.now.weights position }
        requires place { IsPlace stripe.now.owners position self.old.scaled self.old.unscaled }
        requires far { self.old.unscaled ≤ 10 ^ 12 }
        ensures place { IsPlace stripe.now.owners position self.new.scaled self.new.unscaled }
        ensures scaled { self.new.scaled ≡ self.old.scaled + 1 }
    {
        let index = next_owned(stripe.weights(), stripe.owners(), position, self.unscaled);
        self.scaled += 1;
        self.unscaled = index + 1;
    }

    /// Moves to the index that the position owns before this one, or to (0, 0).
    pub fn prev(&mut self, stripe: &Stripe, position: usize)
        requires inside { position < length stripe.now.weights }
        requires place { IsPlace stripe.now.owners position self.old.scaled self.old.unscaled }
        requires some { 1 ≤ self.old.scaled }
        ensures place { IsPlace stripe.now.owners position self.new.scaled self.new.unscaled }
        ensures scaled { self.new.scaled + 1 ≡ self.old.scaled }
    {
        self.scaled -= 1;
        self.unscaled = owned_below(
            stripe.weights(),
            stripe.owners(),
            position,
            self.unscaled - 1,
        );
    }

    /// Moves to the greatest index below `value` that the position owns, or to (0, 0).
    pub fn go_to(&mut self, stripe: &Stripe, position: usize, value: u64)
        requires inside { position < length stripe.now.weights }
        requires place { IsPlace stripe.now.owners position self.old.scaled self.old.unscaled }
        requires far { value ≤ 10 ^ 12 }
        ensures place { IsPlace stripe.now.owners position self.new.scaled self.new.unscaled }
        ensures scaled { self.new.scaled ≡ share_at stripe.now.owners position value }
        ensures below { self.new.unscaled ≤ value }
    {
        self.scaled = stripe.share(position, value);
        self.unscaled = owned_below(stripe.weights(), stripe.owners(), position, value);
    }
}
