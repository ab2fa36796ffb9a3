// The laws of striping, over all weights.
ghost use Rattle.std.specs.Prelude.{◌≡◌, ◌+◌, ◌<◌, ℕ, List, length, map, sum, slice_index};
ghost use Rattle.std.specs.List.{range_with_len};
ghost use Rattle.ld_stripe.specs.Place.{IsPlace};
ghost use Rattle.ld_stripe.specs.Striping.{IsLowestTerms, IsStriping, IsStripingOf, Striping, owner_at, share_at, shares_at};

/// Weights that are not all zero have at most one form in lowest terms.
pub fn one_form()
    ensures { (weights a b : List ℕ) → 0 < sum weights → IsLowestTerms weights a → IsLowestTerms weights b → a ≡ b }
{}

/// Weights that are not all zero have exactly one striping.
pub fn one_striping()
    ensures exists { (weights : List ℕ) → 0 < sum weights → (owners : List ℕ) × IsStriping weights owners }
    ensures unique { (weights a b : List ℕ) → IsStriping weights a → IsStriping weights b → a ≡ b }
{}

/// Every index has one owner, which is a position with a weight.
pub fn one_owner()
    ensures { (weights owners : List ℕ) → IsStriping weights owners → 0 < sum weights → (x : ℕ) →
        (owner_at owners x < length weights) × (0 < slice_index weights (owner_at owners x)) }
{}

/// Each position owns exactly its weight of the indices of every period, wherever it begins.
pub fn every_period()
    ensures { (weights owners : List ℕ) → IsStriping weights owners → (j v : ℕ) →
        share_at owners j (v + sum weights) ≡ share_at owners j v + slice_index weights j }
{}

/// The shares of all positions sum to the number of indices.
pub fn shares()
    ensures { (weights owners : List ℕ) → IsStriping weights owners → 0 < sum weights → (v : ℕ) →
        sum (map (λ j. share_at owners j v) (range_with_len 0 (length weights))) ≡ v }
{}

/// Among as many indices as some weights sum to, their striping gives each position its weight.
pub fn whole_shares()
    ensures { (weights : List ℕ) (s : Striping) → IsStripingOf weights s → (j : ℕ) →
        share_at s.owners j (sum weights) ≡ slice_index weights j }
{}

/// A striping that is rescaled to `v` gives each position its part of `v` indices: as many of them as
/// the position owned before.
pub fn rescaled_shares()
    ensures { (s r : Striping) (v : ℕ) → IsStriping s.weights s.owners → 0 < sum s.weights → IsStripingOf (shares_at s v) r →
        (j : ℕ) → j < length s.weights → share_at r.owners j v ≡ share_at s.owners j v }
{}

/// The segmented index has one place for each number, so `next` and `prev` undo each other.
pub fn one_place()
    ensures { (owners : List ℕ) (j scaled u v : ℕ) → IsPlace owners j scaled u → IsPlace owners j scaled v → u ≡ v }
{}
