ghost use Rattle.std.specs.Prelude.{◌≡◌, ◌+◌, ◌*◌, ◌<◌, ◌≤◌, ℕ, None, Some, false, true, IfNone, IfOk, IfSome, length, max, replicate, slice_set};
ghost use Rattle.std.specs.List.{Contains};
ghost use Rattle.ld_set.specs.Moments.{comes_by, is_by, is_due, kept_above, lesser_of, moment_at, IsFirstDue, IsLeastAmong};

use std::alloc::{AllocError, Global};
use std::marker::Model;

/// A moment, or none, for each number below a limit. A moment is a number of nanoseconds. All of its memory is taken
/// when it is made: 16 bytes for each number, and half a byte more. A question looks at one place for each 32
/// numbers, and at the numbers of such a block only where what is asked for may be there.
#[derive(Drop)]
pub struct MomentTable {
    moments: Vec<Option<u64>>,
    // The least moment of each block of 32 numbers, or None where none of them has one.
    leasts: Vec<Option<u64>>,
}

impl Model for MomentTable {
    ghost use Rattle.std.specs.Prelude.{ℕ, List, Option};
    ghost use Rattle.ld_set.specs.Moments.{IsKept};

    ghost Value = { List (Option ℕ) };

    ghost view = { λ t. t.moments.items };

    ghost invariant = { λ t. IsKept t.moments.items t.leasts.items };
}

impl MomentTable {
    /// A table of the numbers below the limit, of which none has a moment.
    ///
    /// Fails where the allocator gives no memory for them.
    pub fn new(alloc: Global, limit: u32) -> Result<MomentTable, AllocError>
        ensures none { IfOk result (λ table. table ≡ replicate limit None) }
    {
        let moments = vec![in alloc; None; limit as usize]?;
        let leasts = vec![in alloc; None; limit.div_ceil(32) as usize]?;
        Ok(MomentTable { moments, leasts })
    }

    /// The moment of a number. None where it has none, as from the limit on.
    pub fn get(&self, number: u32) -> Option<u64>
        ensures { result ≡ moment_at self.now number }
    {
        *self.moments.get(number as usize)?
    }

    /// The number, which is below the limit, has this moment from now on, or none.
    pub fn set(&mut self, number: u32, moment: Option<u64>)
        requires below { number < length self.old }
        ensures { self.new ≡ slice_set self.old number moment }
    {
        let block = number as usize / 32;
        let least = self.leasts[block];
        let was_least = is_by(self.moments[number as usize], least);
        self.moments[number as usize] = moment;
        let new_least = if was_least {
            least_in(&self.moments, block, None)
        } else {
            lesser(least, moment)
        };
        self.leasts[block] = new_least;
    }

    /// The least moment above the reading that a number has. None exactly where there is none.
    pub fn least_above(&self, reading: u64) -> Option<u64>
        ensures there { IfSome result (λ m. Contains self.now (Some m)) }
        ensures above { IfSome result (λ m. reading < m) }
        ensures least { IfSome result (λ m. (other : ℕ) → Contains self.now (Some other) → reading < other → m ≤ other) }
        ensures none { IfNone result ((other : ℕ) → Contains self.now (Some other) → other ≤ reading) }
    {
        let mut least = None;
        for block in 0..self.leasts.len() {
            let in_block = above_in(&self.moments, block, self.leasts[block], reading);
            least = lesser(least, in_block);
        }
        least
    }

    /// The least moment that a number has. None exactly where no number has one.
    pub fn least(&self) -> Option<u64>
        ensures there { IfSome result (λ m. Contains self.now (Some m)) }
        ensures least { IfSome result (λ m. (other : ℕ) → Contains self.now (Some other) → m ≤ other) }
        ensures none { IfNone result ((other : ℕ) → Contains self.now (Some other) → ⊥) }
    {
        least_between(&self.leasts, 0, self.leasts.len(), None)
    }

    /// The least number from `from` on whose moment is at most this one. None exactly where there is none.
    pub fn first_due(&self, from: u32, moment: u64) -> Option<u32>
        ensures within { IfSome result (λ number. (from ≤ number) × (number < length self.now)) }
        ensures due { IfSome result (λ number. is_due self.now moment number ≡ true) }
        ensures first { IfSome result (λ number. (k : ℕ) → from ≤ k → k < number → is_due self.now moment k ≡ false) }
        ensures none { IfNone result ((k : ℕ) → from ≤ k → is_due self.now moment k ≡ false) }
    {
        let from = from as usize;
        for block in from / 32..self.leasts.len() {
            let number = due_in(&self.moments, block, self.leasts[block], from, moment);
            if let Some(number) = number {
                return Some(number as u32);
            }
        }
        None
    }
}

// The least moment above the reading in a block of 32 numbers, where `least` is the least of all that are there.
fn above_in(moments: &[Option<u64>], block: usize, least: Option<u64>, reading: u64) -> Option<u64>
    requires within { 32 * block ≤ length moments.now }
    requires least { IsLeastAmong moments.now None (32 * block) (32 * block + 32) least }
    ensures { IsLeastAmong moments.now (Some reading) (32 * block) (32 * block + 32) result }
{
    if least? > reading {
        return least;
    }
    least_in(moments, block, Some(reading))
}

// The least moment above the reading in a block of 32 numbers, or the least of all where there is no reading.
fn least_in(moments: &[Option<u64>], block: usize, reading: Option<u64>) -> Option<u64>
    requires within { 32 * block ≤ length moments.now }
    ensures { IsLeastAmong moments.now reading (32 * block) (32 * block + 32) result }
{
    let from = 32 * block;
    let to = moments.len().min(from + 32);
    least_between(moments, from, to, reading)
}

// The least moment above the reading of the numbers from `from` on and below `to`, or the least of all where there is
// no reading.
fn least_between(
    moments: &[Option<u64>],
    from: usize,
    to: usize,
    reading: Option<u64>,
) -> Option<u64>
    requires order { from ≤ to }
    requires within { to ≤ length moments.now }
    ensures { IsLeastAmong moments.now reading from to result }
{
    let mut least = None;
    for number in from..to {
        least = lesser(least, if_above(moments[number], reading));
    }
    least
}

// The moment, if there is one above the reading.
fn if_above(moment: Option<u64>, reading: Option<u64>) -> Option<u64>
    ensures { result ≡ kept_above reading moment }
{
    match (moment, reading) {
        (Some(moment), Some(reading)) if moment <= reading => None,
        _ => moment,
    }
}

// The lesser of two moments, or the one that there is.
fn lesser(left: Option<u64>, right: Option<u64>) -> Option<u64>
    ensures { result ≡ lesser_of left right }
{
    match (left, right) {
        (Some(left), Some(right)) => Some(left.min(right)),
        _ => left.or(right),
    }
}

// The first due number of a block of 32 numbers from `from` on, where `least` is the least moment of the block.
fn due_in(
    moments: &[Option<u64>],
    block: usize,
    least: Option<u64>,
    from: usize,
    moment: u64,
) -> Option<usize>
    requires within { 32 * block ≤ length moments.now }
    requires least { IsLeastAmong moments.now None (32 * block) (32 * block + 32) least }
    ensures { IsFirstDue moments.now moment (max from (32 * block)) (32 * block + 32) result }
{
    if !comes_by(least, moment) {
        return None;
    }
    let first = 32 * block;
    let to = moments.len().min(first + 32);
    first_due_between(moments, from.max(first), to, moment)
}

// The first due number from `from` on and below `to`.
fn first_due_between(moments: &[Option<u64>], from: usize, to: usize, moment: u64) -> Option<usize>
    requires within { to ≤ length moments.now }
    ensures { IsFirstDue moments.now moment from to result }
{
    for number in from..to {
        if comes_by(moments[number], moment) {
            return Some(number);
        }
    }
    None
}

// Whether there is a moment, and it comes by another.
fn comes_by(least: Option<u64>, moment: u64) -> bool
    ensures { result ≡ comes_by moment least }
{
    match least {
        Some(least) => least <= moment,
        None => false,
    }
}

// Whether there are two moments, and the first comes by the second.
fn is_by(moment: Option<u64>, least: Option<u64>) -> bool
    ensures { result ≡ is_by moment least }
{
    match least {
        Some(least) => comes_by(moment, least),
        None => false,
    }
}
