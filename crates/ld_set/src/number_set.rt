ghost use Rattle.std.specs.Prelude.{◌≡◌, ◌≢◌, ◌+◌, ◌^◌, ◌<◌, ◌≤◌, ◌==◌, ◌&&◌, ℕ, List, All, IfOk, IfSome, IfNone, false, not, [], filter, length, slice_get, slice_index};
ghost use Rattle.std.specs.Int.{bit_at};
ghost use Rattle.std.specs.List.{range_with_len};
ghost use Rattle.std.specs.List.Sorted.{IsStrictlyIncreasing};
ghost use Rattle.ld_set.specs.SetView.{is_among, with_number, without_number};
ghost use Rattle.ld_set.specs.Words.{IsFirstMatch, as_wanted, matches};

use std::alloc::{AllocError, Global};
use std::marker::Model;

/// A set of numbers below a limit, one bit for each. All of its memory is taken when it is made: 8 bytes for each 64
/// numbers below the limit.
#[derive(Drop)]
pub struct NumberSet {
    // Bit k % 64 of word k / 64 says whether k is in the set.
    words: Vec<u64>,
    // The first word that isn't 0, or how many words there are.
    from: usize,
    count: u32,
    limit: u32,
}

impl Model for NumberSet {
    ghost use Rattle.ld_set.specs.SetView.{SetView};
    ghost use Rattle.ld_set.specs.Words.{IsKept, numbers_of};

    ghost Value = { SetView };

    ghost view = { λ s. record { numbers = numbers_of s.words.items s.limit; limit = s.limit } };

    ghost invariant = { λ s. IsKept s.words.items s.from s.count s.limit };
}

impl NumberSet {
    /// A set of no numbers, which may hold all numbers below the limit.
    ///
    /// Fails where the allocator gives no memory for them.
    pub fn new(alloc: Global, limit: u32) -> Result<NumberSet, AllocError>
        ensures empty { IfOk result (λ set. set ≡ record { numbers = []; limit = limit }) }
    {
        let from = limit.div_ceil(64) as usize;
        let words = vec![in alloc; 0u64; from]?;
        Ok(NumberSet {
            words,
            from,
            count: 0,
            limit,
        })
    }

    /// A set of all numbers below the limit.
    ///
    /// Fails where the allocator gives no memory for them.
    pub fn full(alloc: Global, limit: u32) -> Result<NumberSet, AllocError>
        ensures all { IfOk result (λ set. set ≡ record { numbers = range_with_len 0 limit; limit = limit }) }
    {
        let mut words = vec![in alloc; u64::MAX; limit.div_ceil(64) as usize]?;
        if limit % 64 > 0 {
            words[limit as usize / 64] = (1u64 << (limit % 64)) - 1;
        }
        Ok(NumberSet {
            words,
            from: 0,
            count: limit,
            limit,
        })
    }

    /// Puts a number below the limit into the set. One that is in it changes nothing.
    pub fn insert(&mut self, number: u32)
        requires below { number < self.old.limit }
        ensures numbers { self.new.numbers ≡ with_number number self.old.numbers }
        ensures limit { self.new.limit ≡ self.old.limit }
    {
        if !self.contains(number) {
            let word = number as usize / 64;
            self.words[word] |= 1u64 << (number % 64);
            self.count += 1;
            self.from = self.from.min(word);
        }
    }

    /// Takes a number out of the set. One that isn't in it changes nothing.
    pub fn remove(&mut self, number: u32)
        ensures numbers { self.new.numbers ≡ without_number number self.old.numbers }
        ensures limit { self.new.limit ≡ self.old.limit }
    {
        if self.contains(number) {
            self.words[number as usize / 64] &= !(1u64 << (number % 64));
            self.count -= 1;
            self.from = first_used(&self.words, self.from);
        }
    }

    /// Whether the number is in the set. It may be any number.
    pub fn contains(&self, number: u32) -> bool
        ensures among { result ≡ is_among self.now.numbers number }
    {
        number < self.limit && self.words[number as usize / 64] >> (number % 64) & 1 == 1
    }

    /// The least number of the set, at one look. None exactly where the set is empty.
    pub fn least(&self) -> Option<u32>
        ensures first { result ≡ slice_get self.now.numbers 0 }
    {
        let word = *self.words.get(self.from)?;
        Some(self.from as u32 * 64 + word.trailing_zeros())
    }

    /// The least number that is in both sets, whose limits may differ, at one look at each word. None exactly where there is
    /// none.
    pub fn least_with(&self, other: &NumberSet) -> Option<u32>
        ensures first { result ≡ slice_get (filter (is_among other.now.numbers) self.now.numbers) 0 }
    {
        first_match(&self.words, &other.words, true)
    }

    /// The least number of this set that isn't in the other, whose limit may differ, at one look at each word. None exactly
    /// where there is none.
    pub fn least_without(&self, other: &NumberSet) -> Option<u32>
        ensures first { result ≡ slice_get (filter (λ k. not (is_among other.now.numbers k)) self.now.numbers) 0 }
    {
        first_match(&self.words, &other.words, false)
    }

    /// How many numbers are in the set. Each is above the one before, and below the limit.
    pub fn count(&self) -> u32
        ensures count { result ≡ length self.now.numbers }
        ensures rising { IsStrictlyIncreasing self.now.numbers }
        ensures below { All (λ number. number < self.now.limit) self.now.numbers }
    {
        self.count
    }
}

// The first word from this one on that isn't 0, or how many words there are.
fn first_used(words: &[u64], from: usize) -> usize
    requires within { from ≤ length words.now }
    ensures within { result ≤ length words.now }
    ensures behind { from ≤ result }
    ensures before { (k : ℕ) → from ≤ k → k < result → slice_index words.now k ≡ 0 }
    ensures used { result < length words.now → slice_index words.now result ≢ 0 }
{
    let mut at = from;
    'words: while at < words.len() && words[at] == 0 {
        at += 1;
    }
    at
}

// The least number whose bit is set in these words, and in the others as it is wanted. A word that the others lack is 0.
fn first_match(words: &[u64], others: &[u64], wanted: bool) -> Option<u32>
    requires few { length words.now ≤ 2 ^ 26 }
    ensures some { IfSome result (IsFirstMatch words.now others.now wanted) }
    ensures none { IfNone result ((k : ℕ) → matches words.now others.now wanted k ≡ false) }
{
    for at in 0..words.len() {
        let other = others.get(at).copied().unwrap_or(0);
        let bits = matching_bits(words[at], other, wanted);
        if bits != 0 {
            return Some(at as u32 * 64 + bits.trailing_zeros());
        }
    }
    None
}

// The bits of a word that the other word has too, or else those that it hasn't.
fn matching_bits(word: u64, other: u64, wanted: bool) -> u64
    ensures { (i : ℕ) → i < 64 → (bit_at result i == 1) ≡ ((bit_at word i == 1) && as_wanted wanted (bit_at other i == 1)) }
{
    if wanted { word & other } else { word & !other }
}
