// The weights of the positions, before they are given indices.
ghost use Rattle.std.specs.Prelude.{◌≡◌, ◌<◌, ◌≤◌, ◌-◌, ◌/◌, ◌^◌, All, length, map, sum, min, IfOk, IfNone};
ghost use Rattle.ld_stripe.specs.StripeFault.{first_zero};
ghost use Rattle.ld_stripe.specs.Striping.{IsGreatestDivisor, IsLowestTerms};

use ld_num::gcd;
use std::alloc::{AllocError, Global};

// The first position whose weight is zero.
pub fn first_zero(weights: &[u64]) -> Option<usize>
    ensures first { result ≡ first_zero weights.now }
    ensures none { IfNone result (All (λ w. 0 < w) weights.now) }
{
    weights.iter().position(|weight| *weight == 0)
}

// The greatest common divisor of all the numbers.
fn common_divisor(numbers: &[u64]) -> u64
    requires { 0 < sum numbers.now }
    ensures greatest { IsGreatestDivisor numbers.now result }
    ensures positive { 0 < result }
{
    let mut divisor = 0;
    for number in numbers {
        divisor = gcd(divisor, *number);
    }
    divisor
}

// The numbers, each divided by the greatest common divisor of all.
pub fn in_lowest_terms(alloc: Global, numbers: &[u64]) -> Result<Vec<u64>, AllocError>
    requires { 0 < sum numbers.now }
    ensures terms { IfOk result (λ reduced. IsLowestTerms numbers.now reduced.items) }
    ensures each { IfOk result (λ reduced. length reduced.items ≡ length numbers.now) }
    ensures some { IfOk result (λ reduced. 0 < sum reduced.items) }
    ensures at_most { IfOk result (λ reduced. sum reduced.items ≤ sum numbers.now) }
{
    quotients(alloc, numbers, common_divisor(numbers))
}

// Each number divided by the divisor.
fn quotients(alloc: Global, numbers: &[u64], divisor: u64) -> Result<Vec<u64>, AllocError>
    requires { 0 < divisor }
    ensures { IfOk result (λ quotients. quotients.items ≡ map (λ n. n / divisor) numbers.now) }
{
    numbers.iter().map(|number| number / divisor).collect(alloc)
}

// The sum, or the greatest `u64` where that is less.
pub fn capped_sum(numbers: &[u64]) -> u64
    ensures { result ≡ min (sum numbers.now) (2 ^ 64 - 1) }
{
    let mut total = 0u64;
    for number in numbers {
        total = total.saturating_add(*number);
    }
    total
}
