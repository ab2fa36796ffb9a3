// The weights of a filled sequence.
ghost use Rattle.std.specs.Prelude.{◌≡◌, ◌≢◌, ◌+◌, ◌-◌, ◌*◌, ◌<◌, ◌≤◌, ◌^◌, ℕ, All, length, sum, min, IfOk, IfErr, IfSome, IfNone};
ghost use Rattle.std.specs.Int.{◌∣◌};
ghost use Rattle.ld_segment.specs.Points.{IsFilled, IsAtMostOne};
ghost use Rattle.ld_segment.specs.Weights.{denominators, greatest_period, HasPeriod, HasWeights, IsLeastMultiple, IsPeriodRefusal};
ghost use Rattle.ld_segment.specs.declared.fault.SegmentFault.{SegmentFault};

use crate::fault::SegmentFault;
use ld_num::{Frac, lcm};
use std::alloc::{AllocError, Global};

/// The greatest period that a sequence may have, in indices.
const GREATEST_PERIOD: u64 = 100_000;

// The weights of the positions between points that cut the whole test, in order.
pub fn weights_of(alloc: Global, points: &[Frac]) -> Result<Vec<u64>, SegmentFault>
    requires filled { IsFilled points.now }
    ensures weights { IfOk result (λ weights. HasWeights points.now (sum weights.items) weights.items) }
    ensures small { IfOk result (λ weights. sum weights.items ≤ greatest_period) }
    ensures positions { IfOk result (λ weights. length weights.items + 1 ≡ length points.now) }
    ensures weighted { IfOk result (λ weights. All (λ w. 0 < w) weights.items) }
    ensures lowest { IfOk result (λ weights. (d : ℕ) → All (λ w. d ∣ w) weights.items → d ≡ 1) }
    ensures accepted { IfOk result (λ _. (f : SegmentFault) → IsPeriodRefusal points.now f → ⊥) }
    ensures refused { IfErr result (λ f. f ≢ SegmentFault.Memory → IsPeriodRefusal points.now f) }
{
    let period = capped_period(points);
    if period > GREATEST_PERIOD {
        return Err(SegmentFault::PeriodTooLarge(period));
    }
    Ok(weights_at(alloc, points, period)?)
}

// The period of the points, or 2^64 - 1 where that is less.
fn capped_period(points: &[Frac]) -> u64
    requires { IsFilled points.now }
    ensures { (period : ℕ) × HasPeriod points.now period × (result ≡ min period (2 ^ 64 - 1)) }
{
    common_denominator(points).unwrap_or(u64::MAX)
}

// The least common multiple of the points' denominators, or none where it is 2^64 or more.
fn common_denominator(points: &[Frac]) -> Option<u64>
    ensures least { IfSome result (λ multiple. IsLeastMultiple (denominators points.now) multiple) }
    ensures too_large { IfNone result ((multiple : ℕ) × IsLeastMultiple (denominators points.now) multiple × (2 ^ 64 ≤ multiple)) }
{
    let mut multiple = 1;
    for point in points {
        multiple = lcm(multiple, point.den)?;
    }
    Some(multiple)
}

// The weights of the points at their period.
fn weights_at(alloc: Global, points: &[Frac], period: u64) -> Result<Vec<u64>, AllocError>
    requires filled { IsFilled points.now }
    requires period { HasPeriod points.now period }
    requires small { period ≤ greatest_period }
    ensures { IfOk result (λ weights. HasWeights points.now period weights.items) }
{
    let mut weights = Vec::with_capacity(alloc, points.len() - 1)?;
    for position in 1..points.len() {
        let from = parts_below(&points[position - 1], period);
        let to = parts_below(&points[position], period);
        weights.push(to - from)?;
    }
    Ok(weights)
}

// How many lie below a point where the whole test is cut into this many equal parts.
fn parts_below(point: &Frac, parts: u64) -> u64
    requires whole { point.now.den ∣ parts }
    requires inside { IsAtMostOne point.now }
    ensures { result * point.now.den ≡ point.now.num * parts }
{
    parts / point.den * point.num
}
