// The least common multiple.
ghost use Rattle.std.specs.Prelude.{◌<◌, ◌≤◌, ◌^◌, ℕ, IfSome, IfNone};
ghost use Rattle.ld_num.specs.Multiple.{IsLcm};

use crate::divisor::gcd;

/// The least common multiple of two numbers above 0: both divide it, and it divides each number
/// that both divide. `None` where it is 2^64 or more.
pub fn lcm(a: u64, b: u64) -> Option<u64>
    requires a_positive { 0 < a }
    requires b_positive { 0 < b }
    ensures least { IfSome result (IsLcm a b) }
    ensures too_large { IfNone result ((multiple : ℕ) × IsLcm a b multiple × (2 ^ 64 ≤ multiple)) }
{
    (a / gcd(a, b)).checked_mul(b)
}
