// Fractions.
ghost use Rattle.std.specs.Prelude.{◌≤◌};
ghost use Rattle.ld_num.specs.Terms.{AreCoprime};

use crate::divisor::gcd;
use crate::fault::NumFault;
use crate::reading::read_text;
use std::cmp::Ordering;

/// A fraction in lowest terms: the denominator is at least 1, and no number but 1 divides both. So
/// a value has one such pair.
#[derive(Clone, Copy, PartialEq, Eq)]
pub struct Frac {
    /// The numerator.
    pub num: u64,
    /// The denominator.
    pub den: u64,
    pub ghost positive: { 1 ≤ den },
    pub ghost lowest: { AreCoprime num den },
}

impl Frac {
    ghost use Rattle.std.specs.Prelude.{◌≡◌, ◌<◌, ◌*◌, ◌↔◌, IfOk, IfErr};
    ghost use Rattle.ld_num.specs.Fraction.{value_cmp, HasNumbers};
    ghost use Rattle.ld_num.specs.Written.{Written, IsWritten};
    ghost use Rattle.ld_num.specs.Reading.{IsValueOf, IsRefusal};
    ghost use Rattle.ld_num.specs.declared.fault.NumFault.{NumFault};

    /// Reads a number that is written as a quotient `1/3`, as digits `2`, as a decimal `0.25`, or
    /// as a percentage `25%` or `2.5%`. Each run of digits has 1 to 9 of them.
    ///
    /// Refused are, in this order, an empty text, one that isn't written so, a longer run of
    /// digits, and a quotient whose second number is zero.
    pub fn read(text: &[u8]) -> Result<Frac, NumFault>
        ensures value { IfOk result (λ q. (w : Written) × IsWritten text.now w × IsValueOf w q) }
        ensures accepted { IfOk result (λ _. (f : NumFault) → IsRefusal text.now f → ⊥) }
        ensures refused { IfErr result (λ f. IsRefusal text.now f) }
    {
        if text.is_empty() {
            return Err(NumFault::Empty);
        }
        read_text(text)
    }

    /// The order of the values of two fractions. Values are equal exactly where the fractions are.
    pub fn compare(&self, other: &Frac) -> Ordering
        ensures order { result ≡ value_cmp self.now other.now }
        ensures equal { (result ≡ Ordering.Equal) ↔ HasNumbers self.now other.now.num other.now.den }
    {
        let left = self.num as u128 * other.den as u128;
        let right = other.num as u128 * self.den as u128;
        left.cmp(&right)
    }

    // The fraction of this value, in lowest terms.
    pub(crate) fn reduced(num: u64, den: u64) -> Frac
        requires { 0 < den }
        ensures { result.num * den ≡ num * result.den }
    {
        let divisor = gcd(num, den);
        Frac {
            num: num / divisor,
            den: den / divisor,
        }
    }
}
