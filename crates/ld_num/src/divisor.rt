// The greatest common divisor.
ghost use Rattle.std.specs.Int.{IsGcd};

/// The greatest common divisor of two numbers: it divides both, and each number that divides both
/// divides it. That of 0 and a number is the number itself.
///
/// It is found by Euclid's algorithm (Elements, book VII, proposition 2).
pub fn gcd(a: u64, b: u64) -> u64
    ensures { IsGcd a b result }
{
    let mut divisor = a;
    let mut rest = b;
    while rest != 0 {
        (divisor, rest) = (rest, divisor % rest);
    }
    divisor
}
