// Numbers: divisors, multiples, fractions and durations.

use crate::tests::table::{Call, check, first_word, named, number, said, text_of};
use ld_num::{Frac, gcd, lcm, print_duration, read_duration};
use std::alloc::Global;
use std::test::Fail;

// Pairs of numbers, with their greatest common divisor, and their least common multiple: `-` where there is none, and
// `none` where it is 2^64 or more.
const PAIRS: &str = "\
0 0 => 0 -
0 7 => 7 -
7 0 => 7 -
1 1 => 1 1
4 6 => 2 12
7 5 => 1 35
12 18 => 6 36
18 12 => 6 36
17 5 => 1 85
18446744073709551615 1 => 1 18446744073709551615
18446744073709551615 18446744073709551614 => 1 none
9223372036854775808 2 => 2 9223372036854775808
9223372036854775808 3 => 1 none";

// Texts, and the fractions in lowest terms that they are written for, or why they are refused.
const FRACTIONS: &str = "\
1/3 => 1/3
2/6 => 1/3
0/5 => 0/1
2 => 2/1
0.25 => 1/4
0.5 => 1/2
25% => 1/4
2.5% => 1/40
101% => 101/100
999999999.000000001% => 999999999000000001/100000000000
=> Empty
/ => BadDigit
-1/4 => BadDigit
+1 => BadDigit
1/2% => BadDigit
1/0.5 => BadDigit
.5 => BadDigit
5. => BadDigit
5%% => BadDigit
% => BadDigit
1234567890 => TooLarge
1234567890/0 => TooLarge
1/0 => ZeroDenominator
0/000 => ZeroDenominator";

// Pairs of fractions, and their order.
const ORDERS: &str = "\
1/3 0.5 => Less
50% 0.5 => Equal
2 1.999999999 => Greater
999999999 0.000000001% => Greater";

// Texts, and their nanoseconds, or why they are refused.
const DURATIONS: &str = "\
1.5s => 1500000000
1h30m => 5400000000000
1500 => 1500000000
0.000001 => 1
30d => 2592000000000000
0 => 0
5.s.5s => 5500000000
3us => 3000
3\u{b5}s3\u{3bc}s => 6000
1d1h1m1s1ms1us1ns => 90061001001001
=> Empty
s => BadDigit
.s => BadDigit
1.2.3s => BadDigit
1h30 => BadDigit
-1s => BadDigit
5x => BadUnit
1 s => BadUnit
12345678901234567s5x => BadUnit
2592000001ms => TooLarge
30d0.1ns => TooLarge
0.0000000000s => TooLarge
9999999999999999d9999999999999999d => TooLarge
0.1ns => NotWhole
0.5ns0.5ns => NotWhole";

// Nanoseconds, and what is printed of them behind a text.
const PRINTED: &str = "\
0 => at 0ns
1500000000 => at 1500000000ns
18446744073709551615 => at 18446744073709551615ns";

struct Pair;

impl Call for Pair {
    fn answer(alloc: Global, given: &str) -> Result<String, Fail> {
        let (a, b) = first_word(given);
        let (a, b) = (number(a), number(b));
        let divisor = gcd(a, b);
        if a == 0 || b == 0 {
            return Ok(format!(in alloc; "{divisor} -")?);
        }
        match lcm(a, b) {
            Some(multiple) => Ok(format!(in alloc; "{divisor} {multiple}")?),
            None => Ok(format!(in alloc; "{divisor} none")?),
        }
    }
}

struct Fraction;

impl Call for Fraction {
    fn answer(alloc: Global, given: &str) -> Result<String, Fail> {
        match Frac::read(given.as_bytes()) {
            Ok(fraction) => Ok(format!(in alloc; "{}/{}", fraction.num, fraction.den)?),
            Err(fault) => named(alloc, fault),
        }
    }
}

struct Order;

impl Call for Order {
    fn answer(alloc: Global, given: &str) -> Result<String, Fail> {
        let (left, right) = first_word(given);
        let left = Frac::read(left.as_bytes())?;
        let right = Frac::read(right.as_bytes())?;
        named(alloc, left.compare(&right))
    }
}

struct Duration;

impl Call for Duration {
    fn answer(alloc: Global, given: &str) -> Result<String, Fail> {
        match read_duration(given.as_bytes()) {
            Ok(length) => Ok(format!(in alloc; "{length}")?),
            Err(fault) => named(alloc, fault),
        }
    }
}

struct Printed;

impl Call for Printed {
    fn answer(alloc: Global, given: &str) -> Result<String, Fail> {
        let mut text = Vec::from_slice(alloc, b"at ")?;
        print_duration(number(given), &mut text)?;
        said(alloc, text_of(&text))
    }
}

/// Divisors and multiples.
#[test]
fn divisors_and_multiples(rt: HostRuntime) -> Result<(), Fail> {
    check::<Pair, _>(&rt, PAIRS)
}

/// Fractions.
#[test]
fn fractions(rt: HostRuntime) -> Result<(), Fail> {
    check::<Fraction, _>(&rt, FRACTIONS)
}

/// The order of fractions.
#[test]
fn orders(rt: HostRuntime) -> Result<(), Fail> {
    check::<Order, _>(&rt, ORDERS)
}

/// Durations.
#[test]
fn durations(rt: HostRuntime) -> Result<(), Fail> {
    check::<Duration, _>(&rt, DURATIONS)
}

/// Durations as they are printed.
#[test]
fn printed_durations(rt: HostRuntime) -> Result<(), Fail> {
    check::<Printed, _>(&rt, PRINTED)
}
