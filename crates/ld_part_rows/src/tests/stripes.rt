// Stripings: which position owns an index, how many it owns, and where an instance stands among them.
ghost use Rattle.std.specs.Prelude.{◌≡◌, ◌<◌, length, slice_index};
ghost use Rattle.ld_stripe.specs.Place.{IsPlace};

use crate::tests::table::{Call, add, add_behind_comma, check, first_word, named, number, numbers};
use ld_stripe::{SegmentedIndex, Stripe};
use std::alloc::Global;
use std::test::Fail;

// Weights, and indices or numbers of them, with the owners or the shares of all positions; or why weights are refused.
const STRIPES: &str = "\
3,2,1,1,1,1,1 owner:0 owner:1 owner:2 owner:3 owner:4 owner:5 => 0 1 2 3 0 1
3,2,1,1,1,1,1 owner:6 owner:7 owner:8 owner:9 owner:10 owner:17 => 4 0 5 6 0 0
3,2,1,1,1,1,1 owner:18446744073709551615 => 1
2,1,3 shares:0 shares:4 shares:6 shares:16 => 0,0,0 2,0,2 2,1,3 6,2,8
199998,2 owner:0 => 0
1*100 owner:99 => 99
_ => NoWeights
0*101 => TooMany
200000,0,1,0 => ZeroWeight(1)
200000,2 => PeriodTooLarge(100001)
18446744073709551615,1 => PeriodTooLarge(18446744073709551615)";

// Weights, and how many indices they are rescaled to, with owners and shares. A position without a share keeps its
// place and owns nothing.
const RESCALED: &str = "\
1,1 3 owner:0 owner:1 owner:2 owner:3 => 0 1 0 0
1,1 1 owner:9 shares:1000 => 0 1000,0";

// The shares of all positions, of which there are so many.
fn shares(alloc: Global, stripe: &Stripe, positions: usize, v: u64) -> Result<String, Fail>
    requires { length stripe.now.weights ≡ positions }
{
    let mut line = String::new(alloc);
    for position in 0..positions {
        add_behind_comma(&mut line, named(alloc, stripe.share(position, v))?)?;
    }
    Ok(line)
}

// What a striping of so many positions answers to the words of a line.
fn told(alloc: Global, stripe: &Stripe, positions: usize, line: &str) -> Result<String, Fail>
    requires { length stripe.now.weights ≡ positions }
{
    let mut answers = String::new(alloc);
    for word in line.split_whitespace() {
        let (call, rest) = word.split_once(':').unwrap_or((word, ""));
        let answer = if call == "owner" {
            named(alloc, stripe.owner(number(rest)))?
        } else {
            shares(alloc, stripe, positions, number(rest))?
        };
        add(&mut answers, answer)?;
    }
    Ok(answers)
}

struct Striping;

impl Call for Striping {
    fn answer(alloc: Global, given: &str) -> Result<String, Fail> {
        let (weights, line) = first_word(given);
        let weights = numbers(alloc, weights)?;
        match Stripe::of_weights(alloc, &weights) {
            Ok(stripe) => told(alloc, &stripe, weights.len(), line),
            Err(fault) => named(alloc, fault),
        }
    }
}

struct Rescaled;

impl Call for Rescaled {
    fn answer(alloc: Global, given: &str) -> Result<String, Fail> {
        let (weights, rest) = first_word(given);
        let (v, line) = first_word(rest);
        let weights = numbers(alloc, weights)?;
        let stripe = Stripe::of_weights(alloc, &weights)?;
        let v = number(v).clamp(1, 100_000);
        told(alloc, &stripe.rescale(alloc, v)?, weights.len(), line)
    }
}

// Where an instance of the first position stands when it is moved forth, back, or to a value.
fn moved(index: SegmentedIndex, stripe: &Stripe, to: &str) -> SegmentedIndex
    requires inside { 0 < length stripe.now.weights }
    requires weighted { 0 < slice_index stripe.now.weights 0 }
    requires place { IsPlace stripe.now.owners 0 index.scaled index.unscaled }
    ensures { IsPlace stripe.now.owners 0 result.scaled result.unscaled }
{
    let mut index = index;
    if to == "next" && index.unscaled <= 1_000_000 {
        index.next(stripe, 0);
    } else if to == "prev" && index.scaled >= 1 {
        index.prev(stripe, 0);
    } else {
        index.go_to(stripe, 0, number(to).min(1_000_000));
    }
    index
}

/// Owners and shares, and weights that are refused.
#[test]
fn stripes(rt: HostRuntime) -> Result<(), Fail> {
    check::<Striping, _>(&rt, STRIPES)
}

/// Stripings that are rescaled.
#[test]
fn rescaled_stripes(rt: HostRuntime) -> Result<(), Fail> {
    check::<Rescaled, _>(&rt, RESCALED)
}

/// The places of a segmented index: forth, to a value and back.
#[test]
fn segmented_indices(rt: HostRuntime) -> Result<(), Fail> {
    let alloc = rt.alloc();
    let stripe = Stripe::of_weights(alloc, &[3, 2, 1, 1, 1, 1, 1])?;
    let begin = SegmentedIndex::new();
    let first = moved(begin, &stripe, "next");
    let second = moved(first, &stripe, "next");
    let third = moved(second, &stripe, "next");
    let below = moved(third, &stripe, "7");
    let before = moved(below, &stripe, "prev");
    let last = moved(before, &stripe, "prev");
    let mut line = String::new(alloc);
    for index in [begin, first, second, third, below, before, last] {
        add(
            &mut line,
            format!(in alloc; "{}@{}", index.scaled, index.unscaled)?,
        )?;
    }
    assert_eq!(rt; line.as_str(), "0@0 1@1 2@5 3@8 2@5 1@1 0@0");
    Ok(())
}
