// Arrivals: how many are planned, when they are due, and which a position owns.

use crate::tests::table::{Call, add, check, first_word, may_cross, named, number};
use ld_arrival::{ArrivalFault, Arrivals, Ticker};
use ld_base::{IndexSource, Stage};
use ld_stripe::Stripe;
use std::alloc::Global;
use std::test::Fail;

// Rates, units and durations, with the number of arrivals and the moments of the first three, which are rounded down;
// or why they are refused, in the order in which they are looked at. 86400000000000 is a day.
const ARRIVALS: &str = "\
3 1000000000 1000000000 => 3: 0 333333333 666666666
400000 1000000000 1000000000 => 400000: 0 2500 5000
1 86400000000000 2592000000000000 => 30: 0 86400000000000 172800000000000
1 1000000000 1 => 1: 0
0 1000000000 1000000000 => RateRange
1000001 1000000000 1000000000 => RateRange
0 0 0 => RateRange
1000000 0 1000000000 => DurationRange
1000000 86400000000001 1000000000 => DurationRange
1000000 1000000000 0 => DurationRange
1000000 1 2592000000000001 => DurationRange
400001 1000000000 1000000000 => TooManyArrivals(400001)
400000 1000000000 1000000001 => TooManyArrivals(400001)
1000000 1000000000 1000000000 => TooManyArrivals(1000000)
1000000 1 2592000000000000 => TooManyArrivals(18446744073709551615)";

// A start rate, a unit and stages, each a target and a length, with the number of arrivals and the moments of the first
// four, which are rounded up; or why they are refused, in the order in which they are looked at. An arrival at the end
// isn't planned, and a stage of length 0 jumps.
const RAMPS: &str = "\
0 1000000000 10:1000000000 => 4: 447213596 632455533 774596670 894427191
0 1000000000 10:0 10:500000000 => 4: 100000000 200000000 300000000 400000000
10 1000000000 0:1000000000 => 4: 105572810 225403331 367544468 552786405
0 1000000000 2:1000000000 2:1000000000 => 2: 1000000000 1500000000
1000000 1000000000 1000000:400000001 => 400000: 1000 2000 3000 4000
0 1 0:2592000000000000 => 0:
1 1 => 0:
1000001 0 1:1 => RateRange
1 0 1:1 1000001:1 => RateRange
1 0 1:1 => DurationRange
1 86400000000001 1:1 => DurationRange
1000000 1 1000000:2592000000000000 1000000:1 => DurationRange
1000000 1000000000 1000000:1000000000 => TooManyArrivals(999999)
1000000 1 1000000:2592000000000000 => TooManyArrivals(18446744073709551615)";

// A rate, a unit, a duration, and a position of two with equal weights, with what its ticker gives: arrivals at their
// moments.
const TICKERS: &str = "\
4 1000000000 1000000000 0 => 0@0 2@500000000 none none
4 1000000000 1000000000 1 => 1@250000000 3@750000000 none none";

// The arrivals that a rate, a unit and a duration say.
fn arrivals(alloc: Global, line: &str) -> Result<Arrivals, ArrivalFault> {
    let (rate, rest) = first_word(line);
    let (unit, rest) = first_word(rest);
    let (duration, _) = first_word(rest);
    Arrivals::constant(alloc, number(rate), number(unit), number(duration))
}

// The stages that words say, each a target and a length.
fn stages(alloc: Global, words: &str) -> Result<Vec<Stage>, Fail> {
    let mut list = Vec::new(alloc);
    for word in words.split_whitespace() {
        let (target, length) = word.split_once(':').unwrap_or((word, ""));
        list.push(Stage {
            target: number(target),
            length: number(length),
        })?;
    }
    Ok(list)
}

// How many arrivals there are, and the moments of the first ones; or why there are none.
fn shown(
    alloc: Global,
    arrivals: Result<Arrivals, ArrivalFault>,
    most: u64,
) -> Result<String, Fail> {
    let arrivals = match arrivals {
        Ok(arrivals) => arrivals,
        Err(fault) => return named(alloc, fault),
    };
    let count = arrivals.count();
    let mut line = format!(in alloc; "{count}:")?;
    for k in 0..count.min(most) {
        add(&mut line, named(alloc, arrivals.moment(k))?)?;
    }
    Ok(line)
}

struct Planned;

impl Call for Planned {
    fn answer(alloc: Global, given: &str) -> Result<String, Fail> {
        shown(alloc, arrivals(alloc, given), 3)
    }
}

struct Ramped;

impl Call for Ramped {
    fn answer(alloc: Global, given: &str) -> Result<String, Fail> {
        let (start_rate, rest) = first_word(given);
        let (unit, words) = first_word(rest);
        let list = stages(alloc, words)?;
        let few = list.len().min(100);
        let arrivals = Arrivals::ramping(alloc, number(start_rate), number(unit), &list[..few]);
        shown(alloc, arrivals, 4)
    }
}

/// The next pair of a source.
pub fn next_of<S: IndexSource>(alloc: Global, source: &mut S) -> Result<String, Fail> {
    match source.next() {
        Some((item, moment)) => Ok(format!(in alloc; "{item}@{moment}")?),
        None => Ok(String::from_str(alloc, "none")?),
    }
}

// The ticker of the first of two positions or of the other, by the last word of a line.
fn ticker(alloc: Global, line: &str) -> Result<Ticker, Fail> {
    let arrivals = arrivals(alloc, line)?;
    let stripe = Stripe::of_weights(alloc, &[1, 1])?;
    let position = if line.ends_with(" 0") { 0 } else { 1 };
    Ok(Ticker::new(alloc, arrivals, stripe, position)?)
}

struct Ticked;

impl Call for Ticked {
    fn answer(alloc: Global, given: &str) -> Result<String, Fail> {
        let mut ticker = ticker(alloc, given)?;
        may_cross(&ticker);
        let mut line = String::new(alloc);
        for _ in 0..4 {
            add(&mut line, next_of(alloc, &mut ticker)?)?;
        }
        Ok(line)
    }
}

/// How many arrivals are planned, and when, or why there are none.
#[test]
fn planned_arrivals(rt: HostRuntime) -> Result<(), Fail> {
    check::<Planned, _>(&rt, ARRIVALS)
}

/// The same of rates that ramp through stages.
#[test]
fn ramping_arrivals(rt: HostRuntime) -> Result<(), Fail> {
    check::<Ramped, _>(&rt, RAMPS)
}

/// The two positions of equal weights own every other arrival.
#[test]
fn tickers(rt: HostRuntime) -> Result<(), Fail> {
    check::<Ticked, _>(&rt, TICKERS)
}
