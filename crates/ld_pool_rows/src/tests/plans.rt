// Plans of tests of scenarios at arrival rates, each of which lasts a second.

use crate::tests::table::{next_count, parts};
use ld_options::Options;
use ld_plan::Plan;
use ld_segment::{Segment, Sequence};
use std::alloc::Global;
use std::str::SplitWhitespace;
use std::test::Fail;

// What stands in front of a test's scenarios.
const FRONT: &str = "{\"options\":{\"scenarios\":{";

// What stands behind them.
const BACK: &str = "}},\"scripts\":{\"default\":[]}}";

// What stands between a scenario's name and its other fields.
const COMMON: &str = "{\"executor\":\"constant-arrival-rate\",\"duration\":\"1s\",";

// How many arrivals a second a scenario has, how many users are made for it, and how many there may be.
#[derive(Clone, Copy)]
struct Rates {
    rate: u32,
    made: u32,
    most: u32,
}

/// The plan that a text tells: of the scenario `main` how many arrivals a second, the users that are made and those
/// that there may be; the segment, the limit on entries, and the scenario's other fields. Behind a stroke each, further
/// scenarios follow: their names, the same numbers, and their other fields.
pub fn plan_of(alloc: Global, text: &str) -> Result<Plan, Fail> {
    let (main, others) = parts(text, "|");
    let mut words = main.split_whitespace();
    let rates = next_rates(&mut words);
    let segment = Segment::read(words.next().unwrap_or("").as_bytes())?;
    let entries = next_count(&mut words).clamp(10, 1_000_000);
    let mut test = String::from_str(alloc, FRONT)?;
    put_scenario(&mut test, "main", rates, words.next().unwrap_or(""))?;
    put_others(&mut test, others)?;
    test.push_str(BACK)?;
    let sequence = Sequence::fill(alloc, &segment, None)?;
    let options = Options::read(alloc, test.as_bytes())?;
    Ok(Plan::of(alloc, options, segment, sequence, entries)?)
}

// The next three words, as a scenario's numbers.
fn next_rates(words: &mut SplitWhitespace<'_>) -> Rates {
    Rates {
        rate: next_count(words),
        made: next_count(words),
        most: next_count(words),
    }
}

// Appends a scenario of a name with these numbers and other fields.
fn put_scenario(test: &mut String, name: &str, rates: Rates, other: &str) -> Result<(), Fail> {
    let Rates { rate, made, most } = rates;
    write!(test, "\"{name}\":{COMMON}{other}\"rate\":{rate},")?;
    write!(test, "\"preAllocatedVUs\":{made},\"maxVUs\":{most}")?;
    test.push('}')?;
    Ok(())
}

// Appends the scenarios that a text tells, if it tells any.
fn put_others(test: &mut String, others: &str) -> Result<(), Fail> {
    for scenario in others.split("|") {
        let mut words = scenario.split_whitespace();
        if let Some(name) = words.next() {
            let rates = next_rates(&mut words);
            test.push(',')?;
            put_scenario(test, name, rates, words.next().unwrap_or(""))?;
        }
    }
    Ok(())
}
