// The words of a command line: what they ask for, and where they are refused.

use crate::tests::table::{Call, check, first_word, named, number, said, text_of};
use ld_base::Text;
use ld_words::{Words, rate_test_text, read_words};
use std::alloc::Global;
use std::test::Fail;

// Words, where `_` is an empty one, and what they ask for. What isn't given is `-` or `None`.
const ASKED: &str = "\
help => help
stripe 3,002,1 007 1000000 => weights [3, 2, 1] position 7 count 1000000
stripe _ 0 1 => weights [] position 0 count 1
stripe 6 --segment 1/3 => count 6 segment 1/3 sequence -
stripe 6 --segment=1=3 => count 6 segment 1=3 sequence -
stripe 6 --segment== => count 6 segment = sequence -
stripe 6 --sequence 0,1 => count 6 segment - sequence 0,1
stripe 6 --sequence 0,1 --segment=x => count 6 segment x sequence 0,1
stripe 6 --segment x --sequence=0,1 => count 6 segment x sequence 0,1
plan t.json => plan t.json segment - sequence - entries None listed false
plan t.json --list => plan t.json segment - sequence - entries None listed true
plan a=b --sequence=0,1 --list --entries 10 --segment 0:1/2 => plan a=b segment 0:1/2 sequence 0,1 entries Some(10) listed true
plan plan --entries=1000000 --sequence q --segment== => plan plan segment = sequence q entries Some(1000000) listed false
plan list --list --segment list => plan list segment list sequence - entries None listed true
rehearse t.json --iteration 250ms --journal j => test t.json iteration 250000000 journal j segment - sequence - entries None
rehearse rehearse --entries=10 --segment=0:1/2 --journal=a=b --sequence 0,1/2,1 --iteration 1 => test rehearse iteration 1000000 journal a=b segment 0:1/2 sequence 0,1/2,1 entries Some(10)
rehearse list --sequence==q --journal list --iteration=1m => test list iteration 60000000000 journal list segment - sequence =q entries None
rehearse --rate 2 --unit 1s --duration 1m --pre 3 --max 4 --iteration 250ms --journal j.txt => rate 2 unit 1000000000 duration 60000000000 users 3 4 iteration 250000000 journal j.txt entries None
rehearse --entries=10 --journal=a=b --iteration=1 --max=000000007 --pre 0 --duration=1ns --unit 1.5us --rate=999999999 => rate 999999999 unit 1500 duration 1 users 0 7 iteration 1000000 journal a=b entries Some(10)
rehearse --max 1 --rate 0 --entries 1000000 --journal t --pre=1 --unit=30d --iteration 1h30m --duration .5s => rate 0 unit 2592000000000000 duration 500000000 users 1 1 iteration 5400000000000 journal t entries Some(1000000)";

// Words of `stripe` that are refused, and the place.
const STRIPES: &str = "\
strip 1 0 1 => Refused(0)
stripes 1 0 1 => Refused(0)
_ 1 0 1 => Refused(0)
stripe => Refused(1)
stripe x 0 5 => Refused(1)
stripe 1,,1 0 5 => Refused(1)
stripe 1, 0 5 => Refused(1)
stripe , 0 5 => Refused(1)
stripe -1 0 5 => Refused(1)
stripe 1234567890 0 5 => Refused(1)
stripe 1,1234567890 0 5 => Refused(1)
stripe _ => Refused(2)
stripe 1 +1 5 => Refused(2)
stripe 1 _ 5 => Refused(2)
stripe 1 -1 5 => Refused(2)
stripe 1 1234567890 5 => Refused(2)
stripe 1 1,1 5 => Refused(2)
stripe 1 0 => Refused(3)
stripe 1 0 1000001 => Refused(3)
stripe 1 0 -1 => Refused(3)
stripe 1 0 _ => Refused(3)
stripe 1 0 1,1 => Refused(3)
stripe 1 0 5 6 => Refused(4)
stripe 1 0 5 -x => Refused(4)
stripe 1 0 5 _ => Refused(4)
--segment=1 stripe => Refused(0)
strip 6 --segment 1 => Refused(0)
stripe --segment 1 => Refused(1)
stripe x --segment 1 => Refused(1)
stripe 1000001 --segment 1 => Refused(1)
stripe -6 --segment 1 => Refused(1)
stripe 1,1 0 --segment 1 => Refused(1)
stripe _ --segment 1 => Refused(1)
stripe 6 0 --segment 1 => Refused(2)
stripe 6 -- => Refused(2)
stripe 6 -- --segment 1 => Refused(2)
stripe 6 --segments 1 => Refused(2)
stripe 6 --segment= => Refused(2)
stripe 6 --segment=-1 => Refused(2)
stripe 6 --list => Refused(2)
stripe 6 --rate 1 => Refused(2)
stripe 6 --entries=10 --segment 1 => Refused(2)
stripe 6 --segment => Refused(3)
stripe 6 --segment _ => Refused(3)
stripe 6 --segment -1 => Refused(3)
stripe 6 --segment -- => Refused(3)
stripe 6 --segment --sequence 0,1 => Refused(3)
stripe 6 --sequence => Refused(3)
stripe 6 --sequence - => Refused(3)
stripe 6 --segment=1 1 => Refused(3)
stripe 6 --segment=1 --segment 1 => Refused(3)
stripe 6 --segment 1 --segment 1 => Refused(4)
stripe 6 --segment 1 --segment=1 => Refused(4)
stripe 6 --sequence=1 --segment 1 2 => Refused(5)
stripe 6 --segment 1 --sequence => Refused(5)
stripe 6 --segment 1 --sequence - => Refused(5)
stripe 6 --segment 1 --sequence=0 --entries 10 => Refused(5)
stripe 6 --segment 1 --sequence 0 --sequence 0 => Refused(6)";

// Words of `plan`, of `help` and of no command that are refused, and the place.
const PLANS: &str = "\
pla t.json => Refused(0)
plans t.json => Refused(0)
plan => Refused(1)
plan _ => Refused(1)
plan - => Refused(1)
plan -- => Refused(1)
plan --list => Refused(1)
plan --segment 1 t.json => Refused(1)
plan t.json u.json => Refused(2)
plan t.json _ => Refused(2)
plan t.json - => Refused(2)
plan t.json -- => Refused(2)
plan t.json -list => Refused(2)
plan t.json --lists => Refused(2)
plan t.json --iteration 1s => Refused(2)
plan t.json --list=x => Refused(2)
plan t.json --list= => Refused(2)
plan t.json --segment= => Refused(2)
plan t.json --sequence=-1 => Refused(2)
plan t.json --entries=9 => Refused(2)
plan t.json --entries=1000001 => Refused(2)
plan t.json --list x => Refused(3)
plan t.json --list --list => Refused(3)
plan t.json --list --list= => Refused(3)
plan t.json --segment => Refused(3)
plan t.json --segment _ => Refused(3)
plan t.json --segment --list => Refused(3)
plan t.json --sequence -1 => Refused(3)
plan t.json --sequence -- => Refused(3)
plan t.json --entries => Refused(3)
plan t.json --entries 9 => Refused(3)
plan t.json --entries x => Refused(3)
plan t.json --segment 1 --segment 1 => Refused(4)
plan t.json --sequence 0,1 --sequence=0,1 => Refused(4)
plan t.json --segment 1 --list=1 => Refused(4)
plan t.json --segment 1 --list --list => Refused(5)
plan t.json --entries 10 --list --entries=10 => Refused(5)
plan t.json --list --segment s --sequence => Refused(6)
plan t.json --list --segment s --entries 10 --sequence=q x => Refused(8)
=> Refused(0)
_ => Refused(0)
hel => Refused(0)
helps => Refused(0)
Help => Refused(0)
--help => Refused(0)
-h => Refused(0)
--version => Refused(0)
x help => Refused(0)
help help => Refused(1)
help _ => Refused(1)
help - => Refused(1)
help -- => Refused(1)
help --list => Refused(1)
help plan => Refused(1)";

// Words of `rehearse` that are refused, and the place.
const REHEARSALS: &str = "\
rehears t.json => Refused(0)
rehearse => Refused(1)
rehearse _ => Refused(1)
rehearse - => Refused(1)
rehearse -t --iteration 1s --journal j => Refused(1)
rehearse _ --rate 2 => Refused(1)
rehearse -rate 2 => Refused(1)
rehearse t.json => Refused(2)
rehearse t.json u.json => Refused(2)
rehearse t.json _ => Refused(2)
rehearse t.json - => Refused(2)
rehearse t.json -- => Refused(2)
rehearse t.json --rate 2 => Refused(2)
rehearse t.json --list => Refused(2)
rehearse t.json --make 3 => Refused(2)
rehearse t.json --iteration= => Refused(2)
rehearse t.json --iteration=0s => Refused(2)
rehearse t.json --journal= => Refused(2)
rehearse t.json --journal=-j => Refused(2)
rehearse t.json --segment=- => Refused(2)
rehearse t.json --sequence= => Refused(2)
rehearse t.json --entries=9 => Refused(2)
rehearse t.json --iteration => Refused(3)
rehearse t.json --iteration _ => Refused(3)
rehearse t.json --iteration 0s => Refused(3)
rehearse t.json --iteration -1s => Refused(3)
rehearse t.json --iteration -- => Refused(3)
rehearse t.json --iteration --journal j => Refused(3)
rehearse t.json --journal => Refused(3)
rehearse t.json --journal -j => Refused(3)
rehearse t.json --segment _ => Refused(3)
rehearse t.json --sequence => Refused(3)
rehearse t.json --entries 1000001 => Refused(3)
rehearse t.json --journal=j => Refused(3)
rehearse t.json --journal=j --journal j => Refused(3)
rehearse t.json --iteration 1s => Refused(4)
rehearse t.json --iteration 1s --iteration 1s => Refused(4)
rehearse t.json --iteration 1s --iteration=1s => Refused(4)
rehearse t.json --iteration 1s --journal => Refused(5)
rehearse t.json --segment=s --entries=10 --iteration=1s => Refused(5)
rehearse t.json --iteration 1s --journal j x => Refused(6)
rehearse t.json --iteration 1s --journal j --rate 2 => Refused(6)
rehearse t.json --segment 0:1/2 --sequence 0,1/2,1 --entries 10 --journal j => Refused(10)
rehears --rate 2 => Refused(0)
rehearse --make 3 => Refused(1)
rehearse --make=3 => Refused(1)
rehearse -- => Refused(1)
rehearse --segment 1 => Refused(1)
rehearse --rate= => Refused(1)
rehearse --rate=1234567890 => Refused(1)
rehearse --rate=-2 => Refused(1)
rehearse --unit=0s => Refused(1)
rehearse --unit=0 => Refused(1)
rehearse --unit=1.5ns => Refused(1)
rehearse --unit=31d => Refused(1)
rehearse --unit=1w => Refused(1)
rehearse --entries=9 => Refused(1)
rehearse --entries=1000001 => Refused(1)
rehearse --journal=- => Refused(1)
rehearse --journal= => Refused(1)
rehearse --rate => Refused(2)
rehearse --rate _ => Refused(2)
rehearse --rate -2 => Refused(2)
rehearse --rate 1234567890 => Refused(2)
rehearse --rate x => Refused(2)
rehearse --rate --unit => Refused(2)
rehearse --unit 0s => Refused(2)
rehearse --unit s => Refused(2)
rehearse --iteration 0ns => Refused(2)
rehearse --entries 9 => Refused(2)
rehearse --entries 1000001 => Refused(2)
rehearse --entries 10s => Refused(2)
rehearse --journal -j => Refused(2)
rehearse --journal _ => Refused(2)
rehearse --rate=2 => Refused(2)
rehearse --rate 2 => Refused(3)
rehearse --rate 2 t.json => Refused(3)
rehearse --rate 2 --rate 2 => Refused(3)
rehearse --rate 2 --rate=2 => Refused(3)
rehearse --rate 2 --rates 2 => Refused(3)
rehears => Refused(0)
--rate 2 rehearse => Refused(0)
rehearse --rates 2 => Refused(1)
rehearse --rate two => Refused(2)
rehearse --rate 2 -- => Refused(3)
rehearse --rate 2 1s => Refused(3)
rehearse --rate 2 --unit=0 => Refused(3)
rehearse --rate 2 --segment 1 => Refused(3)
rehearse --rate 2 --unit 0s => Refused(4)
rehearse --rate 2 --unit 1x => Refused(4)
rehearse --rate 2 --unit 0.1ns => Refused(4)
rehearse --rate 2 --unit 31d => Refused(4)
rehearse --rate 2 --duration 1s1 => Refused(4)
rehearse --rate 2 --iteration 0ms => Refused(4)
rehearse --rate 2 --entries 9 => Refused(4)
rehearse --rate 2 --entries 1000001 => Refused(4)
rehearse --rate 2 --unit 1s --duration 1s --pre 1 --max 1 --journal j => Refused(13)
rehearse --rate 2 --unit 1s --duration 1s --pre 1 --max 1 --iteration 1s --journal j k => Refused(15)
rehearse --rate 2 --unit 1s --duration 1s --pre 1 --max 1 --iteration 1s => Refused(13)
rehearse --journal j --rate 2 --unit 1s --duration 1s --pre 1 --max 1 --entries 10 => Refused(15)
rehearse --journal j --rate=2 --unit 1s --pre 1 --max 1 --iteration=1s => Refused(11)
rehearse --rate 2 --unit 1s --duration 1s --pre 1 --max 1 --iteration 1s --journal j x => Refused(15)
rehearse --rate 2 --unit 1s --duration 1s --pre 1 --max 1 --iteration 1s --journal j --list => Refused(15)";

// What stands before a test, where `_` is nothing, and a rate, a unit, a duration, the users that are made before and
// the most users; with the test that they stand for, behind what was there.
const RATE_TESTS: &str =
    r#"_ 2 1000000000 1000000000 1 1 => {"options":{"scenarios":{"main":{"executor":"constant-arrival-rate","rate":2,"timeUnit":"1000000000ns","duration":"1000000000ns","preAllocatedVUs":1,"maxVUs":1}}},"scripts":{"default":[]}}
{} 30 4 50 6 70 => {}{"options":{"scenarios":{"main":{"executor":"constant-arrival-rate","rate":30,"timeUnit":"4ns","duration":"50ns","preAllocatedVUs":6,"maxVUs":70}}},"scripts":{"default":[]}}"#;

// The words of a line.
fn split(alloc: Global, line: &str) -> Result<Vec<String>, Fail> {
    let mut list = Vec::new(alloc);
    for word in line.split_whitespace() {
        let word = if word == "_" { "" } else { word };
        list.push(String::from_str(alloc, word)?)?;
    }
    Ok(list)
}

// A text that may be given.
fn given_text(text: &Option<Text>) -> &str {
    match text {
        Some(text) => text_of(text.as_slice()),
        None => "-",
    }
}

// What is asked of words of `stripe`, with weights or without.
fn stripe_told(alloc: Global, words: &Words) -> Result<String, Fail> {
    match words {
        Words::StripeWeights {
            weights,
            position,
            count,
        } => {
            let weights = weights.as_slice();
            Ok(format!(in alloc; "weights {weights:?} position {position} count {count}")?)
        }
        Words::StripeSegment {
            count,
            segment,
            sequence,
        } => {
            let (segment, sequence) = (given_text(segment), given_text(sequence));
            Ok(format!(in alloc; "count {count} segment {segment} sequence {sequence}")?)
        }
        _ => said(alloc, "help"),
    }
}

// What is asked of words of `plan`, or of other words.
fn plan_told(alloc: Global, words: &Words) -> Result<String, Fail> {
    let Words::Plan {
        test,
        segment,
        sequence,
        entries,
        listed,
    } = words
    else {
        return stripe_told(alloc, words);
    };
    let test = text_of(test.as_slice());
    let (segment, sequence) = (given_text(segment), given_text(sequence));
    Ok(format!(in alloc;
        "plan {test} segment {segment} sequence {sequence} entries {entries:?} listed {listed}"
    )?)
}

// What is asked of words of `rehearse` with a test, or of other words.
fn test_told(alloc: Global, words: &Words) -> Result<String, Fail> {
    let Words::RehearseTest {
        test,
        iteration,
        journal,
        segment,
        sequence,
        entries,
    } = words
    else {
        return plan_told(alloc, words);
    };
    let (test, journal) = (text_of(test.as_slice()), text_of(journal.as_slice()));
    let (segment, sequence) = (given_text(segment), given_text(sequence));
    Ok(format!(in alloc;
        "test {test} iteration {iteration} journal {journal} segment {segment} sequence {sequence} entries {entries:?}"
    )?)
}

// What is asked of words of `rehearse` without a test, or of other words.
fn told(alloc: Global, words: &Words) -> Result<String, Fail> {
    let Words::RehearseWords {
        rate,
        unit,
        duration,
        pre,
        max,
        iteration,
        journal,
        entries,
    } = words
    else {
        return test_told(alloc, words);
    };
    let journal = text_of(journal.as_slice());
    Ok(format!(in alloc;
        "rate {rate} unit {unit} duration {duration} users {pre} {max} iteration {iteration} journal {journal} entries {entries:?}"
    )?)
}

struct Asked;

impl Call for Asked {
    fn answer(alloc: Global, given: &str) -> Result<String, Fail> {
        match read_words(alloc, &split(alloc, given)?) {
            Ok(words) => told(alloc, &words),
            Err(fault) => named(alloc, fault),
        }
    }
}

struct RateTest;

impl Call for RateTest {
    fn answer(alloc: Global, given: &str) -> Result<String, Fail> {
        let (front, rest) = first_word(given);
        let (rate, rest) = first_word(rest);
        let (unit, rest) = first_word(rest);
        let (duration, rest) = first_word(rest);
        let (pre, max) = first_word(rest);
        let mut text = Vec::from_slice(alloc, front.as_bytes())?;
        rate_test_text(
            rate.parse().unwrap_or(0),
            number(unit),
            number(duration),
            pre.parse().unwrap_or(0),
            max.parse().unwrap_or(0),
            &mut text,
        )?;
        said(alloc, text_of(&text))
    }
}

/// Words of each form, with options in both spellings and in any order.
#[test]
fn asked_words(rt: HostRuntime) -> Result<(), Fail> {
    check::<Asked, _>(&rt, ASKED)
}

/// Words of `stripe` that are refused, each at its place.
#[test]
fn refused_stripes(rt: HostRuntime) -> Result<(), Fail> {
    check::<Asked, _>(&rt, STRIPES)
}

/// Words of `plan`, of `help` and of no command that are refused, each at its place.
#[test]
fn refused_plans(rt: HostRuntime) -> Result<(), Fail> {
    check::<Asked, _>(&rt, PLANS)
}

/// Words of `rehearse` that are refused, each at its place.
#[test]
fn refused_rehearsals(rt: HostRuntime) -> Result<(), Fail> {
    check::<Asked, _>(&rt, REHEARSALS)
}

/// The test that a rehearsal's options stand for.
#[test]
fn rate_tests(rt: HostRuntime) -> Result<(), Fail> {
    check::<RateTest, _>(&rt, RATE_TESTS)
}
