// Segments and sequences: how they are read, printed, filled and weighed.

use crate::tests::table::{
    Call, add, add_behind_comma, check, first_word, named, number, said, text_of,
};
use ld_segment::{Segment, SegmentFault, Sequence};
use std::alloc::Global;
use std::test::Fail;

// Texts, with what is printed of the segments that they are; or why they are refused.
const SEGMENTS: &str = "\
1/3:50% => 1/3:1/2
0.25 => 0:1/4
1 => 0:1
0:100% => 0:1
2/6:0.999999999 => 1/3:999999999/1000000000
1/2:1/2 => NotLess(1)
2/3:1/2 => NotLess(1)
0 => NotLess(1)
0:101% => AboveOne(1)
2:1 => AboveOne(0)
3:2 => AboveOne(0)
0:1/0 => Number { at: 1, fault: ZeroDenominator }
-1/4:1/2 => BelowZero(0)
1/4:-1/2 => BelowZero(1)
- => BelowZero(1)
x:-1 => Number { at: 0, fault: BadDigit }
1/4:1/2:3 => Number { at: 1, fault: BadDigit }
=> Number { at: 1, fault: Empty }
:1 => Number { at: 0, fault: Empty }
1234567890 => Number { at: 1, fault: TooLarge }";

// Texts, with what is printed of the sequences that they are, and of these filled; or why they are refused.
const SEQUENCES: &str = "\
0,1/3,0.5 => 0,1/3,1/2 0,1/3,1/2,1
1/4,1 => 1/4,1 0,1/4,1
20%,0.4,3/5 => 1/5,2/5,3/5 0,1/5,2/5,3/5,1
0,1 => 0,1 0,1
1/2 => FewPoints
2 => FewPoints
0,1/2,1/2 => NotLess(2)
1/2,1/3,1/4 => NotLess(1)
2,1 => AboveOne(0)
0,1,1,2 => AboveOne(3)
0,-1,x => BelowZero(1)
2,1,x => Number { at: 2, fault: BadDigit }
=> Number { at: 0, fault: Empty }
0,1, => Number { at: 2, fault: Empty }";

// The first of some thousandths and the one behind the last, and how many segments the sequence of them has. A sequence
// has at most 100 when it is filled.
const LONG: &str = "\
1 100 => 98
0 100 => 99
901 1001 => 99
1 101 => TooMany
0 101 => TooMany
900 1001 => TooMany";

// Segments, and the sequence that they form, or why they form none. Segments of a thousandth each are written by the
// first and the last point of all.
const PARTS: &str = "\
1/3 1/3:1 => 0,1/3,1
=> FewPoints
1/3 1/2:1 => Gap(1)
1/3 1/3:1 1/3 1/2:1 => Gap(2)
0..101 0:1/2 => Gap(101)
0..101 => TooMany
0..100 => TooMany
900..1000 => TooMany";

// Segments, and the sequences that are filled round them.
const ROUND: &str = "\
1/4:1/2 => 0,1/4,1/2,1
0:1 => 0,1
1/2 => 0,1/2,1
1/2:1 => 0,1/2,1";

// Sequences and segments, with the number of segments of the one, and the place of the other with what stands there.
const PLACES: &str = "\
0,1/3,1/2,1 1/3 => 3 0 0:1/3
0,1/3,1/2,1 1/3:1/2 => 3 1 1/3:1/2
0,1/3,1/2,1 2/6:50% => 3 1 1/3:1/2
0,1/3,1/2,1 1/2:1 => 3 2 1/2:1
0,1/3,1/2,1 0:1/2 => 3 none
0,1/3,1/2,1 1/3:1 => 3 none
0,1/3,1/2,1 0:1 => 3 none";

// Sequences, and the weights of these filled: their lengths over one common denominator; or that this is too large. The
// last one's is the product of three primes, which is past 2^64.
const WEIGHTS: &str = "\
0,1 => 1
0,1/3,1/2,1 => 2 1 3
1/4,1/2 => 1 1 2
2/3,3/4 => 8 1 3
0.1,0.3 => 1 2 7
1/100000,1 => 1 99999
1/100001,1 => PeriodTooLarge(100001)
1/999999937,1/999999929,1/999999893 => PeriodTooLarge(18446744073709551615)";

// What is printed of a segment.
fn segment_text(alloc: Global, segment: &Segment) -> Result<String, Fail> {
    let mut text = Vec::new(alloc);
    segment.print(&mut text)?;
    said(alloc, text_of(&text))
}

// What is printed of a sequence.
fn sequence_text(alloc: Global, sequence: &Sequence) -> Result<String, Fail> {
    let mut text = Vec::new(alloc);
    sequence.print(&mut text)?;
    said(alloc, text_of(&text))
}

struct SegmentRead;

impl Call for SegmentRead {
    fn answer(alloc: Global, given: &str) -> Result<String, Fail> {
        match Segment::read(given.as_bytes()) {
            Ok(segment) => segment_text(alloc, &segment),
            Err(fault) => named(alloc, fault),
        }
    }
}

struct SequenceRead;

impl Call for SequenceRead {
    fn answer(alloc: Global, given: &str) -> Result<String, Fail> {
        let sequence = match Sequence::read(alloc, given.as_bytes()) {
            Ok(sequence) => sequence,
            Err(fault) => return named(alloc, fault),
        };
        let mut line = sequence_text(alloc, &sequence.copy(alloc)?)?;
        let all = Segment::read(b"1")?;
        let filled = Sequence::fill(alloc, &all, Some(sequence))?;
        add(&mut line, sequence_text(alloc, &filled)?)?;
        Ok(line)
    }
}

// The text of the thousandths from one on, below another.
fn thousandths(alloc: Global, from: u64, end: u64) -> Result<String, Fail> {
    let mut text = String::new(alloc);
    for place in from..end {
        add_behind_comma(&mut text, format!(in alloc; "{place}/1000")?)?;
    }
    Ok(text)
}

struct LongRead;

impl Call for LongRead {
    fn answer(alloc: Global, given: &str) -> Result<String, Fail> {
        let (from, end) = first_word(given);
        let text = thousandths(alloc, number(from), number(end))?;
        match Sequence::read(alloc, text.as_bytes()) {
            Ok(sequence) => named(alloc, sequence.len()),
            Err(fault) => named(alloc, fault),
        }
    }
}

// The segment behind so many thousandths, which is a thousandth long.
fn thousandth(alloc: Global, place: u64) -> Result<Segment, Fail> {
    let end = place.saturating_add(1);
    let text = format!(in alloc; "{place}/1000:{end}/1000")?;
    Ok(Segment::read(text.as_bytes())?)
}

// Puts the segments behind others that a word stands for.
fn put_segments(alloc: Global, segments: &mut Vec<Segment>, word: &str) -> Result<(), Fail> {
    let Some((from, end)) = word.split_once("..") else {
        segments.push(Segment::read(word.as_bytes())?)?;
        return Ok(());
    };
    for place in number(from)..number(end) {
        segments.push(thousandth(alloc, place)?)?;
    }
    Ok(())
}

struct Joined;

impl Call for Joined {
    fn answer(alloc: Global, given: &str) -> Result<String, Fail> {
        let mut segments = Vec::new(alloc);
        for word in given.split_whitespace() {
            put_segments(alloc, &mut segments, word)?;
        }
        match Sequence::of_segments(alloc, &segments) {
            Ok(sequence) => sequence_text(alloc, &sequence),
            Err(fault) => named(alloc, fault),
        }
    }
}

struct FilledRound;

impl Call for FilledRound {
    fn answer(alloc: Global, given: &str) -> Result<String, Fail> {
        let segment = Segment::read(given.as_bytes())?;
        sequence_text(alloc, &Sequence::fill(alloc, &segment, None)?)
    }
}

struct Placed;

impl Call for Placed {
    fn answer(alloc: Global, given: &str) -> Result<String, Fail> {
        let (sequence, segment) = first_word(given);
        let sequence = Sequence::read(alloc, sequence.as_bytes())?;
        let segment = Segment::read(segment.as_bytes())?;
        let count = sequence.len();
        let Some(place) = sequence.position(&segment) else {
            return Ok(format!(in alloc; "{count} none")?);
        };
        if place >= count {
            return named(alloc, place);
        }
        let found = segment_text(alloc, &sequence.segment(place))?;
        Ok(format!(in alloc; "{count} {place} {found}")?)
    }
}

// The weights of a sequence that is filled.
fn weights_of(alloc: Global, text: &str) -> Result<Vec<u64>, SegmentFault> {
    let all = Segment::read(b"1")?;
    let sequence = Sequence::read(alloc, text.as_bytes())?;
    Sequence::fill(alloc, &all, Some(sequence))?.weights(alloc)
}

struct Weighed;

impl Call for Weighed {
    fn answer(alloc: Global, given: &str) -> Result<String, Fail> {
        let weights = match weights_of(alloc, given) {
            Ok(weights) => weights,
            Err(fault) => return named(alloc, fault),
        };
        let mut line = String::new(alloc);
        for weight in &weights {
            add(&mut line, format!(in alloc; "{weight}")?)?;
        }
        Ok(line)
    }
}

/// Segments, in the order in which their texts are looked at.
#[test]
fn segments(rt: HostRuntime) -> Result<(), Fail> {
    check::<SegmentRead, _>(&rt, SEGMENTS)
}

/// Sequences, in the order in which their texts are looked at.
#[test]
fn sequences(rt: HostRuntime) -> Result<(), Fail> {
    check::<SequenceRead, _>(&rt, SEQUENCES)
}

/// Sequences of a hundred segments, and of more.
#[test]
fn long_sequences(rt: HostRuntime) -> Result<(), Fail> {
    check::<LongRead, _>(&rt, LONG)
}

/// Segments that form a sequence, and some that don't.
#[test]
fn joined_segments(rt: HostRuntime) -> Result<(), Fail> {
    check::<Joined, _>(&rt, PARTS)
}

/// A missing sequence is filled round the segment.
#[test]
fn filled_sequences(rt: HostRuntime) -> Result<(), Fail> {
    check::<FilledRound, _>(&rt, ROUND)
}

/// Where segments stand in a sequence.
#[test]
fn places_of_segments(rt: HostRuntime) -> Result<(), Fail> {
    check::<Placed, _>(&rt, PLACES)
}

/// The weights of filled sequences.
#[test]
fn weights_of_sequences(rt: HostRuntime) -> Result<(), Fail> {
    check::<Weighed, _>(&rt, WEIGHTS)
}
