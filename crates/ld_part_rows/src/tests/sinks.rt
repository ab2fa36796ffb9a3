// Sinks: what they take, and how they fail.

use crate::tests::table::{
    Call, Steps, answered, check, first_word, numbers, played, put, text_of,
};
use ld_outside::{ErrSink, MemSink, Numbers, OutSink, Sink, SinkFault, SureSink, put_all};
use std::alloc::Global;
use std::fmt::Display;
use std::io;
use std::io::{ErrorKind, Print};
use std::test::Fail;

// A kind of sink, the numbers of the calls that are to fail, where it is `mem`, and pieces that are put or whole texts,
// with the answers and what was taken at last.
const KEPT: &str = "\
mem 2,4 all:one all:two put:three put:four put: => () Failed 5 Failed 0 onethree
mem _ put: all: => 0 ()
sure put:one put: all:two => 3 0 () onetwo
drip put:one put: all:two => 1 0 () otwo";

// A kind of stream, and pieces that are put into a sink over it or whole texts. It takes a byte at a time, or nothing;
// or a signal breaks each write off, or it fails.
const STREAMED: &str = "\
slow put:one put: all:two => 1 0 ()
full put:one put: all:two => Failed 0 Failed
broken put:one put: => Failed Failed
gone put:one put: => Failed Failed";

// A sink that takes one byte at a time.
#[derive(Drop)]
struct Drip {
    bytes: SureSink,
}

impl Sink for Drip {
    ghost use Rattle.ld_outside.specs.MemSink.{seen_of_sure};

    ghost seen = { λ d. seen_of_sure d.bytes };

    fn put(&mut self, piece: &[u8]) -> Result<usize, SinkFault> {
        match piece.first() {
            Some(byte) => self.bytes.put(&[*byte]),
            None => Ok(0),
        }
    }
}

// A stream, by its kind.
#[derive(Clone, Copy)]
struct Stream<'a> {
    kind: &'a str,
}

impl Print for Stream<'_> {
    fn print<D: Display + Drop>(&self, _value: D) -> io::Result<()> {
        Ok(())
    }

    fn println<D: Display + Drop>(&self, _value: D) -> io::Result<()> {
        Ok(())
    }

    fn write_all(&self, _bytes: &[u8]) -> io::Result<()> {
        Ok(())
    }

    fn write_some(&self, bytes: &[u8]) -> io::Result<usize> {
        match self.kind {
            "slow" => Ok(bytes.len().min(1)),
            "full" => Ok(0),
            "broken" => Err(io::Error::from(ErrorKind::Interrupted)),
            _ => Err(io::Error::from(ErrorKind::Other)),
        }
    }
}

// A sink that is stepped through its trait.
#[derive(Drop)]
struct Stepped<'a, S> {
    sink: &'a mut S,
}

impl<S: Sink> Steps for Stepped<'_, S> {
    fn step(&mut self, alloc: Global, word: &str) -> Result<String, Fail> {
        let (call, piece) = word.split_once(':').unwrap_or((word, ""));
        if call == "all" {
            answered(alloc, put_all(self.sink, piece.as_bytes()))
        } else {
            answered(alloc, self.sink.put(piece.as_bytes()))
        }
    }
}

// What a sink answers to the words of a line.
fn answers_of<S: Sink>(alloc: Global, sink: &mut S, line: &str) -> Result<String, Fail> {
    played(alloc, &mut Stepped { sink }, line)
}

// What a sink in memory answers, and what it took.
fn told_by_mem(alloc: Global, line: &str) -> Result<String, Fail> {
    let (failing, line) = first_word(line);
    let mut sink = MemSink::new(alloc, Numbers::of(numbers(alloc, failing)?));
    let mut answers = answers_of(alloc, &mut sink, line)?;
    put(&mut answers, text_of(sink.taken()))?;
    Ok(answers)
}

// What a sure sink answers, and what it took.
fn told_by_sure(alloc: Global, line: &str) -> Result<String, Fail> {
    let mut sink = SureSink::new(alloc);
    let mut answers = answers_of(alloc, &mut sink, line)?;
    put(&mut answers, text_of(sink.taken()))?;
    Ok(answers)
}

// What a sink that takes one byte at a time answers, and what it took.
fn told_by_drip(alloc: Global, line: &str) -> Result<String, Fail> {
    let bytes = SureSink::new(alloc);
    let mut sink = Drip { bytes };
    let mut answers = answers_of(alloc, &mut sink, line)?;
    put(&mut answers, text_of(sink.bytes.taken()))?;
    Ok(answers)
}

struct KeptBySink;

impl Call for KeptBySink {
    fn answer(alloc: Global, given: &str) -> Result<String, Fail> {
        let (kind, line) = first_word(given);
        match kind {
            "mem" => told_by_mem(alloc, line),
            "sure" => told_by_sure(alloc, line),
            _ => told_by_drip(alloc, line),
        }
    }
}

struct PutOut;

impl Call for PutOut {
    fn answer(alloc: Global, given: &str) -> Result<String, Fail> {
        let (kind, line) = first_word(given);
        answers_of(alloc, &mut OutSink::new(&Stream { kind }), line)
    }
}

struct PutErr;

impl Call for PutErr {
    fn answer(alloc: Global, given: &str) -> Result<String, Fail> {
        let (kind, line) = first_word(given);
        answers_of(alloc, &mut ErrSink::new(&Stream { kind }), line)
    }
}

/// Sinks that tell what they took.
#[test]
fn sinks_in_memory(rt: HostRuntime) -> Result<(), Fail> {
    check::<KeptBySink, _>(&rt, KEPT)
}

/// The sinks over streams, which tell nothing.
#[test]
fn sinks_over_streams(rt: HostRuntime) -> Result<(), Fail> {
    check::<PutOut, _>(&rt, STREAMED)?;
    check::<PutErr, _>(&rt, STREAMED)
}

/// The real sinks take nothing of nothing.
#[test]
fn real_sinks(rt: HostRuntime) -> Result<(), Fail> {
    let stderr = rt.stderr();
    let out = answers_of(rt.alloc(), &mut OutSink::new(&rt), "put:")?;
    let err = answers_of(rt.alloc(), &mut ErrSink::new(&stderr), "put:")?;
    assert_eq!(rt; (out.as_str(), err.as_str()), ("0", "0"));
    Ok(())
}
