// Sinks that lack memory.

use crate::tests::desk::words_of;
use crate::tests::report::report_of;
use crate::tests::table::{Call, check};
use ld_outside::{Files, Sink, SinkFault, SureShelf, SureSink};
use ld_run::command;
use std::alloc::Global;
use std::test::Fail;

// The sink that lacks memory, a command line, and what that gives. No second line is put where `err` is that sink.
const LACKING: &str = r#"out | stripe 1 0 1 => 9, err "error memory\n"
err | stripe 1 0 1 => 0, out "0\n"
err | stripe => 9
err | stripe 1,0 0 5 => 9"#;

// A sink that has no memory for any piece.
#[derive(Drop)]
struct PoorSink;

impl Sink for PoorSink {
    ghost use Rattle.std.specs.Prelude.{None};

    ghost seen = { λ _. record { told = None; faults = 0 } };

    fn put(&mut self, _piece: &[u8]) -> Result<usize, SinkFault> {
        Err(SinkFault::Memory)
    }
}

// A command line at a desk of which one sink lacks memory, behind the name of that sink.
struct AtAPoorDesk;

impl Call for AtAPoorDesk {
    fn answer(alloc: Global, given: &str) -> Result<String, Fail> {
        let (poor, line) = given.split_once('|').unwrap_or(("", given));
        let words = words_of(alloc, line)?;
        let mut shelf = SureShelf::new(alloc, Files::of(Vec::new(alloc)));
        let mut out = SureSink::new(alloc);
        let mut err = SureSink::new(alloc);
        let rt = ((), alloc);
        let status = if poor.trim() == "out" {
            command(&rt, &words, &mut shelf, &mut PoorSink, &mut err)
        } else {
            command(&rt, &words, &mut shelf, &mut out, &mut PoorSink)
        };
        report_of(alloc, status, out.taken(), err.taken())
    }
}

/// Standard output or standard error lacks memory.
#[test]
fn sinks(rt: HostRuntime) -> Result<(), Fail> {
    check::<AtAPoorDesk, _>(&rt, LACKING)
}
