// A desk whose objects never fail. It has no file before a command.

use crate::tests::desk::words_of;
use crate::tests::report::{put_calls, put_file, report_of};
use crate::tests::table::{Call, check};
use ld_outside::{Files, SureShelf, SureSink};
use ld_run::{command, desk_command};
use std::alloc::Global;
use std::test::Fail;

// The name of a call, the line that it is to carry out, and what that gives.
const CALLS: &str =
    r#"command | rehearse --rate 2 --unit 1s --duration 1s --pre 1 --max 1 --iteration 1s --journal j => 0, out "users 1 1\nscenario main planned 2 started 1 done 1 interrupted 0 dropped 1 late 0\n", start j, append j, j is one-user
desk_command | rehearse --rate 2 --unit 1s --duration 1s --pre 1 --max 1 --iteration 1s --journal j => 0, out "users 1 1\nscenario main planned 2 started 1 done 1 interrupted 0 dropped 1 late 0\n", start j, append j, j is one-user
command | plan missing => 5, err "error 40 NotJson\n", read missing
desk_command | plan missing => 5, err "error 40 NotJson\n", read missing"#;

// A command line at such a desk, behind the name of the call that carries it out.
struct AtASureDesk;

impl Call for AtASureDesk {
    fn answer(alloc: Global, given: &str) -> Result<String, Fail> {
        let (call, line) = given.split_once('|').unwrap_or(("", given));
        let words = words_of(alloc, line)?;
        let mut shelf = SureShelf::new(alloc, Files::of(Vec::new(alloc)));
        let mut out = SureSink::new(alloc);
        let mut err = SureSink::new(alloc);
        let rt = ((), alloc);
        let status = if call.trim() == "command" {
            command(&rt, &words, &mut shelf, &mut out, &mut err)
        } else {
            desk_command(&rt, &words, &mut shelf, &mut out, &mut err)
        };
        told(alloc, status, &shelf, &out, &err)
    }
}

// What a command gave.
fn told(
    alloc: Global,
    status: u8,
    shelf: &SureShelf,
    out: &SureSink,
    err: &SureSink,
) -> Result<String, Fail> {
    let mut report = report_of(alloc, status, out.taken(), err.taken())?;
    put_calls(&mut report, shelf.calls())?;
    put_file(&mut report, "j", None, shelf.file("j"))?;
    Ok(report)
}

/// The call that may wait and the one that never does.
#[test]
fn calls(rt: HostRuntime) -> Result<(), Fail> {
    check::<AtASureDesk, _>(&rt, CALLS)
}
