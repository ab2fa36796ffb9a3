// Sinks and shelves that fail.

use crate::tests::desk::AtADesk;
use crate::tests::table::check;
use std::test::Fail;

// Where standard output fails the journal is whole. Where its start fails the old file is as it was, and where the
// append fails a front of it stands. A journal without room comes behind a fault of writing.
const WRITING: &str =
    r#"out 1 | rehearse --rate 2 --unit 1s --duration 1s --pre 1 --max 1 --iteration 1s --journal j => 4, err "error write\n", start j, append j, j is one-user
shelf 1 | rehearse --rate 2 --unit 1s --duration 1s --pre 1 --max 1 --iteration 1s --journal j => 4, err "error write\n", start j failed
shelf 2 | rehearse --rate 2 --unit 1s --duration 1s --pre 1 --max 1 --iteration 1s --journal j => 4, err "error write\n", start j, append j failed, j is a front of one-user
out 1 | stripe 1 0 1 => 4, err "error write\n"
out 1 | rehearse --rate 4 --unit 1s --duration 1s --pre 1 --max 1 --iteration 100ms --journal j --entries 10 => 4, err "error write\n", start j, append j, j is full"#;

// Where standard error fails the status stays, and all else is as it would be.
const SAYING: &str = r#"err 1 | rehearse => 2
err 1 | rehearse --rate 2 --unit 1s --duration 1s --pre 1 --max 1 --iteration 1s --journal j => 0, out "users 1 1\nscenario main planned 2 started 1 done 1 interrupted 0 dropped 1 late 0\n", start j, append j, j is one-user
err 1 | rehearse --rate 0 --unit 1s --duration 1s --pre 1 --max 1 --iteration 1s --journal j => 5
err 1 | rehearse --rate 4 --unit 1s --duration 1s --pre 1 --max 1 --iteration 100ms --journal j --entries 10 => 7, out "users 1 1\nscenario main planned 4 started 4 done 4 interrupted 0 dropped 0 late 0\n", start j, append j, j is full
err 1 | plan missing => 3, read missing failed
out 1 err 1 | stripe 1 0 1 => 4
blanks 1048577 err 1 | plan t => 11, read t failed"#;

/// The journal or standard output can't be written.
#[test]
fn writing(rt: HostRuntime) -> Result<(), Fail> {
    check::<AtADesk, _>(&rt, WRITING)
}

/// Standard error can't be written.
#[test]
fn saying(rt: HostRuntime) -> Result<(), Fail> {
    check::<AtADesk, _>(&rt, SAYING)
}
