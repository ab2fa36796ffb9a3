//! The program `load`: it makes the real things, carries out the command that its words are, and
//! ends with the command's status.
#![tactic(auto)]

use ld_outside::{ErrSink, FileShelf, OutSink, Sink, put_all};
use ld_run::command;
use std::env::Env;
use std::io::ErrorKind;
use std::process::ExitCode;
use std::{env, io};

fn main(rt: HostRuntime) -> ExitCode {
    let stderr = rt.stderr();
    let mut shelf = FileShelf::new(&rt);
    let mut out = OutSink::new(&rt);
    let mut err = ErrSink::new(&stderr);
    let status = match words(&rt) {
        Ok(words) => command(&rt, &words, &mut shelf, &mut out, &mut err),
        Err(error) if error.kind() == ErrorKind::InvalidData => refuse(
            &mut err,
            b"error words 0\n",
            2,
        ),
        Err(_) => refuse(&mut err, b"error memory\n", 9),
    };
    ExitCode::from(status)
}

// The words behind the program's name. Words that aren't UTF-8 are invalid data, and the only other
// fault is want of memory.
fn words<R: Env + AllocGlobal>(rt: &R) -> io::Result<Vec<String>> {
    Ok(env::args(rt)?.skip(1).collect(rt.alloc())?)
}

// Puts a line on standard error, and answers the status. A fault of standard error changes nothing.
fn refuse<E: Sink>(err: &mut E, line: &[u8], status: u8) -> u8 {
    let _ = put_all(err, line);
    status
}
