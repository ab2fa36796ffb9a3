// The commands that never wait.
ghost use Rattle.std.specs.Prelude.{map, string_bytes};
ghost use Rattle.ld_run.specs.DeskRun.{IsDeskRun};

use crate::delivery::{deliver, refuse};
use ld_answer::answer_of;
use ld_outside::{Shelf, Sink};

/// Carries out a command: the words behind the program's name in, files on the shelf, text on `out`, and the
/// status.
///
/// Where a command doesn't end well one line on `err` says why. The statuses are 0, 2 where the words are no
/// command, 3 where the file that they name wasn't read, 4 where the shelf or `out` failed at a write, 5 where
/// what the words name is refused, 7 where a journal had no room, 9 for want of memory, and 11 where the file
/// that they name is too long. A fault of `err` changes no status.
pub fn command<R: AllocGlobal, S: Shelf, O: Sink, E: Sink>(
    rt: &R,
    words: &[String],
    shelf: &mut S,
    out: &mut O,
    err: &mut E,
) -> u8
    ensures { IsDeskRun (map string_bytes words.now) result (S.seen shelf.old) (S.seen shelf.new)
        (O.seen out.old) (O.seen out.new) (E.seen err.old) (E.seen err.new) }
{
    desk_command(rt, words, shelf, out, err)
}

/// Carries out a command that never waits: it always returns. It is as [`command`].
pub fn desk_command<R: AllocGlobal, S: Shelf, O: Sink, E: Sink>(
    rt: &R,
    words: &[String],
    shelf: &mut S,
    out: &mut O,
    err: &mut E,
) -> u8
    ensures { IsDeskRun (map string_bytes words.now) result (S.seen shelf.old) (S.seen shelf.new)
        (O.seen out.old) (O.seen out.new) (E.seen err.old) (E.seen err.new) }
{
    let alloc = rt.alloc();
    match answer_of(alloc, words, shelf) {
        Ok(answer) => deliver(alloc, &answer, shelf, out, err),
        Err(refusal) => refuse(alloc, &refusal, err),
    }
}
