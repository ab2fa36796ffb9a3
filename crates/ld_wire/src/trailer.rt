ghost use Rattle.std.specs.Prelude.{◌≡◌, ◌≢◌, ◌<◌, ◌≤◌, ◌+◌, ◌++◌, ◌↔◌, IfErr, IfOk, IsTrue, List, ℕ, length, take};
ghost use Rattle.httparse.specs.Ascii.{line_feed};
ghost use Rattle.ld_wire.specs.Chunks.{HasLongTrailer, IsTrailer, trailer_limit};
ghost use Rattle.ld_wire.specs.Trailer.{HasPassed, IsTrailerSoFar, line_behind};

use crate::fault::WireFault;

const TRAILER_LIMIT: u64 = 65_536;

/// What the last line of a trailer has so far.
#[derive(Clone, Copy, Debug, PartialEq, Eq)]
pub enum LineSoFar {
    /// Nothing.
    Empty,
    /// A carriage return alone.
    Return,
    /// Something else.
    Filled,
}

/// What bytes more made of a trailer.
#[derive(Clone, Copy, Debug, PartialEq, Eq)]
pub enum Passed {
    /// All of them belong to it, and its last line is so now.
    All(LineSoFar),
    /// It is whole behind so many of them.
    Whole(usize),
}

// Passes over the next bytes of a trailer that has so many bytes, of which the last line is so. The trailer has a
// fault where it isn't whole in 65,536 bytes.
pub fn pass_trailer(first: LineSoFar, before: u64, piece: &[u8]) -> Result<Passed, WireFault>
    requires { before < trailer_limit }
    ensures passed { IfOk result (λ passed. (text : List ℕ) → IsTrailerSoFar first text → length text ≡ before →
        HasPassed text piece.now passed) }
    ensures refused { IfErr result (λ fault. (fault ≡ WireFault.BadChunk) × ((text : List ℕ) →
        IsTrailerSoFar first text → length text ≡ before → HasLongTrailer (text ++ piece.now))) }
{
    let mut line = first;
    let mut seen = before;
    for (at, byte) in piece.iter().enumerate() {
        if ends_trailer(line, *byte) {
            return Ok(Passed::Whole(at + 1));
        }
        line = line_behind(line, *byte);
        seen += 1;
        if seen >= TRAILER_LIMIT {
            return Err(WireFault::BadChunk);
        }
    }
    Ok(Passed::All(line))
}

// Whether a byte ends the trailer: the line feed of an empty line.
fn ends_trailer(line: LineSoFar, byte: u8) -> bool
    ensures { IsTrue result ↔ ((byte ≡ line_feed) × (line ≢ LineSoFar.Filled)) }
{
    byte == b'\n' && line != LineSoFar::Filled
}

// The last line behind one byte more, which doesn't end the trailer.
fn line_behind(line: LineSoFar, byte: u8) -> LineSoFar
    ensures { result ≡ line_behind line byte }
{
    match line {
        _ if byte == b'\n' => LineSoFar::Empty,
        LineSoFar::Empty if byte == b'\r' => LineSoFar::Return,
        _ => LineSoFar::Filled,
    }
}
