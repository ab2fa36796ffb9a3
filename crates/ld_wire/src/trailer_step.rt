ghost use Rattle.std.specs.Prelude.{◌<◌, ◌++◌, IfErr, IfOk, List, ℕ};
ghost use Rattle.ld_wire.specs.Chunks.{ChunksRefuse, trailer_limit};
ghost use Rattle.ld_wire.specs.Standing.{InTrailer, Steps};

use crate::fault::WireFault;
use crate::place::{ChunkPlace, ChunkStep};
use crate::trailer::{LineSoFar, Passed, pass_trailer};

// Takes the next bytes of a trailer that has so many bytes, of which the last line is so.
pub fn take_trailer(line: LineSoFar, seen: u64, piece: &[u8]) -> Result<ChunkStep, WireFault>
    requires { seen < trailer_limit }
    ensures ok { IfOk result (λ step. (held body text : List ℕ) → InTrailer line seen body text →
        Steps step held body text piece.now) }
    ensures err { IfErr result (λ fault. (body text : List ℕ) → InTrailer line seen body text →
        ChunksRefuse (text ++ piece.now) fault) }
{
    match pass_trailer(line, seen, piece) {
        Ok(Passed::All(last)) => Ok(ChunkStep {
            used: piece.len(),
            place: ChunkPlace::Trailer(last, seen.saturating_add(piece.len() as u64)),
        }),
        Ok(Passed::Whole(used)) => Ok(ChunkStep {
            used,
            place: ChunkPlace::Whole,
        }),
        Err(fault) => Err(fault),
    }
}
