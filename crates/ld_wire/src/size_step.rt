ghost use Rattle.std.specs.Prelude.{◌≡◌, ◌≢◌, ◌+◌, ◌<◌, ◌≤◌, ◌++◌, IfErr, IfOk, List, ℕ, length};
ghost use Rattle.ld_wire.specs.Chunks.{ChunksRefuse, size_line_limit};
ghost use Rattle.ld_wire.specs.Head.{body_limit};
ghost use Rattle.ld_wire.specs.Standing.{InSize, Steps, place_of};

use crate::fault::WireFault;
use crate::place::{ChunkPlace, ChunkStep};
use crate::size::find_size;
use crate::trailer::LineSoFar;

const SIZE_LINE_LIMIT: usize = 4096;

const BODY_LIMIT: u64 = 16_777_216;

// Takes the next bytes of a size line behind chunks that carry so many bytes. `held` has those that came of it.
pub fn take_size(total: u64, held: &mut Vec<u8>, piece: &[u8]) -> Result<ChunkStep, WireFault>
    requires few { length held.old.items < size_line_limit }
    requires short { total ≤ body_limit }
    ensures ok { IfOk result (λ step. (body text : List ℕ) → length body ≡ total →
        InSize held.old.items body text → Steps step held.new.items body text piece.now) }
    ensures err { IfErr result (λ fault. fault ≢ WireFault.Memory → (body text : List ℕ) → length body ≡ total →
        InSize held.old.items body text → ChunksRefuse (text ++ piece.now) fault) }
{
    let before = held.len();
    let window = through_feed(piece).min(SIZE_LINE_LIMIT - before);
    held.extend_from_slice(&piece[..window])?;
    match find_size(held) {
        Ok(Some((len, size))) => match place_behind(total, size) {
            Ok(place) => Ok(ChunkStep {
                used: len.saturating_sub(before),
                place,
            }),
            Err(fault) => Err(fault),
        },
        Ok(None) => Ok(ChunkStep {
            used: window,
            place: ChunkPlace::Size,
        }),
        Err(fault) => Err(fault),
    }
}

// Where a body in chunks stands behind a size line.
fn place_behind(total: u64, size: u64) -> Result<ChunkPlace, WireFault>
    requires { total ≤ body_limit }
    ensures ok { IfOk result (λ place. (place ≡ place_of size) × (total + size ≤ body_limit)) }
    ensures err { IfErr result (λ fault. (fault ≡ WireFault.BodyTooLong) × (body_limit < total + size)) }
{
    if size > BODY_LIMIT - total {
        return Err(WireFault::BodyTooLong);
    }
    if size == 0 {
        return Ok(ChunkPlace::Trailer(LineSoFar::Empty, 0));
    }
    Ok(ChunkPlace::Data(size))
}

// The bytes up to and with the first line feed, or all of them.
fn through_feed(piece: &[u8]) -> usize
    ensures inside { result ≤ length piece.now }
    ensures some { 0 < length piece.now → 0 < result }
{
    match piece.iter().position(|byte| *byte == b'\n') {
        Some(at) => at + 1,
        None => piece.len(),
    }
}
