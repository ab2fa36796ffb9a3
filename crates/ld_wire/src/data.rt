ghost use Rattle.std.specs.Prelude.{◌≡◌, ◌<◌, ◌∷◌, ◌++◌, IfErr, IfOk, List, ℕ, [], length};
ghost use Rattle.ld_wire.specs.Chunks.{ChunksRefuse};
ghost use Rattle.httparse.specs.Ascii.{carriage_return};
ghost use Rattle.ld_wire.specs.Standing.{InData, InEnd, Steps};

use crate::fault::WireFault;
use crate::place::{ChunkPlace, ChunkStep};

// Takes the next bytes of a chunk, of which so many are still to come.
pub fn take_data(left: u64, body: &mut Vec<u8>, piece: &[u8]) -> Result<ChunkStep, WireFault>
    requires { 0 < left }
    ensures ok { IfOk result (λ step. (held text : List ℕ) → InData left body.old.items text →
        Steps step held body.new.items text piece.now) }
    ensures err { IfErr result (λ fault. (fault ≡ WireFault.Memory) × (body.new.items ≡ body.old.items)) }
{
    let used = piece.len().min(left as usize);
    body.extend_from_slice(&piece[..used])?;
    let rest = left - used as u64;
    let place = if rest == 0 {
        ChunkPlace::Return
    } else {
        ChunkPlace::Data(rest)
    };
    Ok(ChunkStep { used, place })
}

// Takes the carriage return behind a chunk.
pub fn take_return(piece: &[u8]) -> Result<ChunkStep, WireFault>
    requires { 0 < length piece.now }
    ensures ok { IfOk result (λ step. (held body text : List ℕ) → InEnd [] body text →
        Steps step held body text piece.now) }
    ensures err { IfErr result (λ fault. (body text : List ℕ) → InEnd [] body text →
        ChunksRefuse (text ++ piece.now) fault) }
{
    if piece[0] != b'\r' {
        return Err(WireFault::BadChunk);
    }
    Ok(ChunkStep {
        used: 1,
        place: ChunkPlace::Feed,
    })
}

// Takes the line feed behind it.
pub fn take_feed(piece: &[u8]) -> Result<ChunkStep, WireFault>
    requires { 0 < length piece.now }
    ensures ok { IfOk result (λ step. (body text : List ℕ) → InEnd (carriage_return ∷ []) body text →
        Steps step [] body text piece.now) }
    ensures err { IfErr result (λ fault. (body text : List ℕ) → InEnd (carriage_return ∷ []) body text →
        ChunksRefuse (text ++ piece.now) fault) }
{
    if piece[0] != b'\n' {
        return Err(WireFault::BadChunk);
    }
    Ok(ChunkStep {
        used: 1,
        place: ChunkPlace::Size,
    })
}
