// A body, by its framing.
ghost use Rattle.std.specs.Prelude.{◌≡◌, ◌≢◌, ◌<◌, ◌≤◌, ◌+◌, ◌++◌, [], IfErr, IfOk, List, ℕ, length};
ghost use Rattle.ld_wire.specs.Body.{BodyStands, BodyTakes};
ghost use Rattle.ld_wire.specs.Head.{body_limit};
ghost use Rattle.ld_wire.specs.Response.{BodyRefuses};
ghost use Rattle.ld_wire.specs.Standing.{StandsAt};
ghost use Rattle.ld_wire.specs.declared.framing.Follows.{Follows};

use crate::body_place::{BodyPlace, BodyStep};
use crate::chunks::take_chunks;
use crate::fault::WireFault;
use crate::framing::Follows;
use crate::place::ChunkPlace;

const BODY_LIMIT: usize = 16_777_216;

// Where a body of this framing begins.
pub fn open_body(framing: Follows) -> BodyPlace
    requires { framing ≢ Follows.Head }
    ensures { BodyStands framing result [] [] [] }
{
    match framing {
        Follows::Chunks => BodyPlace::Chunks(ChunkPlace::Size),
        Follows::Close => BodyPlace::Close,
        Follows::Bytes(number) => open_bytes(number),
        Follows::Nothing => BodyPlace::Whole,
        Follows::Head => BodyPlace::Whole,
    }
}

// Where a body of so many bytes begins.
fn open_bytes(number: u64) -> BodyPlace
    ensures { BodyStands (Follows.Bytes number) result [] [] [] }
{
    if number == 0 {
        return BodyPlace::Whole;
    }
    BodyPlace::Bytes(number)
}

// Takes the next bytes of a body, up to its end where it comes.
pub fn take_body(
    place: BodyPlace,
    held: &mut Vec<u8>,
    body: &mut Vec<u8>,
    piece: &[u8],
) -> Result<BodyStep, WireFault>
    requires { (framing : Follows) × (text : List ℕ) × BodyStands framing place held.old.items body.old.items text }
    ensures ok { IfOk result (λ step. (framing : Follows) (text : List ℕ) →
        BodyStands framing place held.old.items body.old.items text →
        BodyTakes framing step held.new.items body.new.items text piece.now) }
    ensures err { IfErr result (λ fault. fault ≢ WireFault.Memory → (framing : Follows) (text : List ℕ) →
        BodyStands framing place held.old.items body.old.items text → BodyRefuses framing (text ++ piece.now) fault) }
{
    match place {
        BodyPlace::Bytes(left) => take_bytes(left, body, piece),
        BodyPlace::Chunks(at) => take_chunked(at, held, body, piece),
        BodyPlace::Close => take_close(body, piece),
        BodyPlace::Whole => Ok(BodyStep { used: 0, place }),
    }
}

// Takes the next bytes of a body of a length, of which so many are still to come.
fn take_bytes(left: u64, body: &mut Vec<u8>, piece: &[u8]) -> Result<BodyStep, WireFault>
    requires { 0 < left }
    ensures ok { IfOk result (λ step. (number : ℕ) (held : List ℕ) → length body.old.items + left ≡ number →
        BodyTakes (Follows.Bytes number) step held body.new.items body.old.items piece.now) }
    ensures err { IfErr result (λ fault. fault ≡ WireFault.Memory) }
{
    let used = piece.len().min(left as usize);
    body.extend_from_slice(&piece[..used])?;
    let rest = left - used as u64;
    let place = if rest == 0 {
        BodyPlace::Whole
    } else {
        BodyPlace::Bytes(rest)
    };
    Ok(BodyStep { used, place })
}

// Takes the next bytes of a body in chunks, which stands there.
fn take_chunked(
    at: ChunkPlace,
    held: &mut Vec<u8>,
    body: &mut Vec<u8>,
    piece: &[u8],
) -> Result<BodyStep, WireFault>
    requires { (text : List ℕ) × StandsAt at held.old.items body.old.items text }
    ensures ok { IfOk result (λ step. (text : List ℕ) → StandsAt at held.old.items body.old.items text →
        BodyTakes Follows.Chunks step held.new.items body.new.items text piece.now) }
    ensures err { IfErr result (λ fault. fault ≢ WireFault.Memory → (text : List ℕ) →
        StandsAt at held.old.items body.old.items text → BodyRefuses Follows.Chunks (text ++ piece.now) fault) }
{
    let step = take_chunks(at, held, body, piece)?;
    let place = if step.place == ChunkPlace::Whole {
        BodyPlace::Whole
    } else {
        BodyPlace::Chunks(step.place)
    };
    Ok(BodyStep {
        used: step.used,
        place,
    })
}

// Takes the next bytes of a body that ends with the close.
fn take_close(body: &mut Vec<u8>, piece: &[u8]) -> Result<BodyStep, WireFault>
    requires { length body.old.items ≤ body_limit }
    ensures ok { IfOk result (λ step. (held : List ℕ) →
        BodyTakes Follows.Close step held body.new.items body.old.items piece.now) }
    ensures err { IfErr result (λ fault. fault ≢ WireFault.Memory →
        BodyRefuses Follows.Close (body.old.items ++ piece.now) fault) }
{
    if piece.len() > BODY_LIMIT - body.len() {
        return Err(WireFault::BodyTooLong);
    }
    body.extend_from_slice(piece)?;
    Ok(BodyStep {
        used: piece.len(),
        place: BodyPlace::Close,
    })
}
