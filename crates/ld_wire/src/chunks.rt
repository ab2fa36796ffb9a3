// A body in chunks.
ghost use Rattle.std.specs.Prelude.{◌≢◌, ◌<◌, ◌++◌, IfErr, IfOk, List, ℕ, length};
ghost use Rattle.ld_wire.specs.Chunks.{ChunksRefuse};
ghost use Rattle.ld_wire.specs.Standing.{StandsAt, Steps, Takes};

use crate::data::{take_data, take_feed, take_return};
use crate::fault::WireFault;
use crate::place::{ChunkPlace, ChunkStep};
use crate::size_step::take_size;
use crate::trailer_step::take_trailer;

// Takes the next bytes of a body in chunks that isn't whole: as many of them as one part of it has.
fn chunk_step(
    place: ChunkPlace,
    held: &mut Vec<u8>,
    body: &mut Vec<u8>,
    piece: &[u8],
) -> Result<ChunkStep, WireFault>
    requires some { 0 < length piece.now }
    requires stands { (text : List ℕ) × StandsAt place held.old.items body.old.items text }
    requires open { place ≢ ChunkPlace.Whole }
    ensures ok { IfOk result (λ step. (text : List ℕ) → StandsAt place held.old.items body.old.items text →
        Steps step held.new.items body.new.items text piece.now) }
    ensures err { IfErr result (λ fault. fault ≢ WireFault.Memory → (text : List ℕ) →
        StandsAt place held.old.items body.old.items text → ChunksRefuse (text ++ piece.now) fault) }
{
    match place {
        ChunkPlace::Size => take_size(body.len() as u64, held, piece),
        ChunkPlace::Data(left) => take_data(left, body, piece),
        ChunkPlace::Return => take_return(piece),
        ChunkPlace::Feed => {
            held.clear();
            take_feed(piece)
        }
        ChunkPlace::Trailer(line, seen) => take_trailer(line, seen, piece),
        ChunkPlace::Whole => Ok(ChunkStep { used: 0, place }),
    }
}

// Takes the next bytes of a body in chunks, up to its end where it comes.
pub fn take_chunks(
    first: ChunkPlace,
    held: &mut Vec<u8>,
    body: &mut Vec<u8>,
    piece: &[u8],
) -> Result<ChunkStep, WireFault>
    requires { (text : List ℕ) × StandsAt first held.old.items body.old.items text }
    ensures ok { IfOk result (λ step. (text : List ℕ) → StandsAt first held.old.items body.old.items text →
        Takes step held.new.items body.new.items text piece.now) }
    ensures err { IfErr result (λ fault. fault ≢ WireFault.Memory → (text : List ℕ) →
        StandsAt first held.old.items body.old.items text → ChunksRefuse (text ++ piece.now) fault) }
{
    let mut place = first;
    let mut used = 0;
    while used < piece.len() && place != ChunkPlace::Whole {
        let (_, rest) = piece.split_at(used);
        let step = chunk_step(place, held, body, rest)?;
        used += step.used;
        place = step.place;
    }
    Ok(ChunkStep { used, place })
}
