// A response, from its heads to its body.
ghost use Rattle.std.specs.Prelude.{◌≡◌, ◌≢◌, ◌++◌, [], IfErr, IfOk, List, ℕ};
ghost use Rattle.ld_wire.specs.Body.{BodyStands};
ghost use Rattle.ld_wire.specs.Heads.{BehindHead, KeepsHeaders, HeadsView, InHead, ShowsRefused, heads_view};
ghost use Rattle.ld_wire.specs.Reader.{AdvancesTo, stage_of};
ghost use Rattle.ld_wire.specs.Response.{Refuses};
ghost use Rattle.ld_wire.specs.declared.framing.Follows.{Follows};

use crate::body::{open_body, take_body};
use crate::body_place::BodyPlace;
use crate::fault::WireFault;
use crate::framing::Follows;
use crate::heads::Heads;
use crate::stage::{Advance, Stage};

// Takes the next bytes of a response whose final head isn't whole yet.
pub fn start(
    heads: &mut Heads,
    held: &mut Vec<u8>,
    body: &mut Vec<u8>,
    piece: &[u8],
) -> Result<Advance, WireFault>
    requires room { KeepsHeaders heads.old }
    requires stands { (bytes : List ℕ) × InHead (heads_view heads.old) bytes }
    requires empty { (held.old.items ≡ []) × (body.old.items ≡ []) }
    ensures room { KeepsHeaders heads.new }
    ensures same { heads.new.for_head ≡ heads.old.for_head }
    ensures ok { IfOk result (λ step. (bytes : List ℕ) → InHead (heads_view heads.old) bytes →
        AdvancesTo step.stage step.used (heads_view heads.new) held.new.items body.new.items bytes piece.now) }
    ensures err { IfErr result (λ fault. fault ≢ WireFault.Memory → (bytes : List ℕ) →
        InHead (heads_view heads.old) bytes → Refuses heads.old.for_head (bytes ++ piece.now) fault) }
    ensures shown { IfErr result (λ fault. fault ≢ WireFault.Memory → (bytes : List ℕ) →
        InHead (heads_view heads.old) bytes → ShowsRefused (heads_view heads.new) (bytes ++ piece.now)) }
{
    let step = heads.take_heads(piece)?;
    if step.follows == Follows::Head {
        return Ok(Advance {
            used: step.used,
            stage: Stage::Head,
        });
    }
    let (_, rest) = piece.split_at(step.used);
    match follow(open_body(step.follows), held, body, rest) {
        Ok(behind) => Ok(Advance {
            used: step.used.saturating_add(behind.used),
            stage: behind.stage,
        }),
        Err(fault) => Err(fault),
    }
}

// Takes the next bytes of a response behind its final head.
pub fn follow(
    place: BodyPlace,
    held: &mut Vec<u8>,
    body: &mut Vec<u8>,
    piece: &[u8],
) -> Result<Advance, WireFault>
    requires { (framing : Follows) × (text : List ℕ) × BodyStands framing place held.old.items body.old.items text }
    ensures ok { IfOk result (λ step. (heads : HeadsView) (framing : Follows) (front text : List ℕ) →
        BehindHead heads framing front → BodyStands framing place held.old.items body.old.items text →
        AdvancesTo step.stage step.used heads held.new.items body.new.items (front ++ text) piece.now) }
    ensures err { IfErr result (λ fault. fault ≢ WireFault.Memory →
        (heads : HeadsView) (framing : Follows) (front text : List ℕ) →
        BehindHead heads framing front → BodyStands framing place held.old.items body.old.items text →
        Refuses heads.for_head ((front ++ text) ++ piece.now) fault) }
{
    match take_body(place, held, body, piece) {
        Ok(step) => Ok(Advance {
            used: step.used,
            stage: stage_of(step.place),
        }),
        Err(fault) => Err(fault),
    }
}

// Where a response stands whose body stands there.
fn stage_of(place: BodyPlace) -> Stage
    ensures { result ≡ stage_of place }
{
    match place {
        BodyPlace::Whole => Stage::Whole,
        _ => Stage::Body(place),
    }
}
