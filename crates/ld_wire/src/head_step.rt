ghost use Rattle.std.specs.Prelude.{◌≡◌, ◌≢◌, ◌<◌, ◌≤◌, ◌*◌, ◌++◌, IfErr, IfNone, IfOk, IfSome, OnOk, length, take};
ghost use Rattle.ld_wire.specs.Found.{IsOpenHead};
ghost use Rattle.ld_wire.specs.Heads.{HeadEnds};
ghost use Rattle.ld_wire.specs.Response.{HasHeadFault};

use crate::fault::WireFault;
use crate::head::find_head;
use httparse::spans::{EMPTY_HEADER_SPAN, HeaderSpan, ResponseSpans};

const HEAD_LIMIT: usize = 65_536;

// What bytes more made of a head: so many of them belong to it, and where its parts are, once it is whole.
#[derive(Clone, Copy)]
pub struct HeadStep {
    pub used: usize,
    pub found: Option<ResponseSpans>,
}

// Takes the next bytes of a head, up to its end where it comes. `head` has those that came of it.
pub fn take_head(
    head: &mut Vec<u8>,
    room: &mut Vec<HeaderSpan>,
    piece: &[u8],
) -> Result<HeadStep, WireFault>
    requires { IsOpenHead head.old.items }
    ensures none { IfOk result (λ step. IfNone step.found ((step.used ≤ length piece.now)
        × (0 < length piece.now → 0 < step.used) × (head.new.items ≡ head.old.items ++ take step.used piece.now)
        × IsOpenHead head.new.items)) }
    ensures whole { IfOk result (λ step. IfSome step.found
        (HeadEnds head.old.items head.new.items room.new.items piece.now step.used)) }
    ensures refused { IfErr result (λ fault. fault ≢ WireFault.Memory →
        HasHeadFault (head.old.items ++ piece.now) fault) }
{
    let before = head.len();
    let window = through_empty_line(piece).min(HEAD_LIMIT - before);
    head.extend_from_slice(&piece[..window])?;
    widen(room, head.len())?;
    match find_head(head, room) {
        Ok(Some(found)) => {
            head.truncate(found.len);
            Ok(HeadStep {
                used: found.len.saturating_sub(before),
                found: Some(found),
            })
        }
        Ok(None) => Ok(HeadStep {
            used: window,
            found: None,
        }),
        Err(fault) => Err(fault),
    }
}

// Gives room for the headers of a head of so many bytes, of which each has three bytes or more.
fn widen(room: &mut Vec<HeaderSpan>, bytes: usize) -> Result<(), WireFault>
    ensures ok { OnOk result (bytes ≤ 3 * length room.new.items) }
    ensures err { IfErr result (λ fault. fault ≡ WireFault.Memory) }
{
    let most = bytes / 3 + 1;
    if room.len() < most {
        room.resize(most, EMPTY_HEADER_SPAN)?;
    }
    Ok(())
}

// The bytes up to and with the first empty line behind another, where a head may end, or all of them.
fn through_empty_line(piece: &[u8]) -> usize
    ensures inside { result ≤ length piece.now }
    ensures some { 0 < length piece.now → 0 < result }
{
    let mut filled = false;
    let mut empty = false;
    for (at, byte) in piece.iter().enumerate() {
        if *byte == b'\n' && empty && filled {
            return at + 1;
        }
        filled = filled || (*byte != b'\n' && *byte != b'\r');
        empty = *byte == b'\n' || (empty && *byte == b'\r');
    }
    piece.len()
}
