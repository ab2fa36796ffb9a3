ghost use Rattle.std.specs.Prelude.{◌≤◌, ◌*◌, IfErr, IfNone, IfOk, IfSome, length};
ghost use Rattle.httparse.specs.Spans.{IsResponseOf, IsResponseWithin};
ghost use Rattle.ld_wire.specs.Found.{IsOpenHead};
ghost use Rattle.ld_wire.specs.Head.{head_limit};
ghost use Rattle.ld_wire.specs.Response.{HasHeadFault};

use crate::fault::WireFault;
use httparse::Status;
use httparse::spans::{HeaderSpan, ResponseSpans, parse_response};

const HEAD_LIMIT: usize = 65_536;

// The whole head that the first bytes of a head begin with, where there is one yet.
pub fn find_head(bytes: &[u8], room: &mut [HeaderSpan]) -> Result<Option<ResponseSpans>, WireFault>
    requires many { length bytes.now ≤ 3 * length room.old }
    requires short { length bytes.now ≤ head_limit }
    ensures whole { IfOk result (λ found. IfSome found (IsResponseOf bytes.now room.new)) }
    ensures within { IfOk result (λ found. IfSome found (IsResponseWithin bytes.now room.new)) }
    ensures unsure { IfOk result (λ found. IfNone found (IsOpenHead bytes.now)) }
    ensures refused { IfErr result (HasHeadFault bytes.now) }
{
    match parse_response(bytes, room) {
        Ok(Status::Complete(found)) => Ok(Some(found)),
        Ok(Status::Partial) if bytes.len() < HEAD_LIMIT => Ok(None),
        Ok(Status::Partial) => Err(WireFault::HeadTooLong),
        Err(_) => Err(WireFault::BadHead),
    }
}
