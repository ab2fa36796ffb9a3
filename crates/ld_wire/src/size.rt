ghost use Rattle.std.specs.Prelude.{◌≤◌, IfErr, IfNone, IfOk, IfSome, length};
ghost use Rattle.ld_wire.specs.Chunks.{HasSizeFault, size_line_limit};
ghost use Rattle.ld_wire.specs.Found.{IsOpenSize, IsSizeAt};

use crate::fault::WireFault;
use httparse::{Status, parse_chunk_size};

const SIZE_LINE_LIMIT: usize = 4096;

// The whole size line that its first bytes begin with, where there is one yet: its length, and the size.
pub fn find_size(bytes: &[u8]) -> Result<Option<(usize, u64)>, WireFault>
    requires { length bytes.now ≤ size_line_limit }
    ensures whole { IfOk result (λ found. IfSome found (λ line. IsSizeAt bytes.now line.0 line.1)) }
    ensures unsure { IfOk result (λ found. IfNone found (IsOpenSize bytes.now)) }
    ensures refused { IfErr result (HasSizeFault bytes.now) }
{
    match parse_chunk_size(bytes) {
        Ok(Status::Complete(line)) => Ok(Some(line)),
        Ok(Status::Partial) if bytes.len() < SIZE_LINE_LIMIT => Ok(None),
        Ok(Status::Partial) => Err(WireFault::BadChunk),
        Err(_) => Err(WireFault::BadChunk),
    }
}
