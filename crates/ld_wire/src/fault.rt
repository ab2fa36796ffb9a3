ghost use Rattle.std.specs.Prelude.{◌≡◌};
ghost use Rattle.ld_wire.specs.declared.fault.WireFault.TheVariants.{Memory};

use ld_base::BaseFault;
use std::alloc::AllocError;
use thiserror::Error;

/// Why a request isn't written, or why what comes back is no response.
#[derive(Clone, Copy, Debug, PartialEq, Eq, Error)]
pub enum WireFault {
    /// No continuation of the head is a head, or the head's status is 101.
    #[error("the bytes are no response")]
    BadHead,
    /// 65,536 bytes have no whole head.
    #[error("the head is too long")]
    HeadTooLong,
    /// A head has over 100 headers.
    #[error("the head has too many headers")]
    TooManyHeaders,
    /// A `Content-Length` isn't 1 to 19 digits, or two differ in value.
    #[error("the length of the body is no number, or two")]
    BadLength,
    /// A `Transfer-Encoding` isn't `chunked`, or a `Content-Encoding` isn't `identity`.
    #[error("the body is coded in an unknown way")]
    BadCoding,
    /// A chunk's size line, its end or the trailer can't be continued, or is too long.
    #[error("the chunks of the body are no chunks")]
    BadChunk,
    /// The body is over 16,777,216 bytes long.
    #[error("the body is too long")]
    BodyTooLong,
    /// An eleventh interim response came.
    #[error("there are too many interim responses")]
    TooManyInterims,
    /// The peer ended before the response was whole.
    #[error("the response is cut short")]
    CutShort,
    /// The allocator gave no memory.
    #[error("out of memory")]
    Memory,
}

impl From<AllocError> for WireFault {
    ghost from_gives = { λ _ fault. fault ≡ Memory };

    fn from(_error: AllocError) -> WireFault {
        WireFault::Memory
    }
}

impl From<BaseFault> for WireFault {
    ghost from_gives = { λ _ fault. fault ≡ Memory };

    fn from(_error: BaseFault) -> WireFault {
        WireFault::Memory
    }
}
