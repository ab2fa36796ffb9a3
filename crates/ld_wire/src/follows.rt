ghost use Rattle.std.specs.Prelude.{◌≡◌, All, length, map};
ghost use Rattle.httparse.specs.Spans.{IsHeaderWithin, header_bytes};
ghost use Rattle.ld_wire.specs.Head.{by_headers, by_length, first_value, follows, has_no_body, is_interim, sized};

use crate::fault::WireFault;
use crate::framing::Follows;
use crate::headers::{first_value, has_header, have_length, is_coded};
use crate::length::{is_length, value_of};
use httparse::spans::HeaderSpan;

const HEADER_LIMIT: usize = 100;

const INTERIM_LIMIT: u64 = 10;

const BODY_LIMIT: u64 = 16_777_216;

// What follows a head, or the first of its faults.
pub fn follows(
    for_head: bool,
    interims: u64,
    status: u16,
    bytes: &[u8],
    spans: &[HeaderSpan],
) -> Result<Follows, WireFault>
    requires { All (IsHeaderWithin (length bytes.now)) spans.now }
    ensures { result ≡ follows for_head interims status (map (header_bytes bytes.now) spans.now) }
{
    if spans.len() > HEADER_LIMIT {
        return Err(WireFault::TooManyHeaders);
    }
    if status == 101 {
        return Err(WireFault::BadHead);
    }
    let interim = status / 100 == 1;
    if interim && interims >= INTERIM_LIMIT {
        return Err(WireFault::TooManyInterims);
    }
    if is_coded(bytes, spans) {
        return Err(WireFault::BadCoding);
    }
    if interim {
        return Ok(Follows::Head);
    }
    if for_head || status == 204 || status == 304 {
        return Ok(Follows::Nothing);
    }
    by_headers(bytes, spans)
}

// How the headers of a final response frame its body.
fn by_headers(bytes: &[u8], spans: &[HeaderSpan]) -> Result<Follows, WireFault>
    requires { All (IsHeaderWithin (length bytes.now)) spans.now }
    ensures { result ≡ by_headers (map (header_bytes bytes.now) spans.now) }
{
    if has_header(bytes, spans, b"transfer-encoding") {
        return Ok(Follows::Chunks);
    }
    let Some(value) = first_value(bytes, spans, b"content-length") else {
        return Ok(Follows::Close);
    };
    if !is_length(value) {
        return Err(WireFault::BadLength);
    }
    let number = value_of(value);
    if !have_length(bytes, spans, number) {
        return Err(WireFault::BadLength);
    }
    sized(number)
}

// A body of this length.
fn sized(number: u64) -> Result<Follows, WireFault>
    ensures { result ≡ sized number }
{
    if number > BODY_LIMIT {
        return Err(WireFault::BodyTooLong);
    }
    Ok(Follows::Bytes(number))
}
