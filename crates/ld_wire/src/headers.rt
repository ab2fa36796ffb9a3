// Headers, as places in the bytes of a head.
ghost use Rattle.std.specs.Prelude.{◌≡◌, All, length, map};
ghost use Rattle.std.specs.List.{list_all, list_any};
ghost use Rattle.std.specs.Option.{option_copied};
ghost use Rattle.std.specs.Str.{str_eq_ignore_ascii_case};
ghost use Rattle.httparse.specs.Spans.{IsHeaderWithin, header_bytes};
ghost use Rattle.ld_wire.specs.Head.{first_value, has_length, is_coding, is_named};

use crate::length::is_length_of;
use httparse::spans::HeaderSpan;

// Whether two words are the same, letters' case aside.
pub fn is_same(word: &[u8], other: &[u8]) -> bool
    ensures { result ≡ str_eq_ignore_ascii_case word.now other.now }
{
    word.eq_ignore_ascii_case(other)
}

// The value of the first header of this name.
pub fn first_value<'a>(bytes: &'a [u8], spans: &[HeaderSpan], name: &[u8]) -> Option<&'a [u8]>
    requires { All (IsHeaderWithin (length bytes.now)) spans.now }
    ensures { option_copied result ≡ first_value name.now (map (header_bytes bytes.now) spans.now) }
{
    for span in spans {
        if is_same(span.name.of(bytes), name) {
            return Some(span.value.of(bytes));
        }
    }
    None
}

// Whether some header has this name.
pub fn has_header(bytes: &[u8], spans: &[HeaderSpan], name: &[u8]) -> bool
    requires { All (IsHeaderWithin (length bytes.now)) spans.now }
    ensures { result ≡ list_any (is_named name.now) (map (header_bytes bytes.now) spans.now) }
{
    for span in spans {
        if is_same(span.name.of(bytes), name) {
            return true;
        }
    }
    false
}

// Whether some header codes the body in another way than in plain chunks.
pub fn is_coded(bytes: &[u8], spans: &[HeaderSpan]) -> bool
    requires { All (IsHeaderWithin (length bytes.now)) spans.now }
    ensures { result ≡ list_any is_coding (map (header_bytes bytes.now) spans.now) }
{
    for span in spans {
        if is_coding(span.name.of(bytes), span.value.of(bytes)) {
            return true;
        }
    }
    false
}

// Whether a header codes the body so.
fn is_coding(name: &[u8], value: &[u8]) -> bool
    ensures { result ≡ is_coding (name.now, value.now) }
{
    if is_same(name, b"transfer-encoding") && !is_same(value, b"chunked") {
        return true;
    }
    is_same(name, b"content-encoding") && !is_same(value, b"identity")
}

// Whether each header of a length has this one.
pub fn have_length(bytes: &[u8], spans: &[HeaderSpan], number: u64) -> bool
    requires { All (IsHeaderWithin (length bytes.now)) spans.now }
    ensures { result ≡ list_all (has_length number) (map (header_bytes bytes.now) spans.now) }
{
    for span in spans {
        if !has_length(span.name.of(bytes), span.value.of(bytes), number) {
            return false;
        }
    }
    true
}

// Whether a header is none of a length, or one of this length.
fn has_length(name: &[u8], value: &[u8], number: u64) -> bool
    ensures { result ≡ has_length number (name.now, value.now) }
{
    !is_same(name, b"content-length") || is_length_of(value, number)
}
