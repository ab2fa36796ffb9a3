// The text of a request.
ghost use Rattle.std.specs.Prelude.{◌≡◌, ◌++◌, IfErr, OnErr, OnOk, map};
ghost use Rattle.std.specs.List.{concat};
ghost use Rattle.ld_line.specs.Line.{Grows};
ghost use Rattle.ld_wire.specs.Order.{in_order};
ghost use Rattle.ld_wire.specs.declared.fault.WireFault.TheVariants.{Memory};
ghost use Rattle.ld_wire.specs.Request.{content_of, ended, ended_header, head_lines, length_headers, request_line, request_text, tells_length};

use crate::fault::WireFault;
use crate::order::in_order;
use itoa::Buffer;
use ld_base::{RequestSpec, Text};
use ld_line::{Word, put_words};

/// Appends the text of a request (RFC 9112): its line, the headers `Host` and `Connection: close`, its own headers in
/// byte order of names, `Content-Length` where there is content or the method is `POST`, `PUT` or `PATCH`, an empty
/// line, and the content.
///
/// Fails where the allocator gives no memory for it; `into` is then as before.
pub fn request_text(spec: &RequestSpec, into: &mut Vec<u8>) -> Result<(), WireFault>
    ensures ok { OnOk result (into.new.items ≡ into.old.items ++ request_text spec.now) }
    ensures err { OnErr result (into.new.items ≡ into.old.items) }
    ensures memory { IfErr result (λ fault. fault ≡ Memory) }
{
    let length = into.len();
    match put_request(spec, into) {
        Ok(()) => Ok(()),
        Err(fault) => {
            into.truncate(length);
            Err(fault)
        }
    }
}

// Appends a request.
fn put_request(spec: &RequestSpec, into: &mut Vec<u8>) -> Result<(), WireFault>
    ensures ok { OnOk result (into.new.items ≡ into.old.items ++ request_text spec.now) }
    ensures err { OnErr result (Grows into.old.items into.new.items) }
    ensures memory { IfErr result (λ fault. fault ≡ Memory) }
{
    put_head(spec, into)?;
    into.extend_from_slice(content(spec))?;
    Ok(())
}

// Appends the head of a request.
fn put_head(spec: &RequestSpec, into: &mut Vec<u8>) -> Result<(), WireFault>
    ensures ok { OnOk result (into.new.items ≡ into.old.items ++ concat (head_lines spec.now)) }
    ensures err { OnErr result (Grows into.old.items into.new.items) }
    ensures memory { IfErr result (λ fault. fault ≡ Memory) }
{
    put_request_line(spec, into)?;
    put_header(b"Host", spec.authority.as_slice(), into)?;
    put_header(b"Connection", b"close", into)?;
    put_own_headers(spec.headers.as_slice(), into)?;
    put_length(spec, into)?;
    into.extend_from_slice(b"\r\n")?;
    Ok(())
}

// Appends the first line of a request.
fn put_request_line(spec: &RequestSpec, into: &mut Vec<u8>) -> Result<(), WireFault>
    ensures ok { OnOk result (into.new.items ≡ into.old.items ++ ended (request_line spec.now)) }
    ensures err { OnErr result (Grows into.old.items into.new.items) }
    ensures memory { IfErr result (λ fault. fault ≡ Memory) }
{
    put_words(
        into,
        &[
            Word::Text(spec.method.as_slice()),
            Word::Text(spec.target.as_slice()),
            Word::Text(b"HTTP/1.1"),
        ],
    )?;
    into.extend_from_slice(b"\r\n")?;
    Ok(())
}

// Appends the line of a header.
fn put_header(name: &[u8], value: &[u8], into: &mut Vec<u8>) -> Result<(), WireFault>
    ensures ok { OnOk result (into.new.items ≡ into.old.items ++ ended_header (name.now, value.now)) }
    ensures err { OnErr result (Grows into.old.items into.new.items) }
    ensures memory { IfErr result (λ fault. fault ≡ Memory) }
{
    into.extend_from_slice(name)?;
    into.extend_from_slice(b": ")?;
    into.extend_from_slice(value)?;
    into.extend_from_slice(b"\r\n")?;
    Ok(())
}

// Appends the lines of a request's own headers, in order.
fn put_own_headers(headers: &[(Text, Text)], into: &mut Vec<u8>) -> Result<(), WireFault>
    ensures ok { OnOk result (into.new.items ≡ into.old.items ++ concat (map ended_header (in_order headers.now))) }
    ensures err { OnErr result (Grows into.old.items into.new.items) }
    ensures memory { IfErr result (λ fault. fault ≡ Memory) }
{
    let sent = in_order(*into.allocator(), headers)?;
    put_headers(&sent, into)
}

// Appends the lines of headers.
fn put_headers(headers: &[&(Text, Text)], into: &mut Vec<u8>) -> Result<(), WireFault>
    ensures ok { OnOk result (into.new.items ≡ into.old.items ++ concat (map (λ header. ended_header header.now) headers.now)) }
    ensures err { OnErr result (Grows into.old.items into.new.items) }
    ensures memory { IfErr result (λ fault. fault ≡ Memory) }
{
    for header in headers {
        put_header(header.0.as_slice(), header.1.as_slice(), into)?;
    }
    Ok(())
}

// Appends the line that tells the length of the content, where a request has one.
fn put_length(spec: &RequestSpec, into: &mut Vec<u8>) -> Result<(), WireFault>
    ensures ok { OnOk result (into.new.items ≡ into.old.items ++ concat (map ended_header (length_headers spec.now))) }
    ensures err { OnErr result (Grows into.old.items into.new.items) }
    ensures memory { IfErr result (λ fault. fault ≡ Memory) }
{
    if tells_length(spec) {
        let mut digits = Buffer::new();
        let length = digits.format(content(spec).len());
        put_header(b"Content-Length", length.as_bytes(), into)?;
    }
    Ok(())
}

// Whether the length of the content is told.
fn tells_length(spec: &RequestSpec) -> bool
    ensures { result ≡ tells_length spec.now }
{
    let method = spec.method.as_slice();
    spec.body.is_some()
        || method == b"POST".as_slice()
        || method == b"PUT".as_slice()
        || method == b"PATCH".as_slice()
}

// The content of a request, which is empty where there is none.
fn content(spec: &RequestSpec) -> &[u8]
    ensures { result.now ≡ content_of spec.now }
{
    match &spec.body {
        Some(body) => body.as_slice(),
        None => b"",
    }
}
