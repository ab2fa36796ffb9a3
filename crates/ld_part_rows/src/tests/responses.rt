// The reader of responses.

use crate::tests::table::{Call, add, check, named, number, put, text_of};
use ld_wire::{Feed, ResponseReader, WireFault};
use std::alloc::Global;
use std::test::Fail;

// A method, the name of a header behind a question mark, and a mark where the peer ended behind the bytes that come
// then. A piece of them between angles is there as often as its number says. What is wanted: that there must come more,
// or of how many bytes a whole response is, or the refusal; then the status, the body and the value of the header.
// Those are by RFC 9112 and RFC 9110, the lengths are counted.
const ANSWERS: &str =
    r#"GET HTTP/1.1 200 OK\r\nContent-Length: 5\r\n\r\nhello => Whole 43 200 "hello"
GET HTTP/1.1 200 OK\r\nContent-Length: 0\r\n\r\n => Whole 38 200 ""
GET HTTP/1.1 200 OK\r\ncontent-length:5\r\n\r\nhelloHTTP/1.1 500 No\r\n => Whole 42 200 "hello"
GET HTTP/1.1 200 OK\r\nContent-Length: 00005\r\n\r\nhello => Whole 47 200 "hello"
GET HTTP/1.1 200 OK\r\nContent-Length: 5\r\nContent-Length: 05\r\n\r\nhello => Whole 63 200 "hello"
GET HTTP/1.1 200 OK\r\nContent-Length:\t 5 \t\r\n\r\nhello => Whole 46 200 "hello"
GET HTTP/1.0 200 OK\r\nContent-Length: 2\r\n\r\nok => Whole 40 200 "ok"
GET HTTP/1.1 200\r\nContent-Length: 2\r\n\r\nok => Whole 37 200 "ok"
GET HTTP/1.1 200 \r\nContent-Length: 2\r\n\r\nok => Whole 38 200 "ok"
GET HTTP/1.1 200 OK\nContent-Length: 2\n\nok => Whole 37 200 "ok"
GET \r\n\nHTTP/1.1 200 OK\r\nContent-Length: 2\r\n\r\nok => Whole 43 200 "ok"
GET HTTP/1.1 999 Odd\r\nContent-Length: 1\r\n\r\nx => Whole 40 999 "x"
GET HTTP/1.1 404 Not Found\r\nContent-Length: 9\r\n\r\nnot found => Whole 54 404 "not found"
GET HTTP/1.1 200 OK\r\nContent-Length: 0000000000000000003\r\n\r\nabc => Whole 59 200 "abc"
GET HTTP/1.1 200 OK\r\nContent-Length: 5\r\n\r\nhell => Again 200
GET! HTTP/1.1 200 OK\r\nContent-Length: 5\r\n\r\nhell => CutShort 200
GET HTTP/1.1 200 OK\r\nContent-Length: 2\r\nContent-Length: 3\r\n\r\nabc => BadLength 200
GET HTTP/1.1 200 OK\r\nContent-Length: +2\r\n\r\nab => BadLength 200
GET HTTP/1.1 200 OK\r\nContent-Length: 2, 2\r\n\r\nab => BadLength 200
GET HTTP/1.1 200 OK\r\nContent-Length:\r\n\r\n => BadLength 200
GET HTTP/1.1 200 OK\r\nContent-Length: 0x2\r\n\r\nab => BadLength 200
GET HTTP/1.1 200 OK\r\nContent-Length: 00000000000000000002\r\n\r\nab => BadLength 200
GET HTTP/1.1 200 OK\r\nContent-Length: 16777217\r\n\r\n => BodyTooLong 200
GET HTTP/1.1 200 OK\r\nContent-Length: 9999999999999999999\r\n\r\n => BodyTooLong 200
GET HTTP/1.1 200 OK\r\nContent-Length: 16777216\r\n\r\na => Again 200
GET HTTP/1.1 200 OK\r\nTransfer-Encoding: chunked\r\n\r\n5\r\nhello\r\n0\r\n\r\n => Whole 62 200 "hello"
GET HTTP/1.1 200 OK\r\nTransfer-Encoding: chunked\r\n\r\n0\r\n\r\n => Whole 52 200 ""
GET HTTP/1.1 200 OK\r\nTransfer-Encoding: chunked\r\n\r\n4\r\nWiki\r\n6\r\npedia \r\nE\r\nin \r\n\r\nchunks.\r\n0\r\n\r\n => Whole 91 200 "Wikipedia in \r\n\r\nchunks."
GET HTTP/1.1 200 OK\r\nTransfer-Encoding: chunked\r\n\r\n5;name=value\r\nhello\r\n0;last\r\n\r\n0\r\n => Whole 78 200 "hello"
GET HTTP/1.1 200 OK\r\nTransfer-Encoding: chunked\r\n\r\n0000000000000005 \r\nhello\r\n000\r\n\r\n => Whole 80 200 "hello"
GET HTTP/1.1 200 OK\r\nTransfer-Encoding: chunked\r\n\r\na\r\n0123456789\r\nA\r\n9876543210\r\n0\r\n\r\n => Whole 82 200 "01234567899876543210"
GET HTTP/1.1 200 OK\r\nTransfer-Encoding: chunked\r\n\r\n2\r\n\r\n\r\n0\r\n\r\n => Whole 59 200 "\r\n"
GET HTTP/1.1 200 OK\r\nTransfer-Encoding: chunked\r\n\r\n1\r\nx\r\n0\r\nExpires: never\r\nany line\n\r\nrest => Whole 83 200 "x"
GET HTTP/1.1 200 OK\r\nTransfer-Encoding: chunked\r\n\r\n1\r\nx\r\n0\r\n\n\n => Whole 57 200 "x"
GET HTTP/1.1 200 OK\r\nTransfer-Encoding: chunked\r\n\r\n1\r\nx\r\n0\r\na: b\r\n\n => Whole 63 200 "x"
GET HTTP/1.1 200 OK\r\nContent-Length: 3\r\nTransfer-Encoding: chunked\r\n\r\n5\r\nhello\r\n0\r\n\r\n => Whole 81 200 "hello"
GET HTTP/1.1 200 OK\r\nTransfer-Encoding: CHUNKED\r\nTransfer-Encoding: chunked\r\n\r\n1\r\ny\r\n0\r\n\r\n => Whole 86 200 "y"
GET HTTP/1.0 200 OK\r\nTransfer-Encoding: chunked\r\n\r\n1\r\ny\r\n0\r\n\r\n => Whole 58 200 "y"
GET HTTP/1.1 200 OK\r\nTransfer-Encoding: chunked\r\n\r\n5\r\nhello\r\n0\r\n => Again 200
GET HTTP/1.1 200 OK\r\nTransfer-Encoding: chunked\r\n\r\n5\r\nhello\r\n0\r\na: b\r\n\r => Again 200
GET HTTP/1.1 200 OK\r\nTransfer-Encoding: chunked\r\n\r\n5\r\nhello\r => Again 200
GET! HTTP/1.1 200 OK\r\nTransfer-Encoding: chunked\r\n\r\n5\r\nhello\r\n0\r\n => CutShort 200
GET HTTP/1.1 200 OK\r\nTransfer-Encoding: chunked\r\n\r\ng\r\n => BadChunk 200
GET HTTP/1.1 200 OK\r\nTransfer-Encoding: chunked\r\n\r\n\r\n => BadChunk 200
GET HTTP/1.1 200 OK\r\nTransfer-Encoding: chunked\r\n\r\n-1\r\n => BadChunk 200
GET HTTP/1.1 200 OK\r\nTransfer-Encoding: chunked\r\n\r\n00000000000000005\r\nhello\r\n => BadChunk 200
GET HTTP/1.1 200 OK\r\nTransfer-Encoding: chunked\r\n\r\n5\r\nhellox => BadChunk 200
GET HTTP/1.1 200 OK\r\nTransfer-Encoding: chunked\r\n\r\n5\r\nhello\rx => BadChunk 200
GET HTTP/1.1 200 OK\r\nTransfer-Encoding: chunked\r\n\r\n5\r\nhello\n0\r\n\r\n => BadChunk 200
GET HTTP/1.1 200 OK\r\nTransfer-Encoding: chunked\r\n\r\n1000001\r\n => BodyTooLong 200
GET HTTP/1.1 200 OK\r\nTransfer-Encoding: chunked\r\n\r\n1\r\nx\r\n1000000\r\n => BodyTooLong 200
GET HTTP/1.1 200 OK\r\nTransfer-Encoding: chunked\r\n\r\n1000000\r\n => Again 200
GET HTTP/1.1 200 OK\r\nTransfer-Encoding: chunked\r\n\r\nffffffffffffffff\r\n => BodyTooLong 200
GET HTTP/1.1 200 OK\r\nContent-Encoding: gzip\r\nContent-Length: 1\r\n\r\nx => BadCoding 200
GET HTTP/1.1 200 OK\r\nTransfer-Encoding: gzip, chunked\r\n\r\n0\r\n\r\n => BadCoding 200
GET HTTP/1.1 200 OK\r\nTransfer-Encoding: identity\r\n\r\n => BadCoding 200
GET HTTP/1.1 200 OK\r\nContent-Encoding: gzip\r\nContent-Length: x\r\n\r\n => BadCoding 200
GET HTTP/1.1 200 OK\r\nContent-Encoding: Identity\r\nContent-Length: 1\r\n\r\nx => Whole 67 200 "x"
HEAD HTTP/1.1 304 Not Modified\r\nContent-Encoding: br\r\n\r\n => BadCoding 304
GET! HTTP/1.1 200 OK\r\n\r\nall of it => Whole 28 200 "all of it"
GET! HTTP/1.1 200 OK\r\nConnection: close\r\n\r\n => Whole 38 200 ""
GET HTTP/1.1 200 OK\r\n\r\nall of it => Again 200
GET?SERVER! HTTP/1.0 500 Oops\r\nServer: old\r\n\r\ngone\r\n => Whole 40 500 "gone\r\n" Some("old")
HEAD HTTP/1.1 200 OK\r\nContent-Length: 5\r\n\r\nhello => Whole 38 200 ""
HEAD HTTP/1.1 200 OK\r\nTransfer-Encoding: chunked\r\n\r\n => Whole 47 200 ""
GET HTTP/1.1 204 No Content\r\n\r\n => Whole 27 204 ""
GET HTTP/1.1 204 No Content\r\nContent-Length: 3\r\n\r\nabc => Whole 46 204 ""
GET HTTP/1.1 304 Not Modified\r\nContent-Length: x\r\n\r\n => Whole 48 304 ""
GET?etag HTTP/1.1 304 Not Modified\r\nTransfer-Encoding: chunked\r\nETag: "a"\r\n\r\n => Whole 68 304 "" Some("\"a\"")
HEAD! HTTP/1.1 200 OK\r\n\r\n => Whole 19 200 ""
GET HTTP/1.1 100 Continue\r\n\r\nHTTP/1.1 201 Created\r\nContent-Length: 2\r\n\r\nok => Whole 70 201 "ok"
GET?link HTTP/1.1 103 Early Hints\r\nLink: </a.css*1>; rel=preload\r\n\r\nHTTP/1.1 200 OK\r\nContent-Length: 2\r\n\r\nok => Whole 95 200 "ok" None
GET! HTTP/1.1 102 P\r\nContent-Length: 9\r\n\r\nHTTP/1.1 199 Q\r\nContent-Length: 2\r\nContent-Length: 3\r\n\r\nHTTP/1.1 200 OK\r\n\r\n => Whole 112 200 ""
GET <HTTP/1.1 100 Continue\r\n\r\n*10>HTTP/1.1 200 OK\r\nContent-Length: 1\r\n\r\nx => Whole 289 200 "x"
GET <HTTP/1.1 100 Continue\r\n\r\n*11> => TooManyInterims 0
GET <HTTP/1.1 100 Continue\r\n\r\n*10> => Again 0
GET HTTP/1.1 100 Continue\r\n\r\n => Again 0
GET! HTTP/1.1 100 Continue\r\n\r\n => CutShort 0
GET HTTP/1.1 101 Switching Protocols\r\nUpgrade: x\r\n\r\n => BadHead 101
GET HTTP/1.1 100 Continue\r\nContent-Encoding: gzip\r\n\r\n => BadCoding 0
GET <HTTP/1.1 100 Continue\r\n\r\n*10>HTTP/1.1 101 S\r\n\r\n => BadHead 101
GET HTTP/1.1 200 OK\r\nA: b\r\n => Again 0
GET HTTP/1. => Again 0
GET! HTTP/1.1 200 OK\r\nA: b\r\n => CutShort 0
GET HTTP/2 => BadHead 0
GET http/1.1 => BadHead 0
GET HTTP/1.1 20x => BadHead 0
GET ICY 200 OK\r\n => BadHead 0
GET HTTP/1.1 200 OK\r\nA b: c\r\n => BadHead 0
GET HTTP/1.1 200 OK\r\n folded\r\n => BadHead 0
GET HTTP/1.1 200 OK\r\nA: b\r\n c\r\n\r\n => BadHead 0
GET HTTP/1.1 200 OK\r\nA: b\rc => BadHead 0
GET HTTP/1.1 200 OK\r\n: b => BadHead 0
GET! HTTP/1.1 200 OK\r\n<a: b\r\n*100>\r\nx => Whole 620 200 "x"
GET HTTP/1.1 200 OK\r\n<a: b\r\n*101>\r\nx => TooManyHeaders 200
GET HTTP/1.1 200 OK\r\n<a: b\r\n*101>Content-Encoding: gzip\r\nContent-Length: 1\r\nContent-Length: 2\r\n\r\nx => TooManyHeaders 200
GET HTTP/1.1 101 S\r\n<a: b\r\n*101>\r\n => TooManyHeaders 101
GET HTTP/1.1 200 OK\r\n<a: b\r\n*101> => Again 0
GET?etag HTTP/1.1 200 OK\r\nServer: nginx/1.24.0\r\nDate: Tue, 02 Dec 2025 10:00:00 GMT\r\nContent-Type: text/plain\r\nContent-Length: 13\r\nLast-Modified: Mon, 01 Dec 2025 09:00:00 GMT\r\nConnection: close\r\nETag: "692d5a90-d"\r\nAccept-Ranges: bytes\r\n\r\nHello, nginx! => Whole 244 200 "Hello, nginx!" Some("\"692d5a90-d\"")
GET?connection HTTP/1.1 200 OK\r\nServer: nginx/1.24.0\r\nDate: Tue, 02 Dec 2025 10:00:00 GMT\r\nContent-Type: text/plain\r\nTransfer-Encoding: chunked\r\nConnection: keep-alive\r\n\r\nc\r\nhello chunks\r\n0\r\n\r\n => Whole 178 200 "hello chunks" Some("keep-alive")
HEAD?content-length HTTP/1.1 200 OK\r\nServer: nginx/1.24.0\r\nDate: Tue, 02 Dec 2025 10:00:00 GMT\r\nContent-Type: text/plain\r\nContent-Length: 13\r\nConnection: keep-alive\r\n\r\n => Whole 148 200 "" Some("13")
GET HTTP/1.1 304 Not Modified\r\nServer: nginx/1.24.0\r\nDate: Tue, 02 Dec 2025 10:00:00 GMT\r\nConnection: keep-alive\r\nETag: "692d5a90-d"\r\n\r\n => Whole 132 304 ""
DELETE HTTP/1.1 204 No Content\r\nServer: nginx/1.24.0\r\nDate: Tue, 02 Dec 2025 10:00:00 GMT\r\nConnection: keep-alive\r\n\r\n => Whole 110 204 ""
GET?Location HTTP/1.1 301 Moved Permanently\r\nServer: nginx/1.24.0\r\nDate: Tue, 02 Dec 2025 10:00:00 GMT\r\nContent-Type: text/html\r\nContent-Length: 5\r\nLocation: http://localhost/a/\r\nConnection: close\r\n\r\nmoved => Whole 192 301 "moved" Some("http://localhost/a/")
POST HTTP/1.1 100 Continue\r\n\r\nHTTP/1.1 200 OK\r\nServer: nginx/1.24.0\r\nDate: Tue, 02 Dec 2025 10:00:00 GMT\r\nContent-Length: 4\r\n\r\ndone => Whole 126 200 "done"
GET HTTP/1.1 206 Partial Content\r\nServer: nginx/1.24.0\r\nDate: Tue, 02 Dec 2025 10:00:00 GMT\r\nContent-Length: 3\r\nContent-Range: bytes 0-2/13\r\n\r\nHel => Whole 142 206 "Hel"
GET HTTP/1.1 502 Bad Gateway\r\nServer: nginx/1.24.0\r\nDate: Tue, 02 Dec 2025 10:00:00 GMT\r\nContent-Type: text/html\r\nContent-Length: 8\r\nConnection: keep-alive\r\n\r\nupstream => Whole 163 502 "upstream"
GET?server HTTP/1.1 200 OK\r\nDate: Mon, 27 Jul 2009 12:28:53 GMT\r\nServer: Apache\r\nLast-Modified: Wed, 22 Jul 2009 19:15:56 GMT\r\nETag: "34aa387-d-1568eb00"\r\nAccept-Ranges: bytes\r\nContent-Length: 51\r\nVary: Accept-Encoding\r\nContent-Type: text/plain\r\n\r\nHello World! My content includes a trailing CRLF.\r\n => Whole 288 200 "Hello World! My content includes a trailing CRLF.\r\n" Some("Apache")
GET?content-TYPE HTTP/1.0 200 OK\r\nServer: SimpleHTTP/0.6 Python/3.11.2\r\nDate: Tue, 02 Dec 2025 10:00:00 GMT\r\nContent-type: text/plain\r\nContent-Length: 3\r\n\r\nabc => Whole 142 200 "abc" Some("text/plain")
GET?x-none HTTP/1.1 200 OK\r\nX-Powered-By: Express\r\nContent-Type: application/json; charset=utf-8\r\nContent-Length: 11\r\nETag: W/"b-x"\r\nConnection: keep-alive\r\nKeep-Alive: timeout=5\r\n\r\n{"ok":true} => Whole 182 200 "{\"ok\":true}" None
GET?a HTTP/1.1 200 OK\r\na: 1\r\nA: 2\r\nContent-Length: 0\r\n\r\n => Whole 50 200 "" Some("1")"#;

// The limits: 65,536 bytes of a head and of a trailer, 4,096 of a size line and 16,777,216 of a body.
const LIMITS: &str = r#"GET HTTP/1.1 200 OK\r\na: <b*65512>\r\n\r\n => Again 200
GET HTTP/1.1 200 OK\r\na: <b*65513>\r\n\r\n => HeadTooLong 0
GET HTTP/1.1 200 OK\r\na: <b*70000> => HeadTooLong 0
GET <\r\n*32768> => HeadTooLong 0
GET <\r\n*32767>H => Again 0
GET <\r\n*32767>HT => HeadTooLong 0
GET <\r\n*32767>HH => BadHead 0
GET HTTP/1.1 200 OK\r\nTransfer-Encoding: chunked\r\n\r\n1;<x*4092>\r\n => Again 200
GET HTTP/1.1 200 OK\r\nTransfer-Encoding: chunked\r\n\r\n1;<x*4093>\r\n => BadChunk 200
GET HTTP/1.1 200 OK\r\nTransfer-Encoding: chunked\r\n\r\n0\r\n<a\r\n*21844>aa\r => Again 200
GET HTTP/1.1 200 OK\r\nTransfer-Encoding: chunked\r\n\r\n0\r\n<a\r\n*21844>aa\r\n => BadChunk 200
GET HTTP/1.1 200 OK\r\nTransfer-Encoding: chunked\r\n\r\n0\r\n<a\r\n*21844>a\n\r\n => Whole 65586 200 ""
GET HTTP/1.1 200 OK\r\n\r\n<0123456789abcdef*1048576> => Again 200
GET HTTP/1.1 200 OK\r\n\r\n<0123456789abcdef*1048576>x => BodyTooLong 200"#;

// The byte that stands behind a stroke.
fn escaped(byte: u8) -> u8 {
    match byte {
        b'r' => b'\r',
        b'n' => b'\n',
        b't' => b'\t',
        _ => byte,
    }
}

// Appends the bytes of a text in which some are written behind a stroke.
fn put_bytes(into: &mut Vec<u8>, text: &str) -> Result<(), Fail> {
    let mut behind = false;
    for byte in text.bytes() {
        if behind {
            into.push(escaped(byte))?;
            behind = false;
        } else if byte == b'\\' {
            behind = true;
        } else {
            into.push(byte)?;
        }
    }
    Ok(())
}

// Appends a piece that a text gives with a star and a number, so many times.
fn put_times(into: &mut Vec<u8>, piece: &str) -> Result<(), Fail> {
    let (text, times) = piece.rsplit_once('*').unwrap_or((piece, "1"));
    let mut once = Vec::new(*into.allocator());
    put_bytes(&mut once, text)?;
    for _ in 0..number(times) {
        into.extend_from_slice(&once)?;
    }
    Ok(())
}

// The bytes of a row.
fn bytes_of(alloc: Global, text: &str) -> Result<Vec<u8>, Fail> {
    let mut bytes = Vec::new(alloc);
    for part in text.split('<') {
        match part.split_once('>') {
            Some((piece, rest)) => {
                put_times(&mut bytes, piece)?;
                put_bytes(&mut bytes, rest)?;
            }
            None => put_bytes(&mut bytes, part)?,
        }
    }
    Ok(bytes)
}

// Feeds bytes in pieces of a size: of how many bytes the response is, if it is whole.
fn fed(reader: &mut ResponseReader, bytes: &[u8], size: usize) -> Result<Option<usize>, WireFault> {
    let mut before = 0;
    for piece in bytes.chunks(size.max(1)) {
        if let Feed::Whole { used } = reader.feed(piece)? {
            return Ok(Some(used.saturating_add(before)));
        }
        before = piece.len().saturating_add(before);
    }
    Ok(None)
}

// The same, where the peer may have ended behind them.
fn read(
    reader: &mut ResponseReader,
    bytes: &[u8],
    size: usize,
    ended: bool,
) -> Result<Option<usize>, WireFault> {
    let whole = fed(reader, bytes, size)?;
    if !ended {
        return Ok(whole);
    }
    reader.end()?;
    Ok(Some(whole.unwrap_or(bytes.len())))
}

// What a reader tells of the whole response: how long it was, its status, its body and a header's value.
fn told(alloc: Global, reader: &ResponseReader, length: usize, name: &str) -> Result<String, Fail> {
    let mut line = format!(in alloc; "Whole {length} {}", reader.status())?;
    add(&mut line, named(alloc, text_of(reader.body()))?)?;
    if !name.is_empty() {
        match reader.header(name.as_bytes()) {
            Some(value) => add(&mut line, format!(in alloc; "Some({:?})", text_of(value))?)?,
            None => put(&mut line, "None")?,
        }
    }
    Ok(line)
}

// What is answered to a row whose bytes come in pieces of a size.
fn answer(alloc: Global, row: &str, size: usize) -> Result<String, Fail> {
    let (words, text) = row.split_once(' ').unwrap_or((row, ""));
    let ended = words.ends_with('!');
    let (method, name) = words
        .trim_end_matches('!')
        .split_once('?')
        .unwrap_or((words, ""));
    let Ok(mut reader) = ResponseReader::new(alloc, method == "HEAD" || method == "HEAD!") else {
        return Ok(String::from_str(alloc, "no memory")?);
    };
    let bytes = bytes_of(alloc, text)?;
    match read(&mut reader, &bytes, size, ended) {
        Ok(Some(length)) => told(alloc, &reader, length, name),
        Ok(None) => Ok(format!(in alloc; "Again {}", reader.status())?),
        Err(fault) => Ok(format!(in alloc; "{fault:?} {}", reader.status())?),
    }
}

// What is answered to a row in two cuts, where that is the same.
fn in_cuts(alloc: Global, row: &str, size: usize, other: usize) -> Result<String, Fail> {
    let mut line = answer(alloc, row, size)?;
    let again = answer(alloc, row, other)?;
    if line != again {
        put(&mut line, "or")?;
        add(&mut line, again)?;
    }
    Ok(line)
}

struct Whole;

impl Call for Whole {
    fn answer(alloc: Global, row: &str) -> Result<String, Fail> {
        in_cuts(alloc, row, 1_000_000, 1)
    }
}

struct Long;

impl Call for Long {
    fn answer(alloc: Global, row: &str) -> Result<String, Fail> {
        in_cuts(alloc, row, 100_000_000, 10_007)
    }
}

/// Responses that come whole, and byte by byte.
#[test]
fn responses(rt: HostRuntime) -> Result<(), Fail> {
    check::<Whole, _>(&rt, ANSWERS)
}

/// Those at the limits, that come whole, and in larger pieces.
#[test]
fn responses_at_the_limits(rt: HostRuntime) -> Result<(), Fail> {
    check::<Long, _>(&rt, LIMITS)
}
