// The texts of requests.

use crate::tests::table::{Call, check, named, put, text_of};
use ld_base::{Bytes, Headers, RequestSpec, Text};
use ld_wire::request_text;
use std::alloc::Global;
use std::test::Fail;

// A method, a target and an authority, and behind strokes the headers, the content, and what the text is to stand
// behind; then the length of what there is, and all of it.
const TEXTS: &str =
    r#"GET / 127.0.0.1:8080 => 59 "GET / HTTP/1.1\r\nHost: 127.0.0.1:8080\r\nConnection: close\r\n\r\n"
GET /a%20b?c=d&e 127.0.0.1 => 65 "GET /a%20b?c=d&e HTTP/1.1\r\nHost: 127.0.0.1\r\nConnection: close\r\n\r\n"
HEAD /? localhost => 56 "HEAD /? HTTP/1.1\r\nHost: localhost\r\nConnection: close\r\n\r\n"
OPTIONS / [::1] => 54 "OPTIONS / HTTP/1.1\r\nHost: [::1]\r\nConnection: close\r\n\r\n"
DELETE /1 [::1]:9 => 56 "DELETE /1 HTTP/1.1\r\nHost: [::1]:9\r\nConnection: close\r\n\r\n"
POST / [::1] => 70 "POST / HTTP/1.1\r\nHost: [::1]\r\nConnection: close\r\nContent-Length: 0\r\n\r\n"
PUT / [::1] => 69 "PUT / HTTP/1.1\r\nHost: [::1]\r\nConnection: close\r\nContent-Length: 0\r\n\r\n"
PATCH / [::1] => 71 "PATCH / HTTP/1.1\r\nHost: [::1]\r\nConnection: close\r\nContent-Length: 0\r\n\r\n"
post / [::1] => 51 "post / HTTP/1.1\r\nHost: [::1]\r\nConnection: close\r\n\r\n"
POSTS / [::1] => 52 "POSTS / HTTP/1.1\r\nHost: [::1]\r\nConnection: close\r\n\r\n"
POST / [::1] | body= => 70 "POST / HTTP/1.1\r\nHost: [::1]\r\nConnection: close\r\nContent-Length: 0\r\n\r\n"
GET / [::1] | body= => 69 "GET / HTTP/1.1\r\nHost: [::1]\r\nConnection: close\r\nContent-Length: 0\r\n\r\n"
GET / [::1] | body=0123456789 => 80 "GET / HTTP/1.1\r\nHost: [::1]\r\nConnection: close\r\nContent-Length: 10\r\n\r\n0123456789"
PUT / [::1] | a:1 | body={"b":"ü"} => 86 "PUT / HTTP/1.1\r\nHost: [::1]\r\nConnection: close\r\na: 1\r\nContent-Length: 10\r\n\r\n{\"b\":\"ü\"}"
GET / [::1] | b:2 | a:1 => 62 "GET / HTTP/1.1\r\nHost: [::1]\r\nConnection: close\r\na: 1\r\nb: 2\r\n\r\n"
GET / [::1] | b:2 | a:9 | b:1 | B:5 | a:3 => 80 "GET / HTTP/1.1\r\nHost: [::1]\r\nConnection: close\r\nB: 5\r\na: 9\r\na: 3\r\nb: 2\r\nb: 1\r\n\r\n"
GET / [::1] | ab:1 | a:2 | a-:3 | a:1 | aB:4 => 83 "GET / HTTP/1.1\r\nHost: [::1]\r\nConnection: close\r\na: 2\r\na: 1\r\na-: 3\r\naB: 4\r\nab: 1\r\n\r\n"
GET / [::1] | X-A: b  c | x-a: => 69 "GET / HTTP/1.1\r\nHost: [::1]\r\nConnection: close\r\nX-A:  b  c\r\nx-a: \r\n\r\n"
GET / [::1] | z:1 | y:1 | x:1 | w:1 | v:1 | u:1 | t:1 | s:1 | r:1 | q:1 | p:1 | o:1 | n:1 | m:1 | l:1 | a:1 | a:2 | a:3 | a:4 | a:5 | a:6 | a:7 => 182 "GET / HTTP/1.1\r\nHost: [::1]\r\nConnection: close\r\na: 1\r\na: 2\r\na: 3\r\na: 4\r\na: 5\r\na: 6\r\na: 7\r\nl: 1\r\nm: 1\r\nn: 1\r\no: 1\r\np: 1\r\nq: 1\r\nr: 1\r\ns: 1\r\nt: 1\r\nu: 1\r\nv: 1\r\nw: 1\r\nx: 1\r\ny: 1\r\nz: 1\r\n\r\n"
GET / [::1] | behind=POST => 54 "POSTGET / HTTP/1.1\r\nHost: [::1]\r\nConnection: close\r\n\r\n""#;

// A text of its own.
fn text(alloc: Global, word: &str) -> Result<Text, Fail> {
    Ok(Text::of(Vec::from_slice(alloc, word.as_bytes())?))
}

// The headers among the pieces behind a request's first words.
fn headers(alloc: Global, pieces: &str) -> Result<Headers, Fail> {
    let mut pairs = Vec::new(alloc);
    for piece in pieces.split(" | ") {
        if let Some((name, value)) = piece.split_once(':') {
            if !name.contains('=') {
                pairs.push((text(alloc, name)?, text(alloc, value)?))?;
            }
        }
    }
    Ok(Headers::of(pairs))
}

// What is written behind a name and an equals sign in one of the pieces.
fn given<'a>(pieces: &'a str, name: &str) -> Option<&'a str> {
    for piece in pieces.split(" | ") {
        match piece.split_once('=') {
            Some((left, right)) if left == name => return Some(right),
            _ => {}
        }
    }
    None
}

// The content among the pieces.
fn content(alloc: Global, pieces: &str) -> Result<Option<Bytes>, Fail> {
    match given(pieces, "body") {
        Some(body) => Ok(Some(Bytes::of(Vec::from_slice(alloc, body.as_bytes())?))),
        None => Ok(None),
    }
}

// The request that a row gives.
fn spec(alloc: Global, row: &str) -> Result<RequestSpec, Fail> {
    let (words, pieces) = row.split_once(" | ").unwrap_or((row, ""));
    let (method, rest) = words.split_once(' ').unwrap_or((words, ""));
    let (target, authority) = rest.split_once(' ').unwrap_or((rest, ""));
    Ok(RequestSpec {
        method: text(alloc, method)?,
        target: text(alloc, target)?,
        authority: text(alloc, authority)?,
        headers: headers(alloc, pieces)?,
        body: content(alloc, pieces)?,
    })
}

struct Sent;

impl Call for Sent {
    fn answer(alloc: Global, row: &str) -> Result<String, Fail> {
        let front = given(row, "behind").unwrap_or("");
        let mut into = Vec::from_slice(alloc, front.as_bytes())?;
        if let Err(fault) = request_text(&spec(alloc, row)?, &mut into) {
            return named(alloc, fault);
        }
        let mut line = named(alloc, into.len())?;
        put(&mut line, named(alloc, text_of(&into))?.as_str())?;
        Ok(line)
    }
}

/// The texts that requests are sent as.
#[test]
fn request_texts(rt: HostRuntime) -> Result<(), Fail> {
    check::<Sent, _>(&rt, TEXTS)
}
