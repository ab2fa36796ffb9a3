//! Reads responses over and over, which `bench/wire` times, and one from standard input, which it shows. Without words it
//! does nothing. It promises nothing: what a reader answers stands in the contracts of `ld_wire`.
#![tactic(auto)]

ghost use Rattle.std.specs.Prelude.{◌<◌};

use httparse::Status;
use httparse::spans::{EMPTY_HEADER_SPAN, parse_response};
use ld_wire::{Feed, ResponseReader, WireFault};
use std::alloc::{AllocError, Global};
use std::env;
use std::io::{self, Read, Write};
use std::process::ExitCode;

// How many bytes the body of the long response has, which is as many as one may have.
const LONGEST: usize = 16_777_216;

// The head of the long response.
const LONG_HEAD: &[u8] = b"HTTP/1.1 200 OK\r\nContent-Length: 16777216\r\n\r\n";

// A response of 200 bytes.
const SHORT: &[u8] =
    b"HTTP/1.1 200 OK\r\nServer: nginx/1.22.1\r\nDate: Wed, 02 Dec 2026 04:00:00 GMT\r\nContent-Type: text/plain\r\nContent-Length: 35\r\nConnection: close\r\nAccept-Ranges: bytes\r\n\r\nThe answer of this task: forty-two.";

// A request isn't to `HEAD`.
const FOR_HEAD: bool = false;

fn main(rt: HostRuntime) -> ExitCode {
    if run(&rt).unwrap_or(false) {
        ExitCode::SUCCESS
    } else {
        ExitCode::FAILURE
    }
}

// Does what the words say. Whether all responses were whole.
fn run(rt: &HostRuntime) -> io::Result<bool> {
    let alloc = rt.alloc();
    let words = env::args(rt)?.skip(1).collect::<Vec<String>>(alloc)?;
    let kind = words.first().map_or("", |word| word.as_str());
    let times = number_at(&words, 1);
    let read = match kind {
        "" => Ok(true),
        "heads" => are_heads(alloc, times),
        "short" => are_whole(alloc, SHORT, SHORT.len(), times),
        "long" => are_long_whole(alloc, number_at(&words, 2), times),
        _ => return show(rt),
    };
    Ok(read.unwrap_or(false))
}

// The number that a word writes, or 0.
fn number_at(words: &[String], place: usize) -> usize {
    words.get(place).map_or(0, |word| word.parse().unwrap_or(0))
}

// Whether `httparse` reads the short response's head each of so many times.
fn are_heads(alloc: Global, times: usize) -> Result<bool, WireFault> {
    let mut headers = vec![in alloc; EMPTY_HEADER_SPAN; 100]?;
    for _ in 0..times {
        let Ok(Status::Complete(_)) = parse_response(SHORT, &mut headers) else {
            return Ok(false);
        };
    }
    Ok(true)
}

// Whether the response is whole each of so many times, read in pieces of this length.
fn are_whole(
    alloc: Global,
    response: &[u8],
    length: usize,
    times: usize,
) -> Result<bool, WireFault> {
    for _ in 0..times {
        if !is_whole(alloc, response, length.max(1))? {
            return Ok(false);
        }
    }
    Ok(true)
}

// Whether the response is whole, read in pieces of this length.
fn is_whole(alloc: Global, response: &[u8], length: usize) -> Result<bool, WireFault>
    requires { 0 < length }
{
    let mut reader = ResponseReader::new(alloc, FOR_HEAD)?;
    for piece in response.chunks(length) {
        if let Feed::Whole { .. } = reader.feed(piece)? {
            return Ok(true);
        }
    }
    Ok(false)
}

// The same of the long response.
fn are_long_whole(alloc: Global, length: usize, times: usize) -> Result<bool, WireFault> {
    let mut response = Vec::from_slice(alloc, LONG_HEAD)?;
    response.resize(LONG_HEAD.len() + LONGEST, b'a')?;
    are_whole(alloc, &response, length, times)
}

// Shows the response on standard input, whose end is the peer's: its status in a line, and its body. Whether it is whole.
fn show(rt: &HostRuntime) -> io::Result<bool> {
    let alloc = rt.alloc();
    let mut bytes = Vec::new(alloc);
    rt.reader().read_to_end(&mut bytes)?;
    let Ok(mut reader) = ResponseReader::new(alloc, FOR_HEAD) else {
        return Ok(false);
    };
    if reader.feed(&bytes).is_err() || reader.end().is_err() {
        return Ok(false);
    }
    let mut out = io::writer(rt);
    writeln!(out, "status {}", reader.status())?;
    out.write_all(reader.body())?;
    Ok(true)
}
