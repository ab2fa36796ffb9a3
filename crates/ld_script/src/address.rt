// Addresses of requests.
ghost use Rattle.std.specs.Prelude.{◌≡◌, ◌≢◌, ◌↔◌, ◌++◌, [], List, ℕ, IfErr, IfOk, IsTrue, MatchOption, codes};
ghost use Rattle.std.specs.Option.{option_copied};
ghost use Rattle.ld_base.specs.declared.request.Loop.{Loop};
ghost use Rattle.ld_script.specs.Address.{Addresses, IsAddressOf, IsAt, IsLocal, RefusesAddress, authority_of, loop_named, target_of};
ghost use Rattle.ld_script.specs.declared.address.AddressFault.TheVariants.{Memory};

use ld_base::{BaseFault, Loop, Text, put_number};
use std::alloc::{AllocError, Global};
use thiserror::Error;
use url::{ParseError, Url};

/// The port of an address that names none.
const PORT: u16 = 80;

/// Where a request goes, on this machine.
#[derive(Drop)]
pub struct Address {
    /// The loopback address.
    pub host: Loop,
    /// The port: 80 where none is written.
    pub port: u16,
    /// The request target, in origin form: the path, and the query behind `?` where there is one.
    pub target: Text,
    /// What the header `Host` is sent with: the host, and the port where another than 80 is written.
    pub authority: Text,
}

/// Why a text is no address.
#[derive(Clone, Copy, Debug, PartialEq, Eq, Error)]
pub enum AddressFault {
    /// The text is no URL.
    #[error("the text is no URL")]
    NoUrl,
    /// The URL's scheme isn't `http`, or it has a user or a password, or its host isn't `127.0.0.1`,
    /// `localhost` or `[::1]`.
    #[error("the URL isn't one of this machine")]
    NotLoopback,
    /// The allocator gave no memory.
    #[error("out of memory")]
    Memory,
}

impl From<AllocError> for AddressFault {
    ghost from_gives = { λ _ fault. fault ≡ Memory };

    fn from(_error: AllocError) -> AddressFault {
        AddressFault::Memory
    }
}

impl From<BaseFault> for AddressFault {
    ghost from_gives = { λ _ fault. fault ≡ Memory };

    fn from(_error: BaseFault) -> AddressFault {
        AddressFault::Memory
    }
}

/// Reads the address that a text is, by the URL Standard (<https://url.spec.whatwg.org/>).
///
/// Refused are, in this order, a text that is no URL, as `NoUrl`, and a URL that isn't one of this
/// machine, as `NotLoopback`. The only other error is want of memory, also for a text that is too
/// long to be read.
pub fn read_address(alloc: Global, text: &str) -> Result<Address, AddressFault>
    ensures value { IfOk result (Addresses text.now) }
    ensures refused { IfErr result (λ f. f ≢ Memory → RefusesAddress text.now f) }
{
    let url = match Url::parse(alloc, text) {
        Ok(url) => url,
        Err(ParseError::OutOfMemory) => return Err(AddressFault::Memory),
        Err(ParseError::Overflow) => return Err(AddressFault::Memory),
        Err(_) => return Err(AddressFault::NoUrl),
    };
    if !is_plain(&url) {
        return Err(AddressFault::NotLoopback);
    }
    let Some(host) = url.host_str() else {
        return Err(AddressFault::NotLoopback);
    };
    match loop_named(host) {
        Some(at) => address_at(alloc, &url, host, at),
        None => Err(AddressFault::NotLoopback),
    }
}

// Whether a URL has the scheme `http`, no user and no password.
fn is_plain(url: &Url) -> bool
    ensures { IsTrue result ↔ (url.now.scheme ≡ codes "http") × (url.now.username ≡ []) × (url.now.password ≡ []) }
{
    is_web(url) && url.username().is_empty() && has_no_password(url)
}

// Whether a URL has the scheme `http`.
fn is_web(url: &Url) -> bool
    ensures { IsTrue result ↔ (url.now.scheme ≡ codes "http") }
{
    url.scheme() == "http"
}

// Whether a URL has no password.
fn has_no_password(url: &Url) -> bool
    ensures { IsTrue result ↔ (url.now.password ≡ []) }
{
    url.password().is_none()
}

// The loopback address that a host of this text is.
fn loop_named(host: &str) -> Option<Loop>
    ensures { result ≡ loop_named host.now }
{
    if host == "127.0.0.1" || host == "localhost" {
        Some(Loop::V4)
    } else if host == "[::1]" {
        Some(Loop::V6)
    } else {
        None
    }
}

// The address that a URL is, whose host has this text and is this loopback address.
fn address_at(alloc: Global, url: &Url, host: &str, at: Loop) -> Result<Address, AddressFault>
    requires { IsLocal url.now host.now at }
    ensures value { IfOk result (IsAddressOf url.now) }
    ensures memory { IfErr result (λ f. f ≡ Memory) }
{
    Ok(Address {
        host: at,
        port: url.port().unwrap_or(PORT),
        target: target(alloc, url)?,
        authority: authority(alloc, host, url.port())?,
    })
}

// The path of a URL, and its query where there is one.
fn target(alloc: Global, url: &Url) -> Result<Text, AddressFault>
    ensures value { IfOk result (λ text. text ≡ target_of url.now) }
    ensures memory { IfErr result (λ f. f ≡ Memory) }
{
    let mut bytes = Vec::from_slice(alloc, url.path().as_bytes())?;
    if let Some(query) = url.query() {
        bytes.extend_from_slice(b"?")?;
        bytes.extend_from_slice(query.as_bytes())?;
    }
    Ok(Text::of(bytes))
}

// A host, and the port where one is written.
fn authority(alloc: Global, host: &str, port: Option<u16>) -> Result<Text, AddressFault>
    ensures value { IfOk result (λ text. text ≡ authority_of host.now port) }
    ensures memory { IfErr result (λ f. f ≡ Memory) }
{
    let mut bytes = Vec::from_slice(alloc, host.as_bytes())?;
    if let Some(port) = port {
        bytes.extend_from_slice(b":")?;
        put_number(&mut bytes, port as u64)?;
    }
    Ok(Text::of(bytes))
}
