// Addresses of requests.

use crate::tests::table::{Call, check, named, text_of};
use ld_base::Loop;
use ld_script::{Address, read_address};
use std::alloc::Global;
use std::test::Fail;

// Texts, with the loopback address, the port, the target and the authority of each; or why they are refused.
const ADDRESSES: &str = "\
http://127.0.0.1:8080/ => V4 8080 / 127.0.0.1:8080
http://127.0.0.1 => V4 80 / 127.0.0.1
http://127.0.0.1:80/a?b=c#d => V4 80 /a?b=c 127.0.0.1
http://localhost:3000/x/../y => V4 3000 /y localhost:3000
HTTP://LOCALHOST/ => V4 80 / localhost
http://[::1]:9/ => V6 9 / [::1]:9
http://[0:0:0:0:0:0:0:1]/ => V6 80 / [::1]
http://0x7f.1/ => V4 80 / 127.0.0.1
http://127.0.0.1/a b => V4 80 /a%20b 127.0.0.1
http://127.0.0.1/? => V4 80 /? 127.0.0.1
http://127.0.0.1/?q=1&r => V4 80 /?q=1&r 127.0.0.1
http://127.0.0.1:0/ => V4 0 / 127.0.0.1:0
http://127.0.0.1:65535/ => V4 65535 / 127.0.0.1:65535
http://@127.0.0.1/ => V4 80 / 127.0.0.1
https://127.0.0.1/ => NotLoopback
ftp://localhost/ => NotLoopback
file:///a => NotLoopback
mailto:a@localhost => NotLoopback
http://127.0.0.2/ => NotLoopback
http://[::2]/ => NotLoopback
http://[::ffff:127.0.0.1]/ => NotLoopback
http://localhost./ => NotLoopback
http://example.com/ => NotLoopback
http://user@127.0.0.1/ => NotLoopback
http://:secret@127.0.0.1/ => NotLoopback
/path => NoUrl
127.0.0.1 => NoUrl
http:// => NoUrl
http://127.0.0.1:65536/ => NoUrl
http://127.0.0.1:x/ => NoUrl
http://[::1 => NoUrl
http://local host/ => NoUrl
http://256.0.0.1/ => NoUrl
=> NoUrl";

// The parts of an address.
fn told(alloc: Global, address: &Address) -> Result<String, Fail> {
    let host = match address.host {
        Loop::V4 => "V4",
        Loop::V6 => "V6",
    };
    let target = text_of(address.target.as_slice());
    let authority = text_of(address.authority.as_slice());
    Ok(format!(in alloc; "{host} {} {target} {authority}", address.port)?)
}

struct AddressRead;

impl Call for AddressRead {
    fn answer(alloc: Global, given: &str) -> Result<String, Fail> {
        match read_address(alloc, given) {
            Ok(address) => told(alloc, &address),
            Err(fault) => named(alloc, fault),
        }
    }
}

/// Texts that are addresses, and texts that are none.
#[test]
fn addresses(rt: HostRuntime) -> Result<(), Fail> {
    check::<AddressRead, _>(&rt, ADDRESSES)
}
