// The names of files.
ghost use Rattle.std.specs.Prelude.{◌≡◌};
ghost use Rattle.std.specs.Str.{IsUtf8};

use ld_base::Text;
use std::str;

/// The name of a file as a text. It is in UTF-8.
pub fn name_of(name: &Text) -> &str
    requires { IsUtf8 name.now }
    ensures { result.now ≡ name.now }
{
    match str::from_utf8(name.as_slice()) {
        Ok(name) => name,
        Err(_) => unreachable!(),
    }
}
