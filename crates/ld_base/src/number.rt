ghost use Rattle.std.specs.Prelude.{◌≡◌, ◌++◌, OnOk, OnErr, decimal};

use crate::fault::BaseFault;
use itoa::Buffer;

/// Appends the decimal text of a number, without sign or leading zeros.
///
/// Fails where the allocator gives no memory for it; `into` is then as before.
pub fn put_number(into: &mut Vec<u8>, number: u64) -> Result<(), BaseFault>
    ensures ok { OnOk result (into.new.items ≡ into.old.items ++ decimal number) }
    ensures err { OnErr result (into.new.items ≡ into.old.items) }
{
    let mut buffer = Buffer::new();
    into.extend_from_slice(buffer.format(number).as_bytes())?;
    Ok(())
}
