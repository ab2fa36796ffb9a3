// The order in which a request's own headers are sent.
ghost use Rattle.std.specs.Prelude.{◌≡◌, IfErr, IfOk, map};
ghost use Rattle.ld_wire.specs.Order.{in_order};
ghost use Rattle.ld_wire.specs.declared.fault.WireFault.TheVariants.{Memory};

use crate::fault::WireFault;
use ld_base::Text;
use std::alloc::Global;

// The headers of a list in byte order of their names, those of one name in the order of the list.
pub fn in_order<'a>(
    alloc: Global,
    headers: &'a [(Text, Text)],
) -> Result<Vec<&'a (Text, Text)>, WireFault>
    ensures order { IfOk result (λ sent. map (λ header. header.now) sent.items ≡ in_order headers.now) }
    ensures memory { IfErr result (λ fault. fault ≡ Memory) }
{
    let mut sent = references(alloc, headers)?;
    sent.sort_by(|left, right| left.0.as_slice().cmp(&right.0.as_slice()))?;
    Ok(sent)
}

// References to the elements of a list.
fn references<'a>(
    alloc: Global,
    headers: &'a [(Text, Text)],
) -> Result<Vec<&'a (Text, Text)>, WireFault>
    ensures list { IfOk result (λ list. map (λ header. header.now) list.items ≡ headers.now) }
    ensures memory { IfErr result (λ fault. fault ≡ Memory) }
{
    Ok(headers.iter().collect(alloc)?)
}
