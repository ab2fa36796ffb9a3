ghost use Rattle.std.specs.Prelude.{◌≡◌, ◌++◌, ◌∷◌, [], IfOk, OnOk};
ghost use Rattle.ld_json.specs.Pointer.{item_path, letter, member_path, escaped};

use ld_base::{BaseFault, put_number};
use std::alloc::{AllocError, Global};
use std::marker::Model;

/// Where a value stands in a document, as the text of a JSON Pointer (RFC 6901).
///
/// The root's is the empty text. A member's is that of its object, `/` and the member's name, in
/// which `~` is written `~0` and `/` is written `~1`. An element's is that of its list, `/` and the
/// element's index, from 0, in decimal.
#[derive(Debug, Drop)]
pub struct Path {
    bytes: Vec<u8>,
}

impl Model for Path {
    ghost use Rattle.std.specs.Prelude.{List, ℕ};

    ghost Value = { List ℕ };

    ghost view = { λ p. p.bytes.items };
}

impl Path {
    // The path of the root. Takes no memory.
    pub(crate) fn root(alloc: Global) -> Path
        ensures { result ≡ [] }
    {
        Path {
            bytes: Vec::new(alloc),
        }
    }

    /// The bytes of the path's text, lent. Takes no memory.
    pub fn as_slice(&self) -> &[u8]
        ensures { result.now ≡ self.now }
    {
        self.bytes.as_slice()
    }

    // An equal path.
    pub(crate) fn copy(&self, alloc: Global) -> Result<Path, BaseFault>
        ensures { IfOk result (λ path. path ≡ self.now) }
    {
        let bytes = Vec::from_slice(alloc, self.bytes.as_slice())?;
        Ok(Path { bytes })
    }

    // The path of a member of this name of the object that stands at this path.
    pub(crate) fn member(&self, alloc: Global, name: &str) -> Result<Path, BaseFault>
        ensures { IfOk result (λ path. path ≡ member_path self.now name.now) }
    {
        let mut bytes = Vec::from_slice(alloc, self.bytes.as_slice())?;
        bytes.extend_from_slice(b"/")?;
        put_name(&mut bytes, name.as_bytes())?;
        Ok(Path { bytes })
    }

    // The path of an element of the list that stands at this path.
    pub(crate) fn item(&self, alloc: Global, index: u64) -> Result<Path, BaseFault>
        ensures { IfOk result (λ path. path ≡ item_path self.now index) }
    {
        let mut bytes = Vec::from_slice(alloc, self.bytes.as_slice())?;
        bytes.extend_from_slice(b"/")?;
        put_number(&mut bytes, index)?;
        Ok(Path { bytes })
    }
}

// Appends a name as a pointer writes it.
fn put_name(into: &mut Vec<u8>, name: &[u8]) -> Result<(), AllocError>
    ensures { OnOk result (into.new.items ≡ into.old.items ++ escaped name.now) }
{
    for byte in name {
        put_letter(into, *byte)?;
    }
    Ok(())
}

// Appends a byte of a name as a pointer writes it.
fn put_letter(into: &mut Vec<u8>, byte: u8) -> Result<(), AllocError>
    ensures { OnOk result (into.new.items ≡ into.old.items ++ letter byte) }
{
    if byte == b'~' {
        into.extend_from_slice(b"~0")
    } else if byte == b'/' {
        into.extend_from_slice(b"~1")
    } else {
        into.extend_from_slice(&[byte])
    }
}
