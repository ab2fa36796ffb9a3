ghost use Rattle.std.specs.Prelude.{◌≡◌, [], IfErr, IfOk};
ghost use Rattle.ld_json.specs.Document.{IsDocument};
ghost use Rattle.ld_json.specs.declared.fault.JsonFault.TheVariants.{Memory, NotJson};
ghost use Rattle.serde_json.specs.Data.{Data};

use crate::fault::JsonFault;
use crate::node::Node;
use crate::path::Path;
use crate::whole::is_whole;
use serde_json::Value;
use std::alloc::Global;
use std::marker::Model;

/// A JSON document whose numbers are whole numbers below 2^64.
#[derive(Drop)]
pub struct Doc {
    value: Value,
    alloc: Global,
}

impl Model for Doc {
    ghost use Rattle.serde_json.specs.Data.{Data};
    ghost use Rattle.serde_json.specs.View.{view as data_of};
    ghost use Rattle.ld_json.specs.Codes.{coded_data};

    ghost Value = { Data };

    ghost coded = { coded_data };

    ghost view = { λ d. data_of d.value };
}

impl Doc {
    /// Reads the document that is written in `bytes`, as `serde_json` reads it.
    ///
    /// Refused as `NotJson` where the bytes are no UTF-8 or no JSON text (RFC 8259), or a number of
    /// it is no whole number below 2^64 written in plain digits; or where memory is missing.
    pub fn read(alloc: Global, bytes: &[u8]) -> Result<Doc, JsonFault>
        ensures ok { IfOk result (λ doc. IsDocument bytes.now doc) }
        ensures cause { IfErr result (λ fault. (fault ≡ Memory → ⊥) → fault ≡ NotJson) }
        ensures refused { IfErr result (λ fault. (fault ≡ Memory → ⊥)
            → (d : Data) → IsDocument bytes.now d → ⊥) }
    {
        let value = match Value::from_slice(alloc, bytes) {
            Ok(value) => value,
            Err(error) if error.is_memory() => return Err(JsonFault::Memory),
            Err(_) => return Err(JsonFault::NotJson),
        };
        if !is_whole(&value) {
            return Err(JsonFault::NotJson);
        }
        Ok(Doc { value, alloc })
    }

    /// The document's whole value, at the path of the root. Takes no memory.
    pub fn root(&self) -> Node<'_>
        ensures { result ≡ record { value = self.now; path = [] } }
    {
        Node::of(&self.value, Path::root(self.alloc))
    }
}
