ghost use Rattle.std.specs.Prelude.{◌≡◌};

use ld_base::{Bytes, Text};
use std::marker::Model;

/// A list of files, each its name and its bytes. Of several pairs of one name the first is the file.
#[derive(Drop)]
pub struct Files {
    pairs: Vec<(Text, Bytes)>,
}

impl Model for Files {
    ghost use Rattle.std.specs.Prelude.{ℕ, List};

    ghost Value = { List (List ℕ × List ℕ) };

    ghost view = { λ f. f.pairs.items };
}

impl Files {
    /// The files of these pairs. It takes no memory.
    pub fn of(pairs: Vec<(Text, Bytes)>) -> Files
        ensures { result ≡ pairs.items }
    {
        Files { pairs }
    }

    /// The pairs, in order.
    pub fn as_slice(&self) -> &[(Text, Bytes)]
        ensures { result.now ≡ self.now }
    {
        self.pairs.as_slice()
    }

    /// The vector of the pairs. It takes no memory.
    pub(crate) fn into_pairs(self) -> Vec<(Text, Bytes)>
        ensures { result.items ≡ self }
    {
        self.pairs
    }
}
