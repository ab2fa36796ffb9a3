ghost use Rattle.std.specs.Prelude.{◌≡◌};

use crate::text::Text;
use std::marker::Model;

/// The headers of a request, in order, each as its name and its value (RFC 9110, section 5).
#[derive(Drop)]
pub struct Headers {
    pairs: Vec<(Text, Text)>,
}

impl Model for Headers {
    ghost use Rattle.std.specs.Prelude.{List, ℕ};

    ghost Value = { List (List ℕ × List ℕ) };

    ghost view = { λ h. h.pairs.items };
}

impl Headers {
    /// The headers of these pairs. Takes no memory.
    pub fn of(pairs: Vec<(Text, Text)>) -> Headers
        ensures { result ≡ pairs.items }
    {
        Headers { pairs }
    }

    /// The pairs, lent. Takes no memory.
    pub fn as_slice(&self) -> &[(Text, Text)]
        ensures { result.now ≡ self.now }
    {
        self.pairs.as_slice()
    }
}
