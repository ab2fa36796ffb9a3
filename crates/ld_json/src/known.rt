// Names that an object may have, as a text of names between spaces.
ghost use Rattle.std.specs.Prelude.{◌≡◌, List, ℕ, IfOk, map, option_map};
ghost use Rattle.std.specs.Borrow.{Bor};
ghost use Rattle.ld_json.specs.Known.{first_unknown, is_one_of, pieces};
ghost use Rattle.ld_json.specs.Node.{Ascend};
ghost use Rattle.serde_json.specs.View.{members_view};

use serde_json::{Map, Value};
use std::alloc::{AllocError, Global};

// The pieces of a text between its spaces.
pub fn pieces<'a>(alloc: Global, text: &'a str) -> Result<Vec<&'a str>, AllocError>
    ensures { IfOk result (λ list. map (λ (piece : Bor (List ℕ)). piece.now) list.items ≡ pieces text.now) }
{
    text.split(' ').collect(alloc)
}

// The first name of a member that is none of these.
pub fn first_unknown<'a>(members: &'a Map<String, Value>, known: &[&str]) -> Option<&'a str>
    ensures value { option_map (λ (name : Bor (List ℕ)). name.now) result
        ≡ first_unknown (map (λ (piece : Bor (List ℕ)). piece.now) known.now) (members_view members.now.entries) }
    ensures order { Ascend (members_view members.now.entries) }
{
    for (key, _) in members.iter() {
        if !is_one_of(known, key.as_str()) {
            return Some(key.as_str());
        }
    }
    None
}

/// Whether a name is one of these.
pub fn is_one_of(known: &[&str], name: &str) -> bool
    ensures { result ≡ is_one_of (map (λ (piece : Bor (List ℕ)). piece.now) known.now) name.now }
{
    for piece in known {
        if *piece == name {
            return true;
        }
    }
    false
}
