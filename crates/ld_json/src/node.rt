ghost use Rattle.std.specs.Prelude.{◌≡◌, Err, IfErr, IfOk, IsErrOf, Ok};
ghost use Rattle.ld_json.specs.declared.fault.JsonFault.TheVariants.{Memory, WrongKind};
ghost use Rattle.serde_json.specs.Find.{as_bool, as_str};

use crate::fault::JsonFault;
use crate::known::{first_unknown, pieces};
use crate::parts::{elements, members};
use crate::path::Path;
use ld_base::Text;
use serde_json::Value;
use std::alloc::Global;
use std::marker::Model;

/// A value of a document, with its path.
#[derive(Drop)]
pub struct Node<'a> {
    value: &'a Value,
    path: Path,
}

impl<'a> Model for Node<'a> {
    ghost use Rattle.ld_json.specs.Node.{NodeView, coded_node};
    ghost use Rattle.serde_json.specs.View.{view as data_of};

    ghost Value = { NodeView };

    ghost coded = { coded_node };

    ghost view = { λ n. record { value = data_of n.value.now; path = n.path } };
}

impl<'a> Node<'a> {
    ghost use Rattle.ld_json.specs.Known.{allowed};
    ghost use Rattle.ld_json.specs.Node.{Answers, HasOrder, as_whole, listed, needed, of_kind, paired, wanted};
    ghost use Rattle.ld_json.specs.Pointer.{member_path};
    ghost use Rattle.serde_json.specs.View.{view as data_of};

    // The node of a value that stands at a path.
    pub(crate) fn of(value: &'a Value, path: Path) -> Node<'a>
        ensures { result ≡ record { value = data_of value.now; path = path } }
    {
        Node { value, path }
    }

    /// The value's path. Fails only where memory is missing.
    pub fn path(&self, alloc: Global) -> Result<Path, JsonFault>
        ensures { Answers result (Ok self.now.path) }
    {
        Ok(self.path.copy(alloc)?)
    }

    /// The path of a member of this name, there or not. Fails only where memory is missing.
    pub fn path_of(&self, alloc: Global, name: &str) -> Result<Path, JsonFault>
        ensures { Answers result (Ok (member_path self.now.path name.now)) }
    {
        Ok(self.path.member(alloc, name)?)
    }

    /// The member of this name.
    ///
    /// Fails as `WrongKind` where the value is no object, as `Missing`, with the member's path,
    /// where it has no such member, and where memory is missing.
    pub fn need(&self, alloc: Global, name: &str) -> Result<Node<'_>, JsonFault>
        ensures { Answers result (needed self.now name.now) }
    {
        match self.may(alloc, name)? {
            Some(node) => Ok(node),
            None => Err(JsonFault::Missing(self.path_of(alloc, name)?)),
        }
    }

    /// The member of this name, if there is one.
    ///
    /// Fails as `WrongKind` where the value is no object, and where memory is missing.
    pub fn may(&self, alloc: Global, name: &str) -> Result<Option<Node<'_>>, JsonFault>
        ensures { Answers result (wanted self.now name.now) }
    {
        if !self.value.is_object() {
            return Err(self.wrong_kind(alloc));
        }
        match self.value.get(name) {
            Some(value) => Ok(Some(Node::of(value, self.path_of(alloc, name)?))),
            None => Ok(None),
        }
    }

    /// The text that the value is.
    ///
    /// Fails as `WrongKind` where it is no text, and where memory is missing.
    pub fn text(&self, alloc: Global) -> Result<Text, JsonFault>
        ensures { Answers result (of_kind as_str self.now) }
    {
        match self.value.as_str() {
            Some(text) => Ok(Text::of(Vec::from_slice(alloc, text.as_bytes())?)),
            None => Err(self.wrong_kind(alloc)),
        }
    }

    /// The text that the value is, lent.
    ///
    /// Fails as `WrongKind` where it is no text, and where memory is missing.
    pub fn str(&self, alloc: Global) -> Result<&str, JsonFault>
        ensures ok { IfOk result (λ text. of_kind as_str self.now ≡ Ok text.now) }
        ensures err { IfErr result (λ fault. (fault ≡ Memory → ⊥) → of_kind as_str self.now ≡ Err fault) }
    {
        match self.value.as_str() {
            Some(text) => Ok(text),
            None => Err(self.wrong_kind(alloc)),
        }
    }

    /// The whole number that the value is.
    ///
    /// Fails as `WrongKind` where it is no number, and where memory is missing.
    pub fn whole(&self, alloc: Global) -> Result<u64, JsonFault>
        ensures { Answers result (of_kind as_whole self.now) }
    {
        match self.value.as_u64() {
            Some(number) => Ok(number),
            None => Err(self.wrong_kind(alloc)),
        }
    }

    /// Whether the value is `true`.
    ///
    /// Fails as `WrongKind` where it is neither `true` nor `false`, and where memory is missing.
    pub fn flag(&self, alloc: Global) -> Result<bool, JsonFault>
        ensures { Answers result (of_kind as_bool self.now) }
    {
        match self.value.as_bool() {
            Some(flag) => Ok(flag),
            None => Err(self.wrong_kind(alloc)),
        }
    }

    /// The elements of the list that the value is, in order.
    ///
    /// Fails as `WrongKind` where it is no list, and where memory is missing.
    pub fn list(&self, alloc: Global) -> Result<Vec<Node<'_>>, JsonFault>
        ensures ok { IfOk result (λ nodes. listed self.now ≡ Ok nodes.items) }
        ensures err { IfErr result (λ fault. (fault ≡ Memory → ⊥) → listed self.now ≡ Err fault) }
    {
        match self.value.as_array() {
            Some(items) => Ok(elements(alloc, &self.path, items)?),
            None => Err(self.wrong_kind(alloc)),
        }
    }

    /// The members of the object that the value is, each with its name, in byte order of names.
    ///
    /// Fails as `WrongKind` where it is no object, and where memory is missing.
    pub fn pairs(&self, alloc: Global) -> Result<Vec<(Text, Node<'_>)>, JsonFault>
        ensures ok { IfOk result (λ pairs. paired self.now ≡ Ok pairs.items) }
        ensures err { IfErr result (λ fault. (fault ≡ Memory → ⊥) → paired self.now ≡ Err fault) }
        ensures order { HasOrder self.now.value }
    {
        match self.value.as_object() {
            Some(list) => Ok(members(alloc, &self.path, list)?),
            None => Err(self.wrong_kind(alloc)),
        }
    }

    /// Refuses members of other names than those that stand in `names` between its spaces.
    ///
    /// Fails as `WrongKind` where the value is no object, as `Unknown`, with the path of the first
    /// such member in byte order of names, where there is one, and where memory is missing.
    pub fn only(&self, alloc: Global, names: &str) -> Result<(), JsonFault>
        ensures answer { Answers result (allowed self.now names.now) }
        ensures order { (IsErrOf result Memory → ⊥) → HasOrder self.now.value }
    {
        let Some(list) = self.value.as_object() else {
            return Err(self.wrong_kind(alloc));
        };
        let known = pieces(alloc, names)?;
        match first_unknown(list, known.as_slice()) {
            Some(name) => Err(JsonFault::Unknown(self.path_of(alloc, name)?)),
            None => Ok(()),
        }
    }

    // The fault of a value of another kind, or that memory is missing.
    fn wrong_kind(&self, alloc: Global) -> JsonFault
        ensures { (result ≡ Memory → ⊥) → result ≡ WrongKind self.now.path }
    {
        match self.path.copy(alloc) {
            Ok(path) => JsonFault::WrongKind(path),
            Err(_) => JsonFault::Memory,
        }
    }
}
