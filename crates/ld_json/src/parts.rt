// The elements of lists and the members of objects, as nodes.
ghost use Rattle.std.specs.Prelude.{◌≡◌, IfOk};
ghost use Rattle.ld_json.specs.Node.{Ascend, elements, named};
ghost use Rattle.serde_json.specs.View.{items_view, members_view};

use crate::node::Node;
use crate::path::Path;
use ld_base::{BaseFault, Text};
use serde_json::{Map, Value};
use std::alloc::Global;

// The elements of the list that stands at a path, in order.
pub fn elements<'a>(
    alloc: Global,
    path: &Path,
    items: &'a Vec<Value>,
) -> Result<Vec<Node<'a>>, BaseFault>
    ensures { IfOk result (λ nodes. nodes.items ≡ elements path.now 0 (items_view items.now.items)) }
{
    let mut nodes = Vec::new(alloc);
    let mut index = 0;
    for item in items {
        let node = Node::of(item, path.item(alloc, index)?);
        match nodes.push(node) {
            Ok(()) => index += 1,
            Err(_) => return Err(BaseFault::Memory),
        }
    }
    Ok(nodes)
}

// The members of the object that stands at a path, in byte order of their names.
pub fn members<'a>(
    alloc: Global,
    path: &Path,
    members: &'a Map<String, Value>,
) -> Result<Vec<(Text, Node<'a>)>, BaseFault>
    ensures pairs { IfOk result (λ pairs. pairs.items
        ≡ named path.now (members_view members.now.entries)) }
    ensures order { Ascend (members_view members.now.entries) }
{
    let mut pairs = Vec::new(alloc);
    for (key, member) in members.iter() {
        let name = Text::of(Vec::from_slice(alloc, key.as_bytes())?);
        let node = Node::of(member, path.member(alloc, key.as_str())?);
        match pairs.push((name, node)) {
            Ok(()) => {}
            Err(_) => return Err(BaseFault::Memory),
        }
    }
    Ok(pairs)
}
