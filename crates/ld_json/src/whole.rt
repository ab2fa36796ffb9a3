// Whether each number of a document is a whole number below 2^64.
ghost use Rattle.std.specs.Prelude.{◌≡◌};
ghost use Rattle.ld_json.specs.Document.{is_whole, items_whole, members_whole};
ghost use Rattle.serde_json.specs.View.{view, items_view, members_view};

use serde_json::{Map, Value};

// Whether each number in a value is a whole number below 2^64.
#[cycle(whole)]
pub fn is_whole(value: &Value) -> bool
    ensures { result ≡ is_whole (view value.now) }
{
    match value {
        Value::Null => true,
        Value::Bool(_) => true,
        Value::Number(number) => number.is_u64(),
        Value::String(_) => true,
        Value::Array(items) => are_items_whole(items),
        Value::Object(members) => are_members_whole(members),
    }
}

// Whether each number in these elements is a whole number below 2^64.
#[cycle(whole)]
fn are_items_whole(items: &Vec<Value>) -> bool
    ensures { result ≡ items_whole (items_view items.now.items) }
{
    for item in items {
        if !is_whole(item) {
            return false;
        }
    }
    true
}

// Whether each number in these members is a whole number below 2^64.
#[cycle(whole)]
fn are_members_whole(members: &Map<String, Value>) -> bool
    ensures { result ≡ members_whole (members_view members.now.entries) }
{
    for (key, member) in members.iter() {
        if !is_whole(member) {
            return false;
        }
    }
    true
}
