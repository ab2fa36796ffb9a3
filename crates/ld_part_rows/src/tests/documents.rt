// JSON documents: which are read, and what their values hold.

use crate::tests::refusals::refusal;
use crate::tests::table::{Call, add, check, first_word, named, put, said, text_of};
use ld_base::Text;
use ld_json::{Doc, JsonFault, Node, Path};
use ld_options::OptionsFault;
use std::alloc::Global;
use std::fmt::Debug;
use std::test::Fail;

// A document with each kind of value.
const TEXT: &str =
    r#"{"name":"x y","count":12,"on":true,"a/b~c":null,"list":[7,[],"z"],"in":{"b":2,"a":1}}"#;

// Texts, each letter as its byte (ISO 8859-1), and whether they are documents: they have to be UTF-8 and JSON, with no
// number but whole ones below 2^64.
const TEXTS: &str = r#"{"a":[1,{"b":18446744073709551615}]} => read
"Ã¼" => read
=> NotJson
{ => NotJson
{"a":1,} => NotJson
1 2 => NotJson
1.0 => NotJson
1e3 => NotJson
-0 => NotJson
-1 => NotJson
[18446744073709551616] => NotJson
{"a":[1,{"b":0.5}]} => NotJson
"ÿ" => NotJson
Ã( => NotJson"#;

// A member of the document, where `.` is its root, and a call, with what it answers.
const CALLS: &str = r#". path =>
a/b~c path => /a~1b~0c
a/b~c path_of ~/ => /a~1b~0c/~0~1
. may on => /on
. may off => none
. need count => /count 12
. need o/ff => Missing /o~1ff
name need x => WrongKind /name
name may x => WrongKind /name
name text => x y
. text => WrongKind
count whole => 12
name whole => WrongKind /name
on flag => true
name flag => WrongKind /name
list list => /list/0 7 /list/1 /list/2
. list => WrongKind
in pairs => a /in/a 1 b /in/b 2
name pairs => WrongKind /name
in only c b a => ()
name only a => WrongKind /name
. only list name in a/b~c => Unknown /count"#;

// The bytes that letters stand for.
fn bytes_of(alloc: Global, text: &str) -> Result<Vec<u8>, Fail> {
    let mut bytes = Vec::new(alloc);
    for letter in text.chars() {
        bytes.push(u8::try_from(letter as u32).unwrap_or(b'?'))?;
    }
    Ok(bytes)
}

struct TextRead;

impl Call for TextRead {
    fn answer(alloc: Global, given: &str) -> Result<String, Fail> {
        match Doc::read(alloc, &bytes_of(alloc, given)?) {
            Ok(_) => said(alloc, "read"),
            Err(fault) => refusal(alloc, &OptionsFault::from(fault)),
        }
    }
}

// Why a call is refused.
fn fault_told(alloc: Global, fault: JsonFault) -> Result<String, Fail> {
    refusal(alloc, &OptionsFault::from(fault))
}

// A number or the like, or why there is none.
fn value_told<T: Debug + Drop>(
    alloc: Global,
    answer: Result<T, JsonFault>,
) -> Result<String, Fail> {
    match answer {
        Ok(value) => named(alloc, value),
        Err(fault) => fault_told(alloc, fault),
    }
}

// A path, or why there is none.
fn path_told(alloc: Global, answer: Result<Path, JsonFault>) -> Result<String, Fail> {
    match answer {
        Ok(path) => said(alloc, text_of(path.as_slice())),
        Err(fault) => fault_told(alloc, fault),
    }
}

// A text, or why there is none.
fn text_told(alloc: Global, answer: Result<Text, JsonFault>) -> Result<String, Fail> {
    match answer {
        Ok(text) => said(alloc, text_of(text.as_slice())),
        Err(fault) => fault_told(alloc, fault),
    }
}

// The path of a value, and the number that it is, if it is one.
fn node_told(alloc: Global, node: &Node<'_>) -> Result<String, Fail> {
    let mut line = path_told(alloc, node.path(alloc))?;
    if let Ok(number) = node.whole(alloc) {
        add(&mut line, named(alloc, number)?)?;
    }
    Ok(line)
}

// The elements of a list, or why there are none.
fn list_told(alloc: Global, node: &Node<'_>) -> Result<String, Fail> {
    let nodes = match node.list(alloc) {
        Ok(nodes) => nodes,
        Err(fault) => return fault_told(alloc, fault),
    };
    let mut line = String::new(alloc);
    for element in &nodes {
        add(&mut line, node_told(alloc, element)?)?;
    }
    Ok(line)
}

// The members of an object, or why there are none.
fn pairs_told(alloc: Global, node: &Node<'_>) -> Result<String, Fail> {
    let pairs = match node.pairs(alloc) {
        Ok(pairs) => pairs,
        Err(fault) => return fault_told(alloc, fault),
    };
    let mut line = String::new(alloc);
    for (name, member) in &pairs {
        put(&mut line, text_of(name.as_slice()))?;
        add(&mut line, node_told(alloc, member)?)?;
    }
    Ok(line)
}

// The member of a name, or why there is none.
fn member_told(alloc: Global, node: &Node<'_>, name: &str) -> Result<String, Fail> {
    match node.need(alloc, name) {
        Ok(member) => node_told(alloc, &member),
        Err(fault) => fault_told(alloc, fault),
    }
}

// The member of a name, if there is one.
fn possible_told(alloc: Global, node: &Node<'_>, name: &str) -> Result<String, Fail> {
    match node.may(alloc, name) {
        Ok(Some(member)) => node_told(alloc, &member),
        Ok(None) => said(alloc, "none"),
        Err(fault) => fault_told(alloc, fault),
    }
}

// What a call for what a value holds answers.
fn held(alloc: Global, node: &Node<'_>, call: &str, names: &str) -> Result<String, Fail> {
    match call {
        "text" => text_told(alloc, node.text(alloc)),
        "whole" => value_told(alloc, node.whole(alloc)),
        "flag" => value_told(alloc, node.flag(alloc)),
        "list" => list_told(alloc, node),
        "pairs" => pairs_told(alloc, node),
        _ => value_told(alloc, node.only(alloc, names)),
    }
}

// What a call answers.
fn told(alloc: Global, node: &Node<'_>, line: &str) -> Result<String, Fail> {
    let (call, rest) = first_word(line);
    match call {
        "path" => path_told(alloc, node.path(alloc)),
        "path_of" => path_told(alloc, node.path_of(alloc, rest)),
        "need" => member_told(alloc, node, rest),
        "may" => possible_told(alloc, node, rest),
        _ => held(alloc, node, call, rest),
    }
}

struct NodeCall;

impl Call for NodeCall {
    fn answer(alloc: Global, given: &str) -> Result<String, Fail> {
        let (member, line) = first_word(given);
        let doc = Doc::read(alloc, TEXT.as_bytes())?;
        let root = doc.root();
        if member == "." {
            return told(alloc, &root, line);
        }
        told(alloc, &root.need(alloc, member)?, line)
    }
}

/// Texts that are documents, and texts that are none.
#[test]
fn texts(rt: HostRuntime) -> Result<(), Fail> {
    check::<TextRead, _>(&rt, TEXTS)
}

/// What the values of a document answer to each call.
#[test]
fn values(rt: HostRuntime) -> Result<(), Fail> {
    check::<NodeCall, _>(&rt, CALLS)
}
