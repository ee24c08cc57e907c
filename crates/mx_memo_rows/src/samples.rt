//! Nodes, keys and bodies by their numbers.
use crate::reading::numbers;
use crate::trouble::Trouble;
use mx_edit::key::Key;
use mx_edit::reply::Reply;
use mx_list::items::Items;
use mx_list::list::List;
use mx_list::shared::Shared;
use mx_memo::Body;
use mx_value::label::Label;
use mx_value::namespace::Namespace;
use mx_value::node::{Node, SharedNode};
use mx_value::value::{Addr, Segment, Value};
use std::alloc::Global;

/// The label of a text.
pub fn label(alloc: Global, text: &str) -> Result<Label, Trouble> {
    Ok(Label::new(alloc, text.as_bytes())?)
}

/// The argument of one whole number.
pub fn argument(alloc: Global, n: u8) -> Result<Items<Value>, Trouble> {
    let mut arguments = Items::new(alloc);
    arguments.push(Value::Int(i64::from(n)))?;
    Ok(arguments)
}

/// `S`, with the item of a number where there is one, and with a name below.
pub fn address(alloc: Global, item: Option<u8>, below: Option<&str>) -> Result<Addr, Trouble> {
    let mut segments = Vec::new(alloc);
    segments.push(Segment::Name(label(alloc, "S")?))?;
    if let Some(n) = item {
        segments.push(Segment::Item(argument(alloc, n)?))?;
    }
    if let Some(name) = below {
        segments.push(Segment::Name(label(alloc, name)?))?;
    }
    Ok(List::from_vec(alloc, segments)?)
}

/// The cells `S.c(n)` for an even number, which are static, and `S[1].c(n)` for another.
fn cells(alloc: Global, n: u8) -> Result<Node, Trouble> {
    let item = if n % 2 == 1 { Some(1) } else { None };
    let space = address(alloc, item, None)?;
    let name = label(alloc, "c")?;
    Ok(Node::Cell(space, name, argument(alloc, n)?))
}

/// The same, to be shared.
pub fn node(alloc: Global, n: u8) -> Result<SharedNode, Trouble> {
    Ok(SharedNode::new(alloc, cells(alloc, n)?)?)
}

/// The name of a reference of the model.
pub fn name(alloc: Global, n: u8) -> Result<Label, Trouble> {
    match n {
        0 => label(alloc, "a"),
        1 => label(alloc, "b"),
        2 => label(alloc, "c"),
        3 => label(alloc, "d"),
        4 => label(alloc, "e"),
        _ => Err(Trouble::NoRow),
    }
}

/// A reference of the model.
pub fn key(alloc: Global, n: u8) -> Result<Key, Trouble> {
    Ok(Key::Global(name(alloc, n)?))
}

/// The references of the model that a word says.
pub fn keys(alloc: Global, word: &str) -> Result<Vec<Key>, Trouble> {
    let mut keys = Vec::new(alloc);
    for n in &numbers(alloc, word)? {
        keys.push(key(alloc, *n)?)?;
    }
    Ok(keys)
}

/// What an asked node gives.
pub fn reply(value: Value, namespace: Option<Namespace>) -> Reply {
    Reply { value, namespace }
}

/// What is held of a node.
pub fn body(alloc: Global, node: SharedNode, reply: Reply) -> Result<Body, Trouble> {
    let reply = Shared::new(alloc, reply)?;
    let reads = List::empty(alloc)?;
    Ok(Body { node, reply, reads })
}
