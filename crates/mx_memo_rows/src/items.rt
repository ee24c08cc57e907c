//! Rows on where addresses lead by the items that are held.
use crate::holding::hold_with;
use crate::reading::{push_bytes, two_parts};
use crate::samples::{address, argument, body, label, reply};
use crate::trouble::Trouble;
use mx_items::{ItemStore, ItemsRefusal, space_of};
use mx_list::list::List;
use mx_memo::{Body, Memo};
use mx_value::label::Label;
use mx_value::namespace::{Namespace, Overlay};
use mx_value::node::{Node, SharedNode};
use mx_value::value::{Addr, Value};
use std::alloc::Global;

/// The item node of `S[n]`.
fn item(alloc: Global, n: u8) -> Result<Node, Trouble> {
    let space = address(alloc, None, None)?;
    Ok(Node::Item(space, argument(alloc, n)?))
}

/// The path `P`, with a name below where there is one.
fn source(alloc: Global, below: Option<&str>) -> Result<List<Label>, Trouble> {
    let mut names = Vec::new(alloc);
    names.push(label(alloc, "P")?)?;
    if let Some(name) = below {
        names.push(label(alloc, name)?)?;
    }
    Ok(List::from_vec(alloc, names)?)
}

/// `k` with a number.
fn overlay(alloc: Global, n: u8) -> Result<Overlay, Trouble> {
    let name = label(alloc, "k")?;
    let mut overlay = Vec::new(alloc);
    overlay.push((name, Value::Int(i64::from(n))))?;
    Ok(List::from_vec(alloc, overlay)?)
}

/// The namespace of `S[n]`, with the source `P`, or that of a name below.
fn namespace(alloc: Global, n: u8, below: Option<&str>) -> Result<Namespace, Trouble> {
    let at = address(alloc, Some(n), below)?;
    let source = source(alloc, below)?;
    let overlay = overlay(alloc, n)?;
    Ok(Namespace {
        at,
        source,
        overlay,
    })
}

/// `put NUMBER`: keeps `S[n]` in the store.
pub fn put(alloc: Global, store: &mut ItemStore, rest: &str) -> Result<(), Trouble> {
    let n = rest.parse::<u8>()?;
    let namespace = namespace(alloc, n, None)?;
    store.put(item(alloc, n)?, namespace)?;
    Ok(())
}

/// `remove NUMBER`: removes `S[n]` from the store.
pub fn remove(alloc: Global, store: &mut ItemStore, rest: &str) -> Result<(), Trouble> {
    store.remove(&item(alloc, rest.parse::<u8>()?)?);
    Ok(())
}

/// `item NUMBER`: holds `S[n]` in the memo.
pub fn hold_item(
    alloc: Global,
    memo: &mut Memo,
    rest: &str,
    out: &mut Vec<u8>,
) -> Result<(), Trouble> {
    let body = body_of(alloc, rest.parse::<u8>()?)?;
    hold_with(alloc, memo, body, ".", ".", out)
}

/// What is held of `S[n]`.
fn body_of(alloc: Global, n: u8) -> Result<Body, Trouble> {
    let value = Value::Space(address(alloc, Some(n), None)?);
    let reply = reply(value, Some(namespace(alloc, n, None)?));
    body(alloc, SharedNode::new(alloc, item(alloc, n)?)?, reply)
}

/// `space NUMBER .` or `space NUMBER NAME`: whether `S[n]` or what has the name below it leads to its namespace by the store, by the
/// store's own call and by the memo, or the place of the first item that is not held.
pub fn space(
    alloc: Global,
    memo: &Memo,
    store: &ItemStore,
    rest: &str,
    out: &mut Vec<u8>,
) -> Result<(), Trouble> {
    let (n, name) = two_parts(rest)?;
    let below = if name == "." { None } else { Some(name) };
    let n = n.parse::<u8>()?;
    let addr = address(alloc, Some(n), below)?;
    push_ways(alloc, memo, store, &addr, &namespace(alloc, n, below)?, out)
}

/// Adds where an address leads each way.
fn push_ways(
    alloc: Global,
    memo: &Memo,
    store: &ItemStore,
    addr: &Addr,
    wanted: &Namespace,
    out: &mut Vec<u8>,
) -> Result<(), Trouble> {
    push_way(space_of(alloc, store, addr), wanted, out)?;
    push_way(store.space_of(addr), wanted, out)?;
    push_way(space_of(alloc, memo, addr), wanted, out)
}

/// Adds where an address has led.
fn push_way(
    found: Result<Namespace, ItemsRefusal>,
    wanted: &Namespace,
    out: &mut Vec<u8>,
) -> Result<(), Trouble> {
    match found {
        Ok(found) => push_bytes(
            out,
            if found == *wanted {
                b" there"
            } else {
                b" other"
            },
        ),
        Err(ItemsRefusal::NotHeld(0)) => push_bytes(out, b" not held at 0"),
        Err(ItemsRefusal::NotHeld(1)) => push_bytes(out, b" not held at 1"),
        Err(ItemsRefusal::NotHeld(_)) => push_bytes(out, b" not held behind 1"),
        Err(ItemsRefusal::NoMemory) => Err(Trouble::NoMemory),
    }
}
