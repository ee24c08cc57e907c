//! What a memo tells of the nodes that are held.
//!
//! ` | COUNT LAST`, and ` after` where a node is held since a later stamp; for each held node
//! ` NODE=VALUE@STAMP[KEYS][KEYS IT WAS HELD WITH][ASKS][NUMBER OF ASKERS:ASKERS][READERS OF ITS INPUT]`; ` |` and for each key
//! ` KEY[NUMBER OF READERS:READERS]`; ` | NUMBER:KEYS` of all keys that nodes were held with.
ghost use Rattle.mx_vertices.specs.Kept.{IsHeld};

use crate::reading::{push_bytes, push_counted};
use crate::samples::{key, node};
use crate::trouble::Trouble;
use mx_edit::key::Key;
use mx_graph::NodeId;
use mx_memo::{AllKeys, Asks, Body, HeldKeys, Memo, Readers};
use mx_print::value::{push_node, push_value};
use mx_value::node::{Node, SharedNode};
use mx_value::value::Value;
use std::alloc::Global;

/// How many nodes the rows have.
const NODES: u8 = 10;
/// How many keys the rows have.
const KEYS: u8 = 5;

/// Adds all that a memo tells.
pub fn push_state(alloc: Global, memo: &Memo, out: &mut Vec<u8>) -> Result<(), Trouble> {
    push_counts(memo, out)?;
    for n in 0..NODES {
        push_one(alloc, memo, n, out)?;
    }
    push_bytes(out, b" |")?;
    for k in 0..KEYS {
        push_key(alloc, memo, k, out)?;
    }
    push_all_keys(alloc, memo, out)
}

/// Adds how many nodes are held and the last stamp.
fn push_counts(memo: &Memo, out: &mut Vec<u8>) -> Result<(), Trouble> {
    push_counted(out, b" | ", u64::from(memo.count()))?;
    push_counted(out, b" ", memo.last_stamp() as u64)?;
    if memo.after(memo.last_stamp()).is_some() {
        return push_bytes(out, b" after");
    }
    Ok(())
}

/// Adds a key and its readers.
fn push_key(alloc: Global, memo: &Memo, k: u8, out: &mut Vec<u8>) -> Result<(), Trouble> {
    push_counted(out, b" ", u64::from(k))?;
    push_readers(alloc, memo, &key(alloc, k)?, out)
}

/// Adds what is told of a node, where it is held.
fn push_one(alloc: Global, memo: &Memo, n: u8, out: &mut Vec<u8>) -> Result<(), Trouble> {
    let node = node(alloc, n)?;
    let Some(id) = memo.find(&node) else {
        return Ok(());
    };
    push_counted(out, b" ", u64::from(n))?;
    push_held(alloc, memo, id, &node, out)?;
    push_readers(alloc, memo, &Key::Input(node), out)
}

/// Adds what is told of a held node.
fn push_held(
    alloc: Global,
    memo: &Memo,
    id: NodeId,
    node: &SharedNode,
    out: &mut Vec<u8>,
) -> Result<(), Trouble>
    requires { IsHeld memo.now.held id.at }
{
    push_body(memo, id, node, out)?;
    push_keys(&memo.keys_of(alloc, id)?, out)?;
    push_held_with(memo.keys(id), out)?;
    push_asks(memo, memo.asks(id), out)?;
    push_askers(alloc, memo, id, out)
}

/// Adds the value and the stamp of a node, and ` other` where it is another node's.
fn push_body(memo: &Memo, id: NodeId, node: &SharedNode, out: &mut Vec<u8>) -> Result<(), Trouble> {
    let body = memo.body(id).ok_or(Trouble::NoRow)?;
    push_bytes(out, b"=")?;
    push_argument(&body.reply.get().value, out)?;
    if body.node != *node {
        push_bytes(out, b" other")?;
    }
    push_stamp(memo, id, out)
}

/// Adds the stamp of a node, and ` misplaced` where another node comes before it.
fn push_stamp(memo: &Memo, id: NodeId, out: &mut Vec<u8>) -> Result<(), Trouble> {
    let stamp = memo.stamp(id).ok_or(Trouble::NoRow)?;
    push_counted(out, b"@", stamp as u64)?;
    if memo.after(stamp.saturating_sub(1)) != Some(id) {
        return push_bytes(out, b" misplaced");
    }
    Ok(())
}

/// Adds keys.
fn push_keys(keys: &[Key], out: &mut Vec<u8>) -> Result<(), Trouble> {
    push_bytes(out, b"[")?;
    for key in keys {
        push_looked(key, out)?;
    }
    push_bytes(out, b"]")
}

/// Adds the keys that a node was held with.
fn push_held_with(keys: HeldKeys<'_>, out: &mut Vec<u8>) -> Result<(), Trouble> {
    push_bytes(out, b"[")?;
    for key in keys {
        push_looked(key, out)?;
    }
    push_bytes(out, b"]")
}

/// Adds the name of a reference, or the node of an input.
fn push_looked(key: &Key, out: &mut Vec<u8>) -> Result<(), Trouble> {
    match key {
        Key::Global(name) => push_bytes(out, name.as_slice()),
        Key::Input(node) => Ok(push_node(out, node.get())?),
        _ => push_bytes(out, b"?"),
    }
}

/// Adds the arguments of the nodes of these ids.
fn push_asks(memo: &Memo, asks: Asks<'_>, out: &mut Vec<u8>) -> Result<(), Trouble> {
    push_bytes(out, b"[")?;
    for id in asks {
        push_arguments(memo.body(id).ok_or(Trouble::NoRow)?, out)?;
    }
    push_bytes(out, b"]")
}

/// Adds the arguments of a node.
fn push_arguments(body: &Body, out: &mut Vec<u8>) -> Result<(), Trouble> {
    if let Node::Cell(_, _, arguments) = body.node.get() {
        for argument in arguments.as_slice() {
            push_argument(argument, out)?;
        }
    }
    Ok(())
}

fn push_argument(argument: &Value, out: &mut Vec<u8>) -> Result<(), Trouble> {
    Ok(push_value(out, argument)?)
}

/// Adds how many nodes read a key, and which of the nodes do.
fn push_readers(alloc: Global, memo: &Memo, key: &Key, out: &mut Vec<u8>) -> Result<(), Trouble> {
    push_counted(out, b"[", memo.readers_of(alloc, key)?.len() as u64)?;
    push_bytes(out, b":")?;
    for n in 0..NODES {
        if let Some(id) = memo.find(&node(alloc, n)?) {
            push_if_among(memo.readers(key), id, n, out)?;
        }
    }
    push_bytes(out, b"]")
}

/// Adds how many nodes asked a held node, and which of the nodes did.
fn push_askers(alloc: Global, memo: &Memo, asked: NodeId, out: &mut Vec<u8>) -> Result<(), Trouble>
    requires { IsHeld memo.now.held asked.at }
{
    push_counted(out, b"[", memo.askers_of(alloc, asked)?.len() as u64)?;
    push_bytes(out, b":")?;
    for n in 0..NODES {
        if let Some(id) = memo.find(&node(alloc, n)?) {
            push_if_among(memo.askers(asked), id, n, out)?;
        }
    }
    push_bytes(out, b"]")
}

/// Adds the number of a node where its id is one of these.
fn push_if_among(
    readers: Readers<'_>,
    id: NodeId,
    n: u8,
    out: &mut Vec<u8>,
) -> Result<(), Trouble> {
    for reader in readers {
        if reader == id {
            return push_counted(out, b"", u64::from(n));
        }
    }
    Ok(())
}

/// Adds how many keys nodes were held with, and which of the keys are.
fn push_all_keys(alloc: Global, memo: &Memo, out: &mut Vec<u8>) -> Result<(), Trouble> {
    push_counted(out, b" | ", number_of(memo.all_keys()))?;
    push_bytes(out, b":")?;
    for k in 0..KEYS {
        push_if_key(memo.all_keys(), &key(alloc, k)?, out)?;
    }
    Ok(())
}

/// How many keys these are.
fn number_of(keys: AllKeys<'_>) -> u64 {
    let mut number: u64 = 0;
    for _key in keys {
        number = number.saturating_add(1);
    }
    number
}

/// Adds a key where it is one of these.
fn push_if_key(keys: AllKeys<'_>, key: &Key, out: &mut Vec<u8>) -> Result<(), Trouble> {
    for one in keys {
        if *one == *key {
            return push_looked(key, out);
        }
    }
    Ok(())
}
