//! Rows that hold a node, or begin one.
ghost use Rattle.mx_memo.specs.Memos.{AreHeld};
ghost use Rattle.std.specs.Prelude.{OnOk, IfOk};

use crate::reading::{numbers, push_bytes, two_parts};
use crate::samples::{body, keys, node, reply};
use crate::trouble::Trouble;
use mx_edit::key::Key;
use mx_graph::NodeId;
use mx_memo::{Body, HoldRefusal, Memo, Standing};
use mx_value::node::SharedNode;
use mx_value::value::Value;
use std::alloc::Global;

/// `hold NODE VALUE KEYS ASKS`: holds a node, unless it is held, with the keys that it looked up and those of the asks that are held.
pub fn hold(alloc: Global, memo: &mut Memo, rest: &str, out: &mut Vec<u8>) -> Result<(), Trouble> {
    let (n, rest) = two_parts(rest)?;
    let (value, rest) = two_parts(rest)?;
    let body = body_of(alloc, n.parse::<u8>()?, value.parse::<i64>()?)?;
    let (looked, asked) = two_parts(rest)?;
    hold_with(alloc, memo, body, looked, asked, out)
}

/// What is held of a node with a value.
fn body_of(alloc: Global, n: u8, value: i64) -> Result<Body, Trouble> {
    let node = node(alloc, n)?;
    body(alloc, node, reply(Value::Int(value), None))
}

/// Holds a body, unless its node is held, with the keys and asks of two words.
pub fn hold_with(
    alloc: Global,
    memo: &mut Memo,
    body: Body,
    looked: &str,
    asked: &str,
    out: &mut Vec<u8>,
) -> Result<(), Trouble> {
    let asks = asks_of(alloc, memo, asked)?;
    let keys = keys(alloc, looked)?;
    hold_body(memo, body, &keys, asks, out)
}

/// Holds a body, unless its node is held.
fn hold_body(
    memo: &mut Memo,
    body: Body,
    keys: &[Key],
    asks: Vec<NodeId>,
    out: &mut Vec<u8>,
) -> Result<(), Trouble>
    requires { AreHeld memo.old.held asks.items }
{
    let None = memo.standing(&body.node) else {
        return push_bytes(out, b" standing");
    };
    memo.begin(&body.node)?;
    match memo.hold(body, keys, &asks) {
        Ok(_) => push_bytes(out, b" held"),
        Err(HoldRefusal::Full) => push_bytes(out, b" full"),
        Err(HoldRefusal::NoMemory) => Err(Trouble::NoMemory),
    }
}

/// Puts the id of a node behind others, where it is held.
fn ask_one(alloc: Global, memo: &Memo, n: u8, asks: &mut Vec<NodeId>) -> Result<(), Trouble>
    requires { AreHeld memo.now.held asks.old.items }
    ensures { OnOk result (AreHeld memo.now.held asks.new.items) }
{
    let node = node(alloc, n)?;
    let Some(id) = memo.find(&node) else {
        return Ok(());
    };
    asks.push(id)?;
    Ok(())
}

/// The ids of those of the nodes that are held.
fn asks_of(alloc: Global, memo: &Memo, word: &str) -> Result<Vec<NodeId>, Trouble>
    ensures { IfOk result (λ ids. AreHeld memo.now.held ids.items) }
{
    let wanted = numbers(alloc, word)?;
    let mut asks = Vec::new(alloc);
    for n in &wanted {
        ask_one(alloc, memo, *n, &mut asks)?;
    }
    Ok(asks)
}

/// `begin NODE`: begins a node, unless it is held, and ends it. A run that begins is seen in one look until it ends.
pub fn begin(alloc: Global, memo: &mut Memo, rest: &str, out: &mut Vec<u8>) -> Result<(), Trouble> {
    begin_node(memo, &node(alloc, rest.parse::<u8>()?)?, out)
}

/// The same, with the node.
fn begin_node(memo: &mut Memo, node: &SharedNode, out: &mut Vec<u8>) -> Result<(), Trouble> {
    let None = memo.standing(node) else {
        return push_bytes(out, b" standing");
    };
    memo.begin(node)?;
    push_standing(memo, node, out)?;
    push_ended(memo, node, out)?;
    push_standing(memo, node, out)?;
    push_ended(memo, node, out)
}

/// Adds whether a node stands as begun or held, and whether it is found.
fn push_standing(memo: &Memo, node: &SharedNode, out: &mut Vec<u8>) -> Result<(), Trouble> {
    if memo.find(node).is_some() {
        push_bytes(out, b" found")?;
    }
    match memo.standing(node) {
        Some(Standing::Begun) => push_bytes(out, b" begun"),
        Some(_) => push_bytes(out, b" standing"),
        None => push_bytes(out, b" new"),
    }
}

/// Ends the last node that has begun, and adds whether it is this one.
fn push_ended(memo: &mut Memo, node: &SharedNode, out: &mut Vec<u8>) -> Result<(), Trouble> {
    match memo.end_last() {
        Some(ended) => push_bytes(out, if ended == *node { b" ended" } else { b" other" }),
        None => push_bytes(out, b" none"),
    }
}
