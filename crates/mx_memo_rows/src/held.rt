//! What is measured of a memo.
ghost use Rattle.std.specs.Prelude.{◌≡◌, ◌⊎◌};
ghost use Rattle.mx_graph.specs.declared.ids.NodeId.{NodeId as Id};
ghost use Rattle.mx_vertices.specs.Places.{Has};
ghost use Rattle.mx_memo.specs.Memos.{AreHeld};

use crate::edits::Edited;
use crate::nodes::Parts;
use mx_graph::NodeId;
use mx_memo::Memo;
use std::alloc::Global;

/// Puts an id behind others, of which there are up to four.
fn remember(recent: &mut Vec<NodeId>, id: NodeId) -> Option<()>
    ensures { (x : Id) → Has recent.new.items x → Has recent.old.items x ⊎ (id ≡ x) }
{
    if recent.len() >= 5 {
        recent.clear();
    }
    let Ok(()) = recent.push(id) else {
        return None;
    };
    Some(())
}

/// Holds one node more, which asks some of those that were held last: three on average.
fn hold_one(
    alloc: Global,
    parts: &Parts,
    memo: &mut Memo,
    recent: &mut Vec<NodeId>,
    n: u32,
) -> Option<()>
    requires { AreHeld memo.old.held recent.old.items }
    ensures { AreHeld memo.new.held recent.new.items }
{
    let node = parts.node(alloc, n)?;
    if memo.standing(&node).is_some() {
        return None;
    }
    let body = parts.body(alloc, node)?;
    let Ok(()) = memo.begin(&body.node) else {
        return None;
    };
    let Ok(id) = memo.hold(body, &parts.keys, recent) else {
        return None;
    };
    remember(recent, id)
}

/// Holds the nodes of the numbers below the count.
pub fn hold_all(alloc: Global, parts: &Parts, memo: &mut Memo, count: u32) {
    let mut recent = Vec::new(alloc);
    for n in 0..count {
        let _ = hold_one(alloc, parts, memo, &mut recent, n);
    }
}

/// How many of the nodes of the numbers below the count are held.
pub fn find_all(alloc: Global, parts: &Parts, memo: &Memo, count: u32) -> u32 {
    let mut found = 0u32;
    for n in 0..count {
        if let Some(node) = parts.node(alloc, n) {
            if memo.find(&node).is_some() {
                found = found.wrapping_add(1);
            }
        }
    }
    found
}

/// How many nodes are dropped by so many edits.
pub fn edit_often(memo: &mut Memo, edited: &Edited, times: u32) -> u32 {
    let mut dropped = 0u32;
    for _ in 0..times {
        dropped = dropped.wrapping_add(memo.keep_unchanged(edited));
    }
    dropped
}
