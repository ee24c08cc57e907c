//! Static nodes, whose own input is looked up before all else: no vertex is kept for its key.
ghost use Rattle.std.specs.Prelude.{◌≡◌, ◌↔◌, ℕ, IfOk, map as map_list, option_to_list};
ghost use Rattle.std.specs.HashMap.{get as look_up};
ghost use Rattle.mx_value.specs.Equality.{node_eq};
ghost use Rattle.mx_value.specs.declared.value.Segment.{out-Segment};
ghost use Rattle.mx_vertices.specs.Inputs.{is_name, has_no_item, is_static};
ghost use Rattle.mx_vertices.specs.Places.{slot_at, Has};
ghost use Rattle.mx_vertices.specs.Found.{IsNodeAt, LeadsTo, node_at};
ghost use Rattle.mx_vertices.specs.Kept.{own_key};
ghost use Rattle.mx_vertices.specs.Reading.{keys_in, id_at, IsOwnKeyAt};

use crate::finding::{Nodes, holds_node};
use crate::slot::Slot;
use crate::standing::Standing;
use mx_edit::key::Key;
use mx_graph::{NoMemory, NodeId};
use mx_value::node::{Node, SharedNode};
use mx_value::value::Segment;
use std::alloc::Global;

/// Whether the segment is a name.
fn is_name(segment: &Segment) -> bool
    ensures { result ≡ is_name (out-Segment segment.now) }
{
    match segment {
        Segment::Name(_) => true,
        Segment::Item(_) => false,
    }
}

/// Whether each segment is a name.
fn has_no_item(address: &[Segment]) -> bool
    ensures { result ≡ has_no_item address.now }
{
    for segment in address {
        if !is_name(segment) {
            return false;
        }
    }
    true
}

/// Whether the node is static: of cells, at an address without an item.
pub fn is_static(node: &Node) -> bool
    ensures { result ≡ is_static node.now }
{
    match node {
        Node::Cell(at, _, _) => has_no_item(at.as_slice()),
        Node::Item(_, _) => false,
    }
}

/// The held node that is this one.
pub fn find_held(slots: &[Slot], table: &Nodes, node: &SharedNode) -> Option<NodeId>
    requires { LeadsTo (look_up node_eq table.now) slots.now }
    ensures { (q : ℕ) →
        IsNodeAt slots.now q node.now ↔ Has (map_list id_at (option_to_list result)) q }
{
    let Some(standing) = table.get(node) else {
        return None;
    };
    let Standing::Ended(id) = *standing else {
        return None;
    };
    if holds_node(slots, id, node.get()) {
        return Some(id);
    }
    None
}

/// The held static node whose own input the key is.
pub fn node_of_input(slots: &[Slot], table: &Nodes, key: &Key) -> Option<NodeId>
    requires { LeadsTo (look_up node_eq table.now) slots.now }
    ensures { (q : ℕ) →
        IsOwnKeyAt slots.now q key.now ↔ Has (map_list id_at (option_to_list result)) q }
{
    let Key::Input(node) = key else {
        return None;
    };
    if !is_static(node.get()) {
        return None;
    }
    find_held(slots, table, node)
}

/// The key of the own input of a held node, where it is static.
#[tactic(auto, unfolding(crate::specs::Kept::own_key))]
pub fn own_keys(alloc: Global, slots: &[Slot], id: NodeId) -> Result<Vec<Key>, NoMemory>
    ensures { IfOk result (λ keys. keys.items ≡ keys_in (own_key (node_at slots.now id.at))) }
{
    let mut keys = Vec::new(alloc);
    let Some(Slot::Node(held)) = slots.get(id.index()) else {
        return Ok(keys);
    };
    if is_static(held.body.node.get()) {
        keys.push(Key::Input(held.body.node.copy()?))?;
    }
    Ok(keys)
}
