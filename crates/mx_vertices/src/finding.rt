//! The table of the held nodes and of those whose run has begun.
ghost use Rattle.std.specs.Prelude.{◌≡◌, ◌++◌, ◌∷◌, [], true, if◌then◌else◌, Some, None, OnOk, OnErr, IfNone, IfSome, MatchOption, option_to_list, ℕ};
ghost use Rattle.mx_vertices.specs.declared.standing.Standing.TheVariants.{Begun, Ended};
ghost use Rattle.std.specs.HashMap.{get as look_up};
ghost use Rattle.mx_value.specs.declared.node.Node.{Node as Asked};
ghost use Rattle.mx_value.specs.Equality.{node_eq};
ghost use Rattle.mx_edit.specs.Equality.{key_eq};
ghost use Rattle.mx_edit.specs.declared.key.Key.{Key as Looked};
ghost use Rattle.mx_vertices.specs.Places.{slot_at};
ghost use Rattle.mx_vertices.specs.Found.{AreBegun, IsNodeAt, look_without, key_without};

use crate::slot::Slot;
use crate::standing::Standing;
use mx_edit::equality::equality_laws as laws_of_keys;
use mx_edit::key::Key;
use mx_graph::{NoMemory, NodeId};
use mx_value::equality::equality_laws;
use mx_value::node::{Node, SharedNode};
use std::collections::HashMap;

/// How far nodes have come.
pub type Nodes = HashMap<SharedNode, Standing>;

/// The vertices of keys.
pub type Keys = HashMap<Key, NodeId>;

/// Where nodes and keys are found.
#[derive(Drop)]
pub struct Table {
    /// How far nodes have come.
    pub nodes: Nodes,
    /// The vertices of keys.
    pub keys: Keys,
}

/// Whether two nodes are the same.
fn is_same_node(a: &SharedNode, b: &Node) -> bool
    ensures yes { result ≡ true → a.now ≡ b.now }
    ensures no { a.now ≡ b.now → result ≡ true }
{
    equality_laws();
    *a.get() == *b
}

/// Whether the vertex is this node.
pub fn holds_node(slots: &[Slot], id: NodeId, node: &Node) -> bool
    ensures yes { result ≡ true → IsNodeAt slots.now id.at node.now }
    ensures no { IsNodeAt slots.now id.at node.now → result ≡ true }
{
    let Some(slot) = slots.get(id.index()) else {
        return false;
    };
    match slot {
        Slot::Node(held) => is_same_node(&held.body.node, node),
        Slot::Watch(_) => false,
        Slot::Free => false,
    }
}

/// Takes the node or the key of a slot out of its table.
pub fn forget(slots: &[Slot], table: &mut Table, at: usize)
    ensures nodes { (n : Asked) →
        look_up node_eq table.new.nodes n
        ≡ look_without (slot_at slots.now at) (look_up node_eq table.old.nodes) n }
    ensures keys { (k : Looked) →
        look_up key_eq table.new.keys k
        ≡ key_without (slot_at slots.now at) (look_up key_eq table.old.keys) k }
{
    let Some(slot) = slots.get(at) else {
        return;
    };
    match slot {
        Slot::Node(held) => {
            let _ = table.nodes.remove(&held.body.node);
        }
        Slot::Watch(watched) => {
            let _ = table.keys.remove(&watched.key);
        }
        Slot::Free => {}
    }
}

/// The law of `==` on nodes, for proofs. Does nothing when it runs.
pub fn node_laws()
    ensures { (a b : Asked) → (node_eq a b ≡ true → a ≡ b) × (a ≡ b → node_eq a b ≡ true) }
{
    equality_laws();
}

/// The law of `==` on keys, for proofs. Does nothing when it runs.
pub fn key_laws()
    ensures { (a b : Looked) → (key_eq a b ≡ true → a ≡ b) × (a ≡ b → key_eq a b ≡ true) }
{
    laws_of_keys();
}

/// Marks a node whose run begins. After an error nothing is seen to change.
pub fn begin_in(
    table: &mut Nodes,
    begun: &mut Vec<SharedNode>,
    node: &SharedNode,
) -> Result<(), NoMemory>
    ensures begun { OnOk result (begun.new.items ≡ begun.old.items ++ node.now ∷ []) }
    ensures marked { OnOk result
        ((n : Asked) →
        look_up node_eq table.new n
        ≡ (if node_eq node.now n then Some Begun else look_up node_eq table.old n)) }
    ensures stay { OnErr result (begun.new.items ≡ begun.old.items) }
    ensures lost { OnErr result
        ((n : Asked) → look_up node_eq table.new n ≡ look_up node_eq table.old n) }
{
    let first = node.copy()?;
    let second = node.copy()?;
    table.reserve(1)?;
    begun.push(first)?;
    let _ = table.insert(second, Standing::Begun);
    Ok(())
}

/// Takes the mark off the node whose run began last, and gives it.
pub fn end_in(table: &mut Nodes, begun: &mut Vec<SharedNode>) -> Option<SharedNode>
    ensures begun { begun.old.items ≡ begun.new.items ++ option_to_list result }
    ensures none { IfNone result (begun.old.items ≡ []) }
    ensures table { MatchOption result
        ((n : Asked) → look_up node_eq table.new n ≡ look_up node_eq table.old n)
        (λ node. (n : Asked) →
        look_up node_eq table.new n
        ≡ (if node_eq node n then None else look_up node_eq table.old n)) }
{
    let Some(node) = begun.pop() else {
        return None;
    };
    let _ = table.remove(&node);
    Some(node)
}

/// The node whose run began last is held from now on, under this id. Its entry stays where it is.
pub fn end_as(table: &mut Nodes, begun: &mut Vec<SharedNode>, id: NodeId) -> Option<SharedNode>
    requires { AreBegun (look_up node_eq table.old) begun.old.items }
    ensures begun { begun.old.items ≡ begun.new.items ++ option_to_list result }
    ensures none { IfNone result (begun.old.items ≡ []) }
    ensures table { IfSome result
        (λ node. (n : Asked) →
        look_up node_eq table.new n
        ≡ (if node_eq node n then Some (Ended id) else look_up node_eq table.old n)) }
{
    let Some(node) = begun.pop() else {
        return None;
    };
    let Some(standing) = table.get_mut(&node) else {
        unreachable!()
    };
    *standing = Standing::Ended(id);
    Some(node)
}
