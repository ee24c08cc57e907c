//! Marking static nodes whose own input is changed.
ghost use Rattle.std.specs.Prelude.{◌≡◌, ◌↔◌, ◌⊎◌, ℕ, Some, true, IsSome};
ghost use Rattle.std.specs.FinMap as map;
ghost use Rattle.std.specs.HashMap.{get as look_up};
ghost use Rattle.mx_value.specs.Equality.{node_eq};
ghost use Rattle.mx_vertices.specs.Found.{LeadsTo};
ghost use Rattle.mx_invalidation.specs.Marked.{IsInputBy, IsInputFrom, AreNodesLive};

use mx_graph::ReadGraph;
use mx_value::node::SharedNode;
use mx_vertices::finding::Nodes;
use mx_vertices::inputs::{find_held, is_static};
use mx_vertices::slot::Slot;

/// Marks a node with all that reach it, where it is held and static.
fn mark_input(graph: &mut ReadGraph, slots: &[Slot], table: &Nodes, node: &SharedNode)
    requires nodes { AreNodesLive graph.old.nodes slots.now }
    requires found { LeadsTo (look_up node_eq table.now) slots.now }
    ensures live { (q : ℕ) →
        IsSome (map.get graph.new.nodes q) ↔ IsSome (map.get graph.old.nodes q) }
    ensures edges { graph.new.edges ≡ graph.old.edges }
    ensures marked { (q : ℕ) →
        (map.get graph.new.nodes q ≡ Some true) ↔
        ((map.get graph.old.nodes q ≡ Some true) ⊎ IsInputBy slots.now graph.old.edges node.now q) }
{
    if !is_static(node.get()) {
        return;
    }
    if let Some(id) = find_held(slots, table, node) {
        graph.mark_readers(id);
    }
}

/// Marks each of these nodes that is held and static, with all that reach it.
pub fn mark_inputs(graph: &mut ReadGraph, slots: &[Slot], table: &Nodes, nodes: &[SharedNode])
    requires nodes { AreNodesLive graph.old.nodes slots.now }
    requires found { LeadsTo (look_up node_eq table.now) slots.now }
    ensures live { (q : ℕ) →
        IsSome (map.get graph.new.nodes q) ↔ IsSome (map.get graph.old.nodes q) }
    ensures edges { graph.new.edges ≡ graph.old.edges }
    ensures marked { (q : ℕ) →
        (map.get graph.new.nodes q ≡ Some true) ↔
        ((map.get graph.old.nodes q
        ≡ Some true) ⊎ IsInputFrom slots.now graph.old.edges nodes.now q) }
{
    for node in nodes {
        mark_input(graph, slots, table, node);
    }
}
