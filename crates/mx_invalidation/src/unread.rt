//! Keys that no held node reads.
ghost use Rattle.std.specs.Prelude.{◌≡◌, ◌↔◌, ◌⊎◌, ◌≤◌, ℕ, Some, true, IsSome, IfSome, length};
ghost use Rattle.std.specs.FinMap as map;
ghost use Rattle.std.specs.HashMap.{get as look_up};
ghost use Rattle.mx_value.specs.Equality.{node_eq};
ghost use Rattle.mx_value.specs.declared.node.Node.{Node as Asked};
ghost use Rattle.mx_vertices.specs.Found.{IsIndexed, is_begun};
ghost use Rattle.mx_vertices.specs.Places.{held_in};
ghost use Rattle.mx_vertices.specs.Live.{AreLive};
ghost use Rattle.mx_invalidation.specs.Marked.{IsUnreadBy, IsUnreadFrom};
ghost use Rattle.mx_vertices.specs.Kept.{IsWhole, entries};

use crate::settle::settle;
use crate::sweep::sweep;
use mx_graph::{NodeId, ReadGraph};
use mx_vertices::finding::Table;
use mx_vertices::slot::Slot;

/// Marks the key, where none reads it.
fn mark_one_unread(graph: &mut ReadGraph, key: Option<NodeId>)
    requires { IfSome key (λ id. IsSome (map.get graph.old.nodes id.at)) }
    ensures live { (q : ℕ) →
        IsSome (map.get graph.new.nodes q) ↔ IsSome (map.get graph.old.nodes q) }
    ensures edges { graph.new.edges ≡ graph.old.edges }
    ensures marked { (q : ℕ) →
        (map.get graph.new.nodes q ≡ Some true) ↔
        ((map.get graph.old.nodes q ≡ Some true) ⊎ IsUnreadBy graph.old.edges key q) }
{
    let Some(id) = key else {
        return;
    };
    if graph.first_reader(id).is_none() {
        graph.mark_readers(id);
    }
}

/// Marks each key that none reads.
fn mark_unread(graph: &mut ReadGraph, keys: &[Option<NodeId>])
    requires { AreLive graph.old.nodes keys.now }
    ensures live { (q : ℕ) →
        IsSome (map.get graph.new.nodes q) ↔ IsSome (map.get graph.old.nodes q) }
    ensures edges { graph.new.edges ≡ graph.old.edges }
    ensures marked { (q : ℕ) →
        (map.get graph.new.nodes q ≡ Some true) ↔
        ((map.get graph.old.nodes q ≡ Some true) ⊎ IsUnreadFrom keys.now graph.old.edges
        (length keys.now) q) }
{
    for key in keys {
        mark_one_unread(graph, *key);
    }
}

/// Drops the keys that no held node reads, and leaves no free place among the keys. What is held stays.
pub fn drop_unread(
    graph: &mut ReadGraph,
    slots: &mut Vec<Slot>,
    order: &mut Vec<Option<NodeId>>,
    keys: &mut Vec<Option<NodeId>>,
    count: &mut u32,
    table: &mut Table,
)
    requires found { IsIndexed table.old slots.old.items order.old.items }
    requires count { count.old ≡ held_in order.old.items }
    requires whole { IsWhole graph.old slots.old.items order.old.items keys.old.items }
    ensures found { IsIndexed table.new slots.new.items order.new.items }
    ensures begun { (n : Asked) →
        is_begun (look_up node_eq table.new.nodes n)
        ≡ is_begun (look_up node_eq table.old.nodes n) }
    ensures count { count.new ≡ held_in order.new.items }
    ensures less { count.new ≤ count.old }
    ensures last { length order.new.items ≡ length order.old.items }
    ensures whole { IsWhole graph.new slots.new.items order.new.items keys.new.items }
    ensures same { entries graph.new.edges slots.new.items 0 order.new.items
        ≡ entries graph.old.edges slots.old.items 0 order.old.items }
{
    graph.relation();
    mark_unread(graph, keys.as_slice());
    sweep(graph, slots, order, keys, count, table);
    settle(slots, keys);
}
