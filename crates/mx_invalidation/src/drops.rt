//! What an edit and a roll-back drop.
ghost use Rattle.std.specs.Prelude.{◌≡◌, ◌<◌, ◌≤◌, length};
ghost use Rattle.std.specs.HashMap.{get as look_up};
ghost use Rattle.mx_value.specs.Equality.{node_eq};
ghost use Rattle.mx_value.specs.declared.node.Node.{Node as Asked};
ghost use Rattle.mx_vertices.specs.Found.{IsIndexed, is_begun};
ghost use Rattle.mx_vertices.specs.Places.{held_in, slot_at};
ghost use Rattle.mx_vertices.specs.Kept.{IsTouched, HasChanged, IsToGo, Sifts, IsNode, IsWhole, entries};

use crate::inputs::mark_inputs;
use crate::marking::{mark_after, mark_changed, mark_where};
use crate::sweep::sweep;
use crate::test_of_key::KeyTest;
use crate::test_of_node::NodeTest;
use crate::unread::drop_unread;
use mx_graph::{NodeId, ReadGraph};
use mx_vertices::finding::Table;
use mx_vertices::slot::Slot;

/// Drops each node that read a changed key, its own input among them, with all that reach it.
pub fn drop_changed<T: KeyTest>(
    graph: &mut ReadGraph,
    slots: &mut Vec<Slot>,
    order: &mut Vec<Option<NodeId>>,
    keys: &mut Vec<Option<NodeId>>,
    count: &mut u32,
    table: &mut Table,
    test: &T,
)
    requires found { IsIndexed table.old slots.old.items order.old.items }
    requires count { count.old ≡ held_in order.old.items }
    requires whole { IsWhole graph.old slots.old.items order.old.items keys.old.items }
    ensures found { IsIndexed table.new slots.new.items order.new.items }
    ensures begun { (n : Asked) →
        is_begun (look_up node_eq table.new.nodes n)
        ≡ is_begun (look_up node_eq table.old.nodes n) }
    ensures count { count.new ≡ held_in order.new.items }
    ensures less { count.new ≤ count.old }
    ensures last { length order.new.items ≡ length order.old.items }
    ensures whole { IsWhole graph.new slots.new.items order.new.items keys.new.items }
    ensures sifts { Sifts (IsTouched (HasChanged (T.changed test.now))
        (entries graph.old.edges slots.old.items 0 order.old.items))
        (entries graph.old.edges slots.old.items 0 order.old.items)
        (entries graph.new.edges slots.new.items 0 order.new.items) }
{
    graph.relation();
    mark_changed(graph, slots.as_slice(), keys.as_slice(), test);
    mark_inputs(graph, slots.as_slice(), &table.nodes, test.changed_inputs());
    sweep(graph, slots, order, keys, count, table);
    drop_unread(graph, slots, order, keys, count, table);
}

/// Drops each node that was held after a stamp, with all that reach it.
pub fn drop_after(
    graph: &mut ReadGraph,
    slots: &mut Vec<Slot>,
    order: &mut Vec<Option<NodeId>>,
    keys: &mut Vec<Option<NodeId>>,
    count: &mut u32,
    table: &mut Table,
    stamp: usize,
)
    requires found { IsIndexed table.old slots.old.items order.old.items }
    requires count { count.old ≡ held_in order.old.items }
    requires whole { IsWhole graph.old slots.old.items order.old.items keys.old.items }
    ensures found { IsIndexed table.new slots.new.items order.new.items }
    ensures begun { (n : Asked) →
        is_begun (look_up node_eq table.new.nodes n)
        ≡ is_begun (look_up node_eq table.old.nodes n) }
    ensures count { count.new ≡ held_in order.new.items }
    ensures less { count.new ≤ count.old }
    ensures last { length order.new.items ≡ length order.old.items }
    ensures whole { IsWhole graph.new slots.new.items order.new.items keys.new.items }
    ensures sifts { Sifts (IsTouched (λ r. stamp < r.stamp)
        (entries graph.old.edges slots.old.items 0 order.old.items))
        (entries graph.old.edges slots.old.items 0 order.old.items)
        (entries graph.new.edges slots.new.items 0 order.new.items) }
{
    graph.relation();
    mark_after(graph, order.as_slice(), stamp);
    sweep(graph, slots, order, keys, count, table);
    drop_unread(graph, slots, order, keys, count, table);
}

/// Drops each node that is to go, with all that reach it.
pub fn drop_where<T: NodeTest>(
    graph: &mut ReadGraph,
    slots: &mut Vec<Slot>,
    order: &mut Vec<Option<NodeId>>,
    keys: &mut Vec<Option<NodeId>>,
    count: &mut u32,
    table: &mut Table,
    test: &T,
)
    requires found { IsIndexed table.old slots.old.items order.old.items }
    requires count { count.old ≡ held_in order.old.items }
    requires whole { IsWhole graph.old slots.old.items order.old.items keys.old.items }
    ensures found { IsIndexed table.new slots.new.items order.new.items }
    ensures begun { (n : Asked) →
        is_begun (look_up node_eq table.new.nodes n)
        ≡ is_begun (look_up node_eq table.old.nodes n) }
    ensures count { count.new ≡ held_in order.new.items }
    ensures less { count.new ≤ count.old }
    ensures last { length order.new.items ≡ length order.old.items }
    ensures whole { IsWhole graph.new slots.new.items order.new.items keys.new.items }
    ensures sifts { Sifts (IsTouched (IsToGo (T.goes test.now))
        (entries graph.old.edges slots.old.items 0 order.old.items))
        (entries graph.old.edges slots.old.items 0 order.old.items)
        (entries graph.new.edges slots.new.items 0 order.new.items) }
{
    graph.relation();
    mark_where(graph, slots.as_slice(), order.as_slice(), test);
    sweep(graph, slots, order, keys, count, table);
    drop_unread(graph, slots, order, keys, count, table);
}

/// Drops a held node, with all that reach it.
pub fn drop_one(
    graph: &mut ReadGraph,
    slots: &mut Vec<Slot>,
    order: &mut Vec<Option<NodeId>>,
    keys: &mut Vec<Option<NodeId>>,
    count: &mut u32,
    table: &mut Table,
    from: NodeId,
)
    requires found { IsIndexed table.old slots.old.items order.old.items }
    requires count { count.old ≡ held_in order.old.items }
    requires whole { IsWhole graph.old slots.old.items order.old.items keys.old.items }
    requires node { IsNode (slot_at slots.old.items from.at) }
    ensures found { IsIndexed table.new slots.new.items order.new.items }
    ensures begun { (n : Asked) →
        is_begun (look_up node_eq table.new.nodes n)
        ≡ is_begun (look_up node_eq table.old.nodes n) }
    ensures count { count.new ≡ held_in order.new.items }
    ensures less { count.new ≤ count.old }
    ensures last { length order.new.items ≡ length order.old.items }
    ensures whole { IsWhole graph.new slots.new.items order.new.items keys.new.items }
    ensures sifts { Sifts (IsTouched (λ r. r.id ≡ from.at)
        (entries graph.old.edges slots.old.items 0 order.old.items))
        (entries graph.old.edges slots.old.items 0 order.old.items)
        (entries graph.new.edges slots.new.items 0 order.new.items) }
{
    graph.relation();
    graph.mark_readers(from);
    sweep(graph, slots, order, keys, count, table);
    drop_unread(graph, slots, order, keys, count, table);
}
