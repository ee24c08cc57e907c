//! Dropping what is marked.
ghost use Rattle.std.specs.Prelude.{◌≡◌, ◌<◌, ◌≤◌, ◌+◌, Some, length, slice_index_or, slice_set, None, filter, map as map_list, ℕ, if◌then◌else◌};
ghost use Rattle.std.specs.FinMap as map;
ghost use Rattle.std.specs.HashMap.{get as look_up};
ghost use Rattle.mx_value.specs.Equality.{node_eq};
ghost use Rattle.mx_value.specs.declared.node.Node.{Node as Asked};
ghost use Rattle.mx_vertices.specs.Found.{IsIndexed, is_begun};
ghost use Rattle.mx_graph.specs.Relation.{is_kept, is_marked_in};
ghost use Rattle.mx_vertices.specs.declared.slot.Slot.TheVariants.{Free};
ghost use Rattle.mx_vertices.specs.Places.{slot_at, node_place, key_place, cleared, CanClear, IsPlaced, if_live, held_in, counts};

use mx_graph::{NodeId, ReadGraph};
use mx_vertices::finding::{Table, forget, key_laws, node_laws};
use mx_vertices::slot::Slot;
use std::mem;

/// Forgets a vertex, and takes it out of the list that it stands in.
fn clear(
    slots: &mut Vec<Slot>,
    order: &mut Vec<Option<NodeId>>,
    keys: &mut Vec<Option<NodeId>>,
    count: &mut u32,
    at: usize,
)
    requires at { at < length slots.old.items }
    requires order { CanClear (node_place (slot_at slots.old.items at)) order.old.items }
    requires keys { CanClear (key_place (slot_at slots.old.items at)) keys.old.items }
    requires count { counts (node_place (slot_at slots.old.items at)) ≤ count.old }
    ensures count { count.new + counts (node_place (slot_at slots.old.items at)) ≡ count.old }
    ensures slots { slots.new.items ≡ slice_set slots.old.items at Free }
    ensures order { order.new.items
        ≡ cleared (node_place (slot_at slots.old.items at)) order.old.items }
    ensures keys { keys.new.items
        ≡ cleared (key_place (slot_at slots.old.items at)) keys.old.items }
{
    let slot = mem::replace(&mut slots[at], Slot::Free);
    match slot {
        Slot::Node(held) => {
            order[held.place] = None;
            *count -= 1;
        }
        Slot::Watch(watched) => keys[watched.place] = None,
        Slot::Free => {}
    }
}
/// Drops each marked vertex, and counts the nodes that are left.
pub fn sweep(
    graph: &mut ReadGraph,
    slots: &mut Vec<Slot>,
    order: &mut Vec<Option<NodeId>>,
    keys: &mut Vec<Option<NodeId>>,
    count: &mut u32,
    table: &mut Table,
)
    requires found { IsIndexed table.old slots.old.items order.old.items }
    requires count { count.old ≡ held_in order.old.items }
    requires placed { IsPlaced graph.old.nodes slots.old.items order.old.items keys.old.items }
    ensures found { IsIndexed table.new slots.new.items order.new.items }
    ensures begun { (n : Asked) →
        is_begun (look_up node_eq table.new.nodes n)
        ≡ is_begun (look_up node_eq table.old.nodes n) }
    ensures count { count.new ≡ held_in order.new.items }
    ensures less { count.new ≤ count.old }
    ensures placed { IsPlaced graph.new.nodes slots.new.items order.new.items keys.new.items }
    ensures nodes { (q : ℕ) →
        map.get graph.new.nodes q
        ≡ (if is_marked_in graph.old.nodes q then None else map.get graph.old.nodes q) }
    ensures edges { graph.new.edges ≡ filter (is_kept graph.old.nodes) graph.old.edges }
    ensures slots { (q : ℕ) →
        slot_at slots.new.items q
        ≡ (if is_marked_in graph.old.nodes q then Free else slot_at slots.old.items q) }
    ensures order { order.new.items ≡ map_list (if_live graph.new.nodes) order.old.items }
    ensures keys { keys.new.items ≡ map_list (if_live graph.new.nodes) keys.old.items }
{
    node_laws();
    key_laws();
    'marked: while let Some(id) = graph.take_marked() {
        let at = id.index();
        forget(slots.as_slice(), table, at);
        clear(slots, order, keys, count, at);
    }
}
