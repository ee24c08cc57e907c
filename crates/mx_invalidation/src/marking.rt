//! Marking what a change touches.
ghost use Rattle.std.specs.Prelude.{◌≡◌, ◌↔◌, ◌⊎◌, ℕ, Some, true, IsSome, IfSome, slice_index, length, Option};
ghost use Rattle.std.specs.FinMap as map;
ghost use Rattle.mx_vertices.specs.Places.{slot_at, key_place, IsPlacedIn};
ghost use Rattle.mx_invalidation.specs.Marked.{IsChangedKey, IsMarkedBy, IsMarkedFrom, DoesReach, IsReaching, IsGoing, DoesGo, IsGoingFrom};
ghost use Rattle.mx_vertices.specs.Live.{AreLive};

use crate::test_of_key::KeyTest;
use crate::test_of_node::NodeTest;
use mx_graph::{NodeId, ReadGraph};
use mx_vertices::slot::Slot;

/// Whether the vertex is a changed key.
fn is_changed_key<T: KeyTest>(slots: &[Slot], id: NodeId, test: &T) -> bool
    ensures yes { result ≡ true → IsChangedKey slots.now (T.changed test.now) id.at }
    ensures no { IsChangedKey slots.now (T.changed test.now) id.at → result ≡ true }
{
    let Some(slot) = slots.get(id.index()) else {
        return false;
    };
    match slot {
        Slot::Watch(watched) => test.is_changed(&watched.key),
        Slot::Node(_) => false,
        Slot::Free => false,
    }
}

/// Marks all that reach the vertex, where it is a changed key.
fn mark_one<T: KeyTest>(graph: &mut ReadGraph, slots: &[Slot], key: Option<NodeId>, test: &T)
    requires { IfSome key (λ id. IsSome (map.get graph.old.nodes id.at)) }
    ensures live { (q : ℕ) →
        IsSome (map.get graph.new.nodes q) ↔ IsSome (map.get graph.old.nodes q) }
    ensures edges { graph.new.edges ≡ graph.old.edges }
    ensures marked { (q : ℕ) →
        (map.get graph.new.nodes q ≡ Some true) ↔
        ((map.get graph.old.nodes q ≡ Some true) ⊎ IsMarkedBy slots.now
        (T.changed test.now) graph.old.edges key q) }
{
    let Some(id) = key else {
        return;
    };
    if is_changed_key(slots, id, test) {
        graph.mark_readers(id);
    }
}

/// Marks all that reach a changed key.
pub fn mark_changed<T: KeyTest>(
    graph: &mut ReadGraph,
    slots: &[Slot],
    keys: &[Option<NodeId>],
    test: &T,
)
    requires { IsPlacedIn key_place graph.old.nodes slots.now keys.now }
    ensures live { (q : ℕ) →
        IsSome (map.get graph.new.nodes q) ↔ IsSome (map.get graph.old.nodes q) }
    ensures edges { graph.new.edges ≡ graph.old.edges }
    ensures marked { (q : ℕ) →
        (map.get graph.new.nodes q ≡ Some true) ↔
        ((map.get graph.old.nodes q ≡ Some true) ⊎ IsMarkedFrom slots.now
        (T.changed test.now) keys.now graph.old.edges (length keys.now) q) }
{
    for key in keys {
        mark_one(graph, slots, *key, test);
    }
}
/// Marks each node that stands at this place or a later one, with all that reach it.
pub fn mark_after(graph: &mut ReadGraph, order: &[Option<NodeId>], from: usize)
    requires { AreLive graph.old.nodes order.now }
    ensures live { (q : ℕ) →
        IsSome (map.get graph.new.nodes q) ↔ IsSome (map.get graph.old.nodes q) }
    ensures edges { graph.new.edges ≡ graph.old.edges }
    ensures marked { (q : ℕ) →
        (map.get graph.new.nodes q ≡ Some true) ↔
        ((map.get graph.old.nodes q ≡ Some true) ⊎ IsReaching order.now graph.old.edges from
        (length order.now) q) }
{
    if from >= order.len() {
        return;
    }
    for place in from..order.len() {
        mark_node(graph, order[place]);
    }
}

/// Marks a node with all that reach it, where there is one.
fn mark_node(graph: &mut ReadGraph, node: Option<NodeId>)
    requires { IfSome node (λ id. IsSome (map.get graph.old.nodes id.at)) }
    ensures live { (q : ℕ) →
        IsSome (map.get graph.new.nodes q) ↔ IsSome (map.get graph.old.nodes q) }
    ensures edges { graph.new.edges ≡ graph.old.edges }
    ensures marked { (q : ℕ) →
        (map.get graph.new.nodes q ≡ Some true) ↔
        ((map.get graph.old.nodes q ≡ Some true) ⊎ DoesReach graph.old.edges node q) }
{
    if let Some(id) = node {
        graph.mark_readers(id);
    }
}

/// Marks all that reach the vertex, where it is a held node that is to go.
fn mark_if<T: NodeTest>(graph: &mut ReadGraph, slots: &[Slot], node: Option<NodeId>, test: &T)
    requires { IfSome node (λ id. IsSome (map.get graph.old.nodes id.at)) }
    ensures live { (q : ℕ) →
        IsSome (map.get graph.new.nodes q) ↔ IsSome (map.get graph.old.nodes q) }
    ensures edges { graph.new.edges ≡ graph.old.edges }
    ensures marked { (q : ℕ) →
        (map.get graph.new.nodes q ≡ Some true) ↔
        ((map.get graph.old.nodes q ≡ Some true) ⊎ DoesGo slots.now
        (T.goes test.now) graph.old.edges node q) }
{
    let Some(id) = node else {
        return;
    };
    if goes_at(slots, id, test) {
        graph.mark_readers(id);
    }
}

/// Whether the vertex is a held node that is to go.
fn goes_at<T: NodeTest>(slots: &[Slot], id: NodeId, test: &T) -> bool
    ensures yes { result ≡ true → IsGoing slots.now (T.goes test.now) id.at }
    ensures no { IsGoing slots.now (T.goes test.now) id.at → result ≡ true }
{
    let Some(slot) = slots.get(id.index()) else {
        return false;
    };
    match slot {
        Slot::Node(held) => test.is_to_go(&held.body),
        Slot::Watch(_) => false,
        Slot::Free => false,
    }
}

/// Marks each node that is to go, with all that reach it.
pub fn mark_where<T: NodeTest>(
    graph: &mut ReadGraph,
    slots: &[Slot],
    order: &[Option<NodeId>],
    test: &T,
)
    requires { AreLive graph.old.nodes order.now }
    ensures live { (q : ℕ) →
        IsSome (map.get graph.new.nodes q) ↔ IsSome (map.get graph.old.nodes q) }
    ensures edges { graph.new.edges ≡ graph.old.edges }
    ensures marked { (q : ℕ) →
        (map.get graph.new.nodes q ≡ Some true) ↔
        ((map.get graph.old.nodes q ≡ Some true) ⊎ IsGoingFrom slots.now
        (T.goes test.now) order.now graph.old.edges (length order.now) q) }
{
    for node in order {
        mark_if(graph, slots, *node, test);
    }
}
