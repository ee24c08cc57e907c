//! Where held nodes stand in the order of holding.
ghost use Rattle.std.specs.Prelude.{◌≡◌, Some, MatchOption};
ghost use Rattle.mx_vertices.specs.Places.{slot_at, node_place};
ghost use Rattle.mx_vertices.specs.Kept.{IsNode};
ghost use Rattle.mx_invalidation.specs.Stamps.{NoneFrom, IsFirstFrom};

use mx_graph::NodeId;
use mx_vertices::slot::Slot;

/// The place of a held node. None exactly where the vertex is none.
pub fn place_at(slots: &[Slot], id: NodeId) -> Option<usize>
    ensures { MatchOption result (IsNode (slot_at slots.now id.at) → ⊥)
        (λ p. node_place (slot_at slots.now id.at) ≡ Some p) }
{
    let Some(slot) = slots.get(id.index()) else {
        return None;
    };
    match slot {
        Slot::Node(held) => Some(held.place),
        Slot::Watch(_) => None,
        Slot::Free => None,
    }
}

/// The first that stands from a place on.
pub fn first_from(order: &[Option<NodeId>], from: usize) -> Option<NodeId>
    ensures { MatchOption result (NoneFrom order.now from) (λ id. IsFirstFrom order.now from id) }
{
    if from >= order.len() {
        return None;
    }
    for place in from..order.len() {
        if let Some(id) = order[place] {
            return Some(id);
        }
    }
    None
}
