//! Lists of vertices without free places.
ghost use Rattle.std.specs.Prelude.{◌≡◌, ◌==◌, ◌<◌, ℕ, Some, is_some, filter, length, if◌then◌else◌};
ghost use Rattle.mx_vertices.specs.declared.slot.Slot.TheVariants.{Free};
ghost use Rattle.mx_vertices.specs.Places.{slot_at, at, with_place, StandOnce, IsSettled};

use mx_graph::NodeId;
use mx_vertices::slot::Slot;

/// Tells a vertex its place.
fn set_place(slot: &mut Slot, place: usize)
    ensures { slot.new ≡ with_place place slot.old }
{
    match slot {
        Slot::Node(held) => held.place = place,
        Slot::Watch(watched) => watched.place = place,
        Slot::Free => {}
    }
}

/// Tells the vertex of an id its place.
fn move_to(slots: &mut Vec<Slot>, id: NodeId, place: usize)
    requires { id.at < length slots.old.items }
    ensures slots { (q : ℕ) →
        slot_at slots.new.items q
        ≡ (if id.at == q then with_place place
        (slot_at slots.old.items q) else slot_at slots.old.items q) }
    ensures length { length slots.new.items ≡ length slots.old.items }
{
    set_place(&mut slots[id.index()], place);
}

/// Takes the free places out of a list of vertices, and tells each vertex the place that it has then.
pub fn settle(slots: &mut Vec<Slot>, list: &mut Vec<Option<NodeId>>)
    requires there { (p : ℕ) (id : NodeId) → at list.old.items p ≡ Some id →
        slot_at slots.old.items id.at ≡ Free → ⊥ }
    requires once { StandOnce list.old.items }
    ensures list { list.new.items ≡ filter is_some list.old.items }
    ensures settled { IsSettled slots.old.items slots.new.items list.new.items }
{
    list.retain(|entry| entry.is_some());
    for place in 0..list.len() {
        if let Some(id) = list[place] {
            move_to(slots, id, place);
        }
    }
}
