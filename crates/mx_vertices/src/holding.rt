//! Holding a node with all that its run took from elsewhere.
ghost use Rattle.std.specs.Prelude.{◌≡◌, ◌<◌, ◌≤◌, ◌+◌, ◌++◌, ◌∷◌, [], ℕ, Some, length, IfOk, OnOk, OnErr, map as map_list};
ghost use Rattle.mx_vertices.specs.declared.slot.Slot.TheVariants.{Free, Node as Slot_Node};
ghost use Rattle.mx_vertices.specs.Places.{slot_at};
ghost use Rattle.mx_vertices.specs.Kept.{IsWhole, IsNode, looked, own_key, entries};
ghost use Rattle.std.specs.HashMap.{get as look_up};
ghost use Rattle.mx_edit.specs.Equality.{key_eq};
ghost use Rattle.mx_vertices.specs.Found.{AreWatched};
ghost use Rattle.mx_vertices.specs.Held.{sources_of, with_sources, AreThere, AreNodes, asked_id};

use crate::finding::Keys;
use crate::slot::{Body, Slot};
use crate::vertices::{hold_in, key_vertex, read_next};
use mx_edit::key::Key;
use mx_graph::{NoMemory, NodeId, ReadGraph};
use std::alloc::Global;

/// The vertices of some keys, each made where it is not there.
fn key_vertices(
    graph: &mut ReadGraph,
    slots: &mut Vec<Slot>,
    order: &[Option<NodeId>],
    keys: &mut Vec<Option<NodeId>>,
    table: &mut Keys,
    wanted: &[Key],
    sources: &mut Vec<NodeId>,
) -> Result<(), NoMemory>
    requires whole { IsWhole graph.old slots.old.items order.now keys.old.items }
    requires watched { AreWatched (look_up key_eq table.old) slots.old.items }
    requires none { sources.old.items ≡ [] }
    ensures watched { AreWatched (look_up key_eq table.new) slots.new.items }
    ensures whole { IsWhole graph.new slots.new.items order.now keys.new.items }
    ensures same { entries graph.new.edges slots.new.items 0 order.now
        ≡ entries graph.old.edges slots.old.items 0 order.now }
    ensures stays { (q : ℕ) → (slot_at slots.old.items q ≡ Free → ⊥) →
        slot_at slots.new.items q ≡ slot_at slots.old.items q }
    ensures sources { OnOk result
        (sources_of slots.new.items sources.new.items ≡ map_list looked wanted.now) }
    ensures there { AreThere slots.new.items sources.new.items }
{
    for key in wanted {
        let id = key_vertex(graph, slots, order, keys, table, key)?;
        sources.push(id)?;
    }
    Ok(())
}

/// A held node reads some vertices, in order.
fn read_all(
    graph: &mut ReadGraph,
    slots: &[Slot],
    order: &[Option<NodeId>],
    keys: &[Option<NodeId>],
    reader: NodeId,
    sources: &[NodeId],
)
    requires whole { IsWhole graph.old slots.now order.now keys.now }
    requires room { length sources.now ≤ graph.old.spare_edges }
    requires reader { IsNode (slot_at slots.now reader.at) }
    requires there { AreThere slots.now sources.now }
    ensures whole { IsWhole graph.new slots.now order.now keys.now }
    ensures read { entries graph.new.edges slots.now 0 order.now
        ≡ map_list (with_sources reader.at (sources_of slots.now sources.now))
        (entries graph.old.edges slots.now 0 order.now) }
{
    for source in sources {
        read_next(graph, slots, order, keys, reader, *source);
    }
}

/// Puts ids behind others.
fn put_ids(list: &mut Vec<NodeId>, more: &[NodeId]) -> Result<(), NoMemory>
    ensures { OnOk result (list.new.items ≡ list.old.items ++ more.now) }
{
    for id in more {
        list.push(*id)?;
    }
    Ok(())
}

/// The vertices of what a run looked up and asked: of keys, each made where it is not there, and of held nodes.
pub fn vertices_of(
    alloc: Global,
    graph: &mut ReadGraph,
    slots: &mut Vec<Slot>,
    order: &[Option<NodeId>],
    keys: &mut Vec<Option<NodeId>>,
    table: &mut Keys,
    wanted: &[Key],
    asks: &[NodeId],
) -> Result<Vec<NodeId>, NoMemory>
    requires whole { IsWhole graph.old slots.old.items order.now keys.old.items }
    requires watched { AreWatched (look_up key_eq table.old) slots.old.items }
    requires asks { AreNodes slots.old.items asks.now }
    ensures watched { AreWatched (look_up key_eq table.new) slots.new.items }
    ensures whole { IsWhole graph.new slots.new.items order.now keys.new.items }
    ensures same { entries graph.new.edges slots.new.items 0 order.now
        ≡ entries graph.old.edges slots.old.items 0 order.now }
    ensures stays { (q : ℕ) → (slot_at slots.old.items q ≡ Free → ⊥) →
        slot_at slots.new.items q ≡ slot_at slots.old.items q }
    ensures sources { IfOk result
        (λ s. sources_of slots.new.items s.items
        ≡ map_list looked wanted.now ++ map_list asked_id asks.now) }
    ensures there { IfOk result (λ s. AreThere slots.new.items s.items) }
{
    let room = wanted.len().saturating_add(asks.len());
    let mut sources = Vec::with_capacity(alloc, room)?;
    key_vertices(graph, slots, order, keys, table, wanted, &mut sources)?;
    put_ids(&mut sources, asks)?;
    Ok(sources)
}

/// Holds a node that took these from elsewhere.
pub fn hold_with(
    graph: &mut ReadGraph,
    slots: &mut Vec<Slot>,
    order: &mut Vec<Option<NodeId>>,
    keys: &[Option<NodeId>],
    body: Body,
    sources: &[NodeId],
) -> Result<NodeId, NoMemory>
    requires whole { IsWhole graph.old slots.old.items order.old.items keys.now }
    requires there { AreThere slots.old.items sources.now }
    ensures whole { IsWhole graph.new slots.new.items order.new.items keys.now }
    ensures held { IfOk result
        (λ id. entries graph.new.edges slots.new.items 0 order.new.items
        ≡ entries graph.old.edges slots.old.items 0 order.old.items
        ++ record {
          stamp = length order.old.items + 1;
          id = id.at;
          body = body;
          sources = own_key
              body.node ++ sources_of slots.old.items sources.now;
        } ∷ []) }
    ensures node { IfOk result
        (λ id. slot_at slots.new.items id.at
        ≡ Slot_Node (record { body = body; place = length order.old.items })) }
    ensures order { IfOk result (λ id. order.new.items ≡ order.old.items ++ Some id ∷ []) }
    ensures stays { (q : ℕ) → (slot_at slots.old.items q ≡ Free → ⊥) →
        slot_at slots.new.items q ≡ slot_at slots.old.items q }
    ensures last { OnOk result (length order.new.items ≡ length order.old.items + 1) }
    ensures lost { OnErr result
        (entries graph.new.edges slots.new.items 0 order.new.items
        ≡ entries graph.old.edges slots.old.items 0 order.old.items) }
    ensures still { OnErr result (order.new.items ≡ order.old.items) }
{
    let Ok(reads) = u32::try_from(sources.len()) else {
        return Err(NoMemory);
    };
    let id = hold_in(graph, slots, order, keys, body, reads)?;
    read_all(graph, slots.as_slice(), order.as_slice(), keys, id, sources);
    Ok(id)
}
