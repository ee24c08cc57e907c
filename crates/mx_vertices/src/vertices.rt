//! Vertices: held nodes, and the keys that they look up.
ghost use Rattle.std.specs.Prelude.{◌≡◌, ◌<◌, ◌≤◌, ◌+◌, ◌++◌, ◌∷◌, ◌==◌, [], ℕ, Some, None, IfSome, IfNone, MatchOption, true, false, length, IfOk, OnOk, OnErr, if◌then◌else◌, slice_set, map as map_list};
ghost use Rattle.std.specs.FinMap as map;
ghost use Rattle.mx_vertices.specs.declared.slot.Slot.TheVariants.{Free, Node as Slot_Node, Watch as Slot_Watch};
ghost use Rattle.mx_vertices.specs.Places.{slot_at, at};
ghost use Rattle.mx_vertices.specs.Found.{AreWatched, IsBodyAt};
ghost use Rattle.std.specs.HashMap.{get as look_up};
ghost use Rattle.mx_edit.specs.Equality.{key_eq};
ghost use Rattle.mx_vertices.specs.Kept.{body_of, IsWhole, IsKeyAt, IsNode, with_read, own_key, source_in, entries};

use crate::finding::{Keys, key_laws};
use crate::slot::{Body, Held, Slot, Watched};
use mx_edit::equality::equality_laws;
use mx_edit::key::Key;
use mx_graph::{NoMemory, NodeId, ReadGraph};
use mx_value::namespace::Namespace;

/// One slot more.
fn push_free(slots: &mut Vec<Slot>) -> Result<(), NoMemory>
    ensures same { (q : ℕ) → slot_at slots.new.items q ≡ slot_at slots.old.items q }
    ensures more { OnOk result (length slots.new.items ≡ length slots.old.items + 1) }
{
    slots.push(Slot::Free)?;
    Ok(())
}

/// One place more.
fn push_none(order: &mut Vec<Option<NodeId>>) -> Result<(), NoMemory>
    ensures ok { OnOk result (order.new.items ≡ order.old.items ++ None ∷ []) }
    ensures err { OnErr result (order.new.items ≡ order.old.items) }
{
    order.push(None)?;
    Ok(())
}

/// Makes room in the slots for each index below the bound.
fn grow(slots: &mut Vec<Slot>, bound: usize) -> Result<(), NoMemory>
    ensures same { (q : ℕ) → slot_at slots.new.items q ≡ slot_at slots.old.items q }
    ensures room { OnOk result (bound ≤ length slots.new.items) }
{
    let first = slots.len();
    if first >= bound {
        return Ok(());
    }
    for _at in first..bound {
        push_free(slots)?;
    }
    Ok(())
}

/// Puts a new vertex, for a held node, at the last place, which is free.
fn put_node(
    graph: &mut ReadGraph,
    slots: &mut Vec<Slot>,
    order: &mut Vec<Option<NodeId>>,
    body: Body,
    place: usize,
) -> NodeId
    requires spare { 0 < graph.old.spare_nodes }
    requires slots { map.len graph.old.nodes + graph.old.spare_nodes ≤ length slots.old.items }
    requires place { place < length order.old.items }
    ensures fresh { map.get graph.old.nodes result.at ≡ None }
    ensures nodes { graph.new.nodes ≡ map.insert graph.old.nodes result.at false }
    ensures edges { graph.new.edges ≡ graph.old.edges }
    ensures room { graph.new.spare_edges ≡ graph.old.spare_edges }
    ensures slots { (q : ℕ) →
        slot_at slots.new.items q
        ≡ (if result.at == q then Slot_Node
        (record { body = body; place = place }) else slot_at slots.old.items q) }
    ensures order { order.new.items ≡ slice_set order.old.items place (Some result) }
{
    let id = graph.add_node();
    slots[id.index()] = Slot::Node(Held { body, place });
    order[place] = Some(id);
    id
}

/// Holds a node that has read nothing yet.
pub fn hold_in(
    graph: &mut ReadGraph,
    slots: &mut Vec<Slot>,
    order: &mut Vec<Option<NodeId>>,
    keys: &[Option<NodeId>],
    body: Body,
    reads: u32,
) -> Result<NodeId, NoMemory>
    requires { IsWhole graph.old slots.old.items order.old.items keys.now }
    ensures whole { IsWhole graph.new slots.new.items order.new.items keys.now }
    ensures held { IfOk result
        (λ id. entries graph.new.edges slots.new.items 0 order.new.items
        ≡ entries graph.old.edges slots.old.items 0 order.old.items
        ++ record {
          stamp = length order.old.items + 1;
          id = id.at;
          body = body;
          sources = own_key
              body.node;
        } ∷ []) }
    ensures node { IfOk result
        (λ id. slot_at slots.new.items id.at
        ≡ Slot_Node (record { body = body; place = length order.old.items })) }
    ensures stays { (q : ℕ) → (slot_at slots.old.items q ≡ Free → ⊥) →
        slot_at slots.new.items q ≡ slot_at slots.old.items q }
    ensures room { OnOk result (reads ≤ graph.new.spare_edges) }
    ensures order { IfOk result (λ id. order.new.items ≡ order.old.items ++ Some id ∷ []) }
    ensures last { OnOk result (length order.new.items ≡ length order.old.items + 1) }
    ensures still { OnErr result (order.new.items ≡ order.old.items) }
    ensures lost { OnErr result
        (entries graph.new.edges slots.new.items 0 order.new.items
        ≡ entries graph.old.edges slots.old.items 0 order.old.items) }
{
    graph.relation();
    let place = order.len();
    graph.reserve(1, reads)?;
    let bound = graph.id_bound();
    grow(slots, bound)?;
    push_none(order)?;
    let id = put_node(graph, slots, order, body, place);
    Ok(id)
}

/// A held node reads a vertex, behind all that it has read.
pub fn read_next(
    graph: &mut ReadGraph,
    slots: &[Slot],
    order: &[Option<NodeId>],
    keys: &[Option<NodeId>],
    reader: NodeId,
    read: NodeId,
)
    requires whole { IsWhole graph.old slots.now order.now keys.now }
    requires spare { 0 < graph.old.spare_edges }
    requires reader { IsNode (slot_at slots.now reader.at) }
    requires read { slot_at slots.now read.at ≡ Free → ⊥ }
    ensures whole { IsWhole graph.new slots.now order.now keys.now }
    ensures spare { graph.new.spare_edges + 1 ≡ graph.old.spare_edges }
    ensures read { entries graph.new.edges slots.now 0 order.now
        ≡ map_list (with_read reader.at (source_in read.at (slot_at slots.now read.at)))
        (entries graph.old.edges slots.now 0 order.now) }
{
    graph.relation();
    graph.add_edge(reader, read);
    graph.relation();
}

/// What a held node is.
pub fn body_at(slots: &[Slot], id: NodeId) -> Option<&Body>
    ensures { MatchOption result (IsNode (slot_at slots.now id.at) → ⊥)
        (λ body. IsBodyAt slots.now id.at body.now) }
{
    let Some(slot) = slots.get(id.index()) else {
        return None;
    };
    match slot {
        Slot::Node(held) => Some(&held.body),
        Slot::Watch(_) => None,
        Slot::Free => None,
    }
}

/// The namespace that a held node gives, where it gives one.
pub fn namespace_at(slots: &[Slot], id: NodeId) -> Option<&Namespace>
    ensures { MatchOption result ((body_of (slot_at slots.now id.at)).reply.namespace ≡ None)
        (λ n. (body_of (slot_at slots.now id.at)).reply.namespace ≡ Some n.now) }
{
    let Some(slot) = slots.get(id.index()) else {
        return None;
    };
    let Slot::Node(held) = slot else {
        return None;
    };
    match &held.body.reply.get().namespace {
        None => None,
        Some(namespace) => Some(namespace),
    }
}

/// The vertex of a key, where it is there.
pub fn find_key(slots: &[Slot], table: &Keys, key: &Key) -> Option<NodeId>
    requires { AreWatched (look_up key_eq table.now) slots.now }
    ensures some { IfSome result (λ id. IsKeyAt slots.now id.at key.now) }
    ensures none { IfNone result ((q : ℕ) → IsKeyAt slots.now q key.now → ⊥) }
{
    let Some(entered) = table.get(key) else {
        return None;
    };
    let id = *entered;
    if is_key(slots, id, key) {
        return Some(id);
    }
    None
}

/// Whether two keys are the same.
fn is_same(a: &Key, b: &Key) -> bool
    ensures yes { result ≡ true → a.now ≡ b.now }
    ensures no { a.now ≡ b.now → result ≡ true }
{
    equality_laws();
    *a == *b
}

/// Whether this is the vertex of a key.
fn is_key(slots: &[Slot], id: NodeId, key: &Key) -> bool
    ensures yes { result ≡ true → IsKeyAt slots.now id.at key.now }
    ensures no { IsKeyAt slots.now id.at key.now → result ≡ true }
{
    let Some(slot) = slots.get(id.index()) else {
        return false;
    };
    match slot {
        Slot::Watch(watched) => is_same(&watched.key, key),
        Slot::Node(_) => false,
        Slot::Free => false,
    }
}

/// Puts a new vertex, for a key, at the last place, which is free.
fn put_key(
    graph: &mut ReadGraph,
    slots: &mut Vec<Slot>,
    keys: &mut Vec<Option<NodeId>>,
    key: Key,
    place: usize,
) -> NodeId
    requires spare { 0 < graph.old.spare_nodes }
    requires slots { map.len graph.old.nodes + graph.old.spare_nodes ≤ length slots.old.items }
    requires place { place < length keys.old.items }
    ensures fresh { map.get graph.old.nodes result.at ≡ None }
    ensures nodes { graph.new.nodes ≡ map.insert graph.old.nodes result.at false }
    ensures edges { graph.new.edges ≡ graph.old.edges }
    ensures room { graph.new.spare_edges ≡ graph.old.spare_edges }
    ensures slots { (q : ℕ) →
        slot_at slots.new.items q
        ≡ (if result.at == q then Slot_Watch
        (record { key = key; place = place }) else slot_at slots.old.items q) }
    ensures keys { keys.new.items ≡ slice_set keys.old.items place (Some result) }
{
    let id = graph.add_node();
    slots[id.index()] = Slot::Watch(Watched { key, place });
    keys[place] = Some(id);
    id
}

/// Makes a vertex for a key that has none.
fn new_key(
    graph: &mut ReadGraph,
    slots: &mut Vec<Slot>,
    order: &[Option<NodeId>],
    keys: &mut Vec<Option<NodeId>>,
    key: Key,
) -> Result<NodeId, NoMemory>
    requires whole { IsWhole graph.old slots.old.items order.now keys.old.items }
    requires new { (q : ℕ) → IsKeyAt slots.old.items q key → ⊥ }
    ensures whole { IsWhole graph.new slots.new.items order.now keys.new.items }
    ensures same { entries graph.new.edges slots.new.items 0 order.now
        ≡ entries graph.old.edges slots.old.items 0 order.now }
    ensures stays { (q : ℕ) → (slot_at slots.old.items q ≡ Free → ⊥) →
        slot_at slots.new.items q ≡ slot_at slots.old.items q }
    ensures key { IfOk result (λ id. IsKeyAt slots.new.items id.at key) }
    ensures others { IfOk result
        (λ id. (q : ℕ) → (id.at ≡ q → ⊥) → slot_at slots.new.items q ≡ slot_at slots.old.items q) }
    ensures lost { OnErr result ((q : ℕ) → slot_at slots.new.items q ≡ slot_at slots.old.items q) }
{
    graph.relation();
    let place = keys.len();
    graph.reserve(1, 0)?;
    let bound = graph.id_bound();
    grow(slots, bound)?;
    push_none(keys)?;
    let id = put_key(graph, slots, keys, key, place);
    Ok(id)
}

/// The vertex of a key, which is made where it is not there.
pub fn key_vertex(
    graph: &mut ReadGraph,
    slots: &mut Vec<Slot>,
    order: &[Option<NodeId>],
    keys: &mut Vec<Option<NodeId>>,
    table: &mut Keys,
    key: &Key,
) -> Result<NodeId, NoMemory>
    requires whole { IsWhole graph.old slots.old.items order.now keys.old.items }
    requires watched { AreWatched (look_up key_eq table.old) slots.old.items }
    ensures whole { IsWhole graph.new slots.new.items order.now keys.new.items }
    ensures watched { AreWatched (look_up key_eq table.new) slots.new.items }
    ensures same { entries graph.new.edges slots.new.items 0 order.now
        ≡ entries graph.old.edges slots.old.items 0 order.now }
    ensures stays { (q : ℕ) → (slot_at slots.old.items q ≡ Free → ⊥) →
        slot_at slots.new.items q ≡ slot_at slots.old.items q }
    ensures key { IfOk result (λ id. IsKeyAt slots.new.items id.at key.now) }
{
    if let Some(id) = find_key(slots.as_slice(), table, key) {
        return Ok(id);
    }
    key_laws();
    let looked = key.copy()?;
    let entered = key.copy()?;
    table.reserve(1)?;
    let id = new_key(graph, slots, order, keys, looked)?;
    let _ = table.insert(entered, id);
    Ok(id)
}
