//! Walks over what held nodes looked up and asked. They take no memory.
ghost use Rattle.std.specs.Prelude.{◌≡◌, ◌++◌, ◌∷◌, [], IfOk, IfSome, MatchOption, map as map_list};
ghost use Rattle.std.specs.Iterator.{YieldsFirst, YieldsFirstRef, item_count};
ghost use Rattle.mx_graph.specs.Relation.{IsLive};
ghost use Rattle.mx_vertices.specs.declared.slot.Slot.TheVariants.{Watch as Slot_Watch};
ghost use Rattle.mx_vertices.specs.declared.slot.Watched.{Watched};
ghost use Rattle.mx_vertices.specs.Places.{slot_at};
ghost use Rattle.mx_vertices.specs.Held.{sources_of};
ghost use Rattle.mx_vertices.specs.Found.{node_at};
ghost use Rattle.mx_vertices.specs.Kept.{own_key, sources_at};
ghost use Rattle.mx_vertices.specs.Live.{AreLive};
ghost use Rattle.mx_vertices.specs.Reading.{keys_in, asks_in, id_at};
ghost use Rattle.mx_vertices.specs.Walks.{asks_among, keys_read};

use crate::along::VerticesRead;
use crate::inputs::own_keys;
use crate::slot::{Slot, Watched};
use mx_edit::key::Key;
use mx_graph::{NoMemory, NodeId, ReadGraph};
use std::alloc::Global;
use std::iter::Iterator;
use std::marker::Model;

/// The held nodes that the run of a held node asked, in order. Contracts see those that are still to come.
#[derive(Drop)]
pub struct Asks<'a> {
    vertices: VerticesRead<'a>,
    slots: &'a [Slot],
}

impl<'a> Model for Asks<'a> {
    ghost use Rattle.std.specs.Prelude.{List};
    ghost use Rattle.mx_graph.specs.declared.ids.NodeId.{NodeId};
    ghost use Rattle.mx_vertices.specs.Walks.{asks_among};

    ghost Value = { List NodeId };

    ghost view = { λ w. asks_among w.slots.now w.vertices };
}

impl<'a> Asks<'a> {
    pub fn of(graph: &'a ReadGraph, slots: &'a [Slot], id: NodeId) -> Asks<'a>
        requires { IsLive graph.now id }
        ensures { map_list id_at result ≡ asks_in (sources_at slots.now id.at graph.now.edges) }
    {
        Asks {
            vertices: VerticesRead::of(graph, id),
            slots,
        }
    }
}

impl<'a> Iterator for Asks<'a> {
    type Item = NodeId;

    ghost next_gives = { YieldsFirst (λ s. s) };

    ghost remaining = { item_count (λ s. s) };

    fn next(&mut self) -> Option<NodeId> {
        next_ask(&mut self.vertices, self.slots)
    }
}

/// The keys that a held node was held with, in order. Contracts see those that are still to come.
#[derive(Drop)]
pub struct HeldKeys<'a> {
    vertices: VerticesRead<'a>,
    slots: &'a [Slot],
}

impl<'a> Model for HeldKeys<'a> {
    ghost use Rattle.std.specs.Prelude.{List};
    ghost use Rattle.std.specs.Coded.{codes};
    ghost use Rattle.mx_value.specs.contracts.value.Value as value;
    ghost use Rattle.mx_value.specs.contracts.value.Segment as segment;
    ghost use Rattle.mx_edit.specs.declared.key.Key.{Key};
    ghost use Rattle.mx_vertices.specs.Held.{sources_of};
    ghost use Rattle.mx_vertices.specs.Reading.{keys_in};

    ghost Value = { List Key };

    ghost coded = { Prim.hlevel (codes, value.the_row.coded, segment.the_row.coded) };

    ghost view = { λ w. keys_in (sources_of w.slots.now w.vertices) };
}

impl<'a> HeldKeys<'a> {
    pub fn of(graph: &'a ReadGraph, slots: &'a [Slot], id: NodeId) -> HeldKeys<'a>
        requires { IsLive graph.now id }
        ensures { result ≡ keys_in (sources_at slots.now id.at graph.now.edges) }
    {
        HeldKeys {
            vertices: VerticesRead::of(graph, id),
            slots,
        }
    }
}

impl<'a> Iterator for HeldKeys<'a> {
    type Item = &'a Key;

    ghost next_gives = { YieldsFirstRef (λ s. s) };

    ghost remaining = { item_count (λ s. s) };

    fn next(&mut self) -> Option<&'a Key> {
        next_key(&mut self.vertices, self.slots)
    }
}

/// The keys that some held node was held with, each once. Contracts see those that are still to come.
#[derive(Drop)]
pub struct AllKeys<'a> {
    graph: &'a ReadGraph,
    slots: &'a [Slot],
    keys: &'a [Option<NodeId>],
}

impl<'a> Model for AllKeys<'a> {
    ghost use Rattle.std.specs.Prelude.{List};
    ghost use Rattle.std.specs.Coded.{codes};
    ghost use Rattle.mx_value.specs.contracts.value.Value as value;
    ghost use Rattle.mx_value.specs.contracts.value.Segment as segment;
    ghost use Rattle.mx_edit.specs.declared.key.Key.{Key};
    ghost use Rattle.mx_vertices.specs.Live.{AreLive};
    ghost use Rattle.mx_vertices.specs.Walks.{keys_read};

    ghost Value = { List Key };

    ghost coded = { Prim.hlevel (codes, value.the_row.coded, segment.the_row.coded) };

    ghost view = { λ w. keys_read w.graph.now.edges w.slots.now w.keys.now };

    ghost invariant = { λ w. AreLive w.graph.now.nodes w.keys.now };
}

impl<'a> AllKeys<'a> {
    pub fn of(graph: &'a ReadGraph, slots: &'a [Slot], keys: &'a [Option<NodeId>]) -> AllKeys<'a>
        requires { AreLive graph.now.nodes keys.now }
        ensures { result ≡ keys_read graph.now.edges slots.now keys.now }
    {
        AllKeys { graph, slots, keys }
    }
}

impl<'a> Iterator for AllKeys<'a> {
    type Item = &'a Key;

    ghost next_gives = { YieldsFirstRef (λ s. s) };

    ghost remaining = { item_count (λ s. s) };

    fn next(&mut self) -> Option<&'a Key> {
        'places: while let [place, rest @ ..] = self.keys {
            self.keys = rest;
            if let Some(key) = key_read(self.graph, self.slots, *place) {
                return Some(key);
            }
        }
        None
    }
}

/// The key that a vertex is, with its place, where it is one.
fn watched_at(slots: &[Slot], id: NodeId) -> Option<&Watched>
    ensures { MatchOption result ((w : Watched) → slot_at slots.now id.at ≡ Slot_Watch w → ⊥)
        (λ w. slot_at slots.now id.at ≡ Slot_Watch w.now) }
{
    match slots.get(id.index()) {
        Some(Slot::Watch(watched)) => Some(watched),
        _ => None,
    }
}

/// The next of these vertices that is no key.
fn next_ask(vertices: &mut VerticesRead<'_>, slots: &[Slot]) -> Option<NodeId>
    ensures { YieldsFirst (asks_among slots.now) vertices.old result vertices.new }
{
    'keys: while let Some(id) = vertices.next() {
        if watched_at(slots, id).is_none() {
            return Some(id);
        }
    }
    None
}

/// The next of these vertices that is a key.
fn next_key<'a>(vertices: &mut VerticesRead<'_>, slots: &'a [Slot]) -> Option<&'a Key>
    ensures { YieldsFirstRef
        (λ ids. keys_in (sources_of slots.now ids)) vertices.old result vertices.new }
{
    'nodes: while let Some(id) = vertices.next() {
        if let Some(watched) = watched_at(slots, id) {
            return Some(&watched.key);
        }
    }
    None
}

/// The key that stands in a place, where some vertex reads it.
fn key_read<'a>(graph: &ReadGraph, slots: &'a [Slot], place: Option<NodeId>) -> Option<&'a Key>
    requires { IfSome place (IsLive graph.now) }
    ensures { MatchOption result (keys_read graph.now.edges slots.now (place ∷ []) ≡ [])
        (λ key. keys_read graph.now.edges slots.now (place ∷ []) ≡ key.now ∷ []) }
{
    let id = place?;
    let watched = watched_at(slots, id)?;
    graph.first_reader(id)?;
    Some(&watched.key)
}

/// A copy of the keys that a held node looked up, in order: that of its own input, where it is static, then those that it was
/// held with.
pub fn keys_at(
    alloc: Global,
    graph: &ReadGraph,
    slots: &[Slot],
    id: NodeId,
) -> Result<Vec<Key>, NoMemory>
    requires { IsLive graph.now id }
    ensures { IfOk result
        (λ keys. keys.items
        ≡ keys_in (own_key (node_at slots.now id.at)) ++ keys_in
        (sources_at slots.now id.at graph.now.edges)) }
{
    let mut keys = own_keys(alloc, slots, id)?;
    for key in HeldKeys::of(graph, slots, id) {
        keys.push(key.copy()?)?;
    }
    Ok(keys)
}
