//! Walks along the edges of a vertex. They take no memory.
ghost use Rattle.std.specs.Prelude.{◌≡◌, ◌++◌, option_to_list, None, IfSome, map};
ghost use Rattle.std.specs.Iterator.{YieldsFirst, item_count};
ghost use Rattle.std.specs.HashMap.{get as look_up};
ghost use Rattle.mx_edit.specs.Equality.{key_eq};
ghost use Rattle.mx_value.specs.Equality.{node_eq};
ghost use Rattle.mx_graph.specs.Relation.{IsLive};
ghost use Rattle.mx_vertices.specs.Found.{AreWatched, LeadsTo};
ghost use Rattle.mx_vertices.specs.Live.{AreKeysLive};
ghost use Rattle.mx_vertices.specs.Reading.{reads_in, readers_in};
ghost use Rattle.mx_vertices.specs.Walks.{AreAllReaders};

use crate::finding::Table;
use crate::inputs::node_of_input;
use crate::slot::Slot;
use crate::vertices::find_key;
use mx_edit::key::Key;
use mx_graph::{EdgeId, NodeId, ReadGraph};
use std::iter::Iterator;
use std::marker::Model;

/// The vertices that a vertex reads, in order. Contracts see those that are still to come.
#[derive(Drop)]
pub struct VerticesRead<'a> {
    graph: &'a ReadGraph,
    next: Option<EdgeId>,
}

impl<'a> Model for VerticesRead<'a> {
    ghost use Rattle.std.specs.Prelude.{List, IfSome, map};
    ghost use Rattle.mx_graph.specs.declared.ids.NodeId.{NodeId};
    ghost use Rattle.mx_graph.specs.Relation.{IsEdge};
    ghost use Rattle.mx_vertices.specs.Reading.{entry_read, entry_reader};
    ghost use Rattle.mx_vertices.specs.Walks.{still};

    ghost Value = { List NodeId };

    ghost view = { λ w. map entry_read (still entry_reader w.next w.graph.now.edges) };

    ghost invariant = { λ w. IfSome w.next (IsEdge w.graph.now) };
}

impl<'a> VerticesRead<'a> {
    pub fn of(graph: &'a ReadGraph, id: NodeId) -> VerticesRead<'a>
        requires { IsLive graph.now id }
        ensures { result ≡ reads_in id graph.now.edges }
    {
        VerticesRead {
            graph,
            next: graph.first_read(id),
        }
    }
}

impl<'a> Iterator for VerticesRead<'a> {
    type Item = NodeId;

    ghost next_gives = { YieldsFirst (λ s. s) };

    ghost remaining = { item_count (λ s. s) };

    fn next(&mut self) -> Option<NodeId> {
        let Some(edge) = self.next else {
            return None;
        };
        self.graph.relation();
        let read = self.graph.read_of(edge);
        self.next = self.graph.next_read(edge);
        Some(read)
    }
}

/// The vertices that read a vertex, in order, and maybe one more node behind them. Contracts see those that are still to come.
#[derive(Drop)]
pub struct Readers<'a> {
    graph: &'a ReadGraph,
    next: Option<EdgeId>,
    last: Option<NodeId>,
}

impl<'a> Model for Readers<'a> {
    ghost use Rattle.std.specs.Prelude.{List, IfSome, map, ◌++◌, option_to_list};
    ghost use Rattle.mx_graph.specs.declared.ids.NodeId.{NodeId};
    ghost use Rattle.mx_graph.specs.Relation.{IsEdge};
    ghost use Rattle.mx_vertices.specs.Reading.{entry_read, entry_reader};
    ghost use Rattle.mx_vertices.specs.Walks.{still};

    ghost Value = { List NodeId };

    ghost view = { λ w. map entry_reader (still entry_read w.next w.graph.now.edges) ++ option_to_list w.last };

    ghost invariant = { λ w. IfSome w.next (IsEdge w.graph.now) };
}

impl<'a> Readers<'a> {
    /// The vertices that read a vertex.
    pub fn of(graph: &'a ReadGraph, id: NodeId) -> Readers<'a>
        requires { IsLive graph.now id }
        ensures { result ≡ readers_in id graph.now.edges }
    {
        Readers {
            graph,
            next: graph.first_reader(id),
            last: None,
        }
    }

    /// The vertices that read the vertex of a key, none where it has no vertex, and then the held static node whose own input
    /// the key is.
    pub fn of_key(graph: &'a ReadGraph, slots: &[Slot], table: &Table, key: &Key) -> Readers<'a>
        requires live { AreKeysLive graph.now.nodes slots.now }
        requires watched { AreWatched (look_up key_eq table.now.keys) slots.now }
        requires found { LeadsTo (look_up node_eq table.now.nodes) slots.now }
        ensures { AreAllReaders slots.now graph.now.edges key.now result }
    {
        let last = node_of_input(slots, &table.nodes, key);
        let next = match find_key(slots, &table.keys, key) {
            Some(id) => graph.first_reader(id),
            None => None,
        };
        Readers { graph, next, last }
    }
}

impl<'a> Iterator for Readers<'a> {
    type Item = NodeId;

    ghost next_gives = { YieldsFirst (λ s. s) };

    ghost remaining = { item_count (λ s. s) };

    fn next(&mut self) -> Option<NodeId> {
        let Some(edge) = self.next else {
            return self.last.take();
        };
        self.graph.relation();
        let reader = self.graph.reader_of(edge);
        self.next = self.graph.next_reader(edge);
        Some(reader)
    }
}
