//! The memo.
ghost use Rattle.std.specs.Prelude.{◌≡◌, option_to_list, ◌++◌, ◌∷◌, [], OnOk, ◌<◌, ◌≤◌, ◌+◌, ◌↔◌, Err, IfOk, IfSome, IfNone, MatchOption, OnErr, length};
ghost use Rattle.mx_memo.specs.declared.refusal.HoldRefusal.TheVariants.{Full};
ghost use Rattle.mx_vertices.specs.Places.{Has};
ghost use Rattle.mx_vertices.specs.Kept.{looked, asked, IsHeld, IsTouched, HasChanged, IsToGo, Sifts};
ghost use Rattle.mx_vertices.specs.Held.{entry_with};
ghost use Rattle.mx_vertices.specs.Reading.{LookedUp, Asked, AreTakers};
ghost use Rattle.mx_vertices.specs.Walks.{AreKeysOf, AreHeldKeys};
ghost use Rattle.mx_invalidation.specs.Stamps.{NoneAfter, IsNextAfter, IsHeldSince, renumbered};
ghost use Rattle.mx_vertices.specs.Found.{HasCome, IsHeldAs, IsHeldWith, IsNew};
ghost use Rattle.mx_memo.specs.Namespaces.{namespace_held};
ghost use Rattle.mx_memo.specs.Memos.{AreHeld, HoldsLast, IsLast, nothing_held, most_held};
ghost use Rattle.mx_memo.specs.Order.{IsInOrder};

use crate::refusal::HoldRefusal;
use mx_edit::key::Key;
use mx_graph::{NoMemory, NodeId, ReadGraph};
use mx_invalidation::drops::{drop_after, drop_changed, drop_one, drop_where};
use mx_invalidation::settle::settle;
use mx_invalidation::stamps::{first_from, place_at};
use mx_invalidation::test_of_key::KeyTest;
use mx_invalidation::test_of_node::NodeTest;
use mx_value::namespace::Namespace;
use mx_value::node::SharedNode;
use mx_vertices::along::Readers;
use mx_vertices::finding::{Table, begin_in, end_as, end_in, node_laws};
use mx_vertices::holding::{hold_with, vertices_of};
use mx_vertices::inputs::find_held;
use mx_vertices::slot::{Body, Slot};
use mx_vertices::standing::Standing;
use mx_vertices::vertices::{body_at, namespace_at};
use mx_vertices::walks::{AllKeys, Asks, HeldKeys, keys_at};
use std::alloc::Global;
use std::collections::HashMap;
use std::iter::Iterator;
use std::marker::Model;

/// The most nodes that are held.
const MOST: u32 = 4_000_000;

/// Held nodes in order of holding, with what their runs read.
#[derive(Drop)]
pub struct Memo {
    alloc: Global,
    graph: ReadGraph,
    slots: Vec<Slot>,
    // The held nodes by their stamps less 1. The place of one that was dropped is free.
    order: Vec<Option<NodeId>>,
    // The keys, each at the place that its slot tells.
    keys: Vec<Option<NodeId>>,
    count: u32,
    // How far nodes have come, and where keys are.
    table: Table,
    // The nodes whose runs have begun.
    begun: Vec<SharedNode>,
}

impl Model for Memo {
    ghost use Rattle.std.specs.Coded.{codes};
    ghost use Rattle.mx_value.specs.contracts.value.Value as value;
    ghost use Rattle.mx_value.specs.contracts.value.Segment as segment;
    ghost use Rattle.mx_memo.specs.Namespaces.{namespace_held};
    ghost use Rattle.mx_memo.specs.Memos.{Memory, memory_of, IsSound};

    ghost Value = { Memory };

    ghost coded = { Prim.hlevel (codes, value.the_row.coded, segment.the_row.coded) };

    ghost view = { memory_of };

    ghost invariant = { IsSound };
}

impl Memo {
    /// A memo that holds nothing.
    pub fn new(alloc: Global) -> Result<Memo, NoMemory>
        ensures { IfOk result (λ m. m ≡ nothing_held) }
    {
        Ok(Memo {
            alloc,
            graph: ReadGraph::new(alloc)?,
            slots: Vec::new(alloc),
            order: Vec::new(alloc),
            keys: Vec::new(alloc),
            count: 0,
            table: Table {
                nodes: HashMap::new(alloc),
                keys: HashMap::new(alloc),
            },
            begun: Vec::new(alloc),
        })
    }

    /// How many nodes are held.
    pub fn count(&self) -> u32
        ensures { result ≡ length self.now.held }
    {
        self.count
    }

    /// The last stamp that was given, 0 where none was.
    pub fn last_stamp(&self) -> usize
        ensures { result ≡ self.now.last }
    {
        self.order.len()
    }

    /// What callers may rely on: ids are apart, and stamps rise to at most the last that was given.
    pub fn in_order(&self)
        ensures { IsInOrder self.now }
    {
        let _ = &self.order;
    }

    /// How far a node has come, in one look: its run has begun, or it is held. None for a new one.
    pub fn standing(&self, node: &SharedNode) -> Option<Standing>
        ensures some { IfSome result
            (λ standing. HasCome self.now.held self.now.begun node.now standing) }
        ensures none { IfNone result
            (IsNew self.now.held node.now × (Has self.now.begun node.now → ⊥)) }
    {
        let Some(standing) = self.table.nodes.get(node) else {
            return None;
        };
        let Standing::Ended(id) = *standing else {
            return Some(Standing::Begun);
        };
        Some(Standing::Ended(id))
    }

    /// The held node that is this one.
    pub fn find(&self, node: &SharedNode) -> Option<NodeId>
        ensures some { IfSome result (λ id. IsHeldAs self.now.held id.at node.now) }
        ensures none { IfNone result (IsNew self.now.held node.now) }
    {
        let Some(standing) = self.table.nodes.get(node) else {
            return None;
        };
        let Standing::Ended(id) = *standing else {
            return None;
        };
        Some(id)
    }

    /// Notes that the run of a node has begun, behind all others that have. After an error the memo is as before.
    pub fn begin(&mut self, node: &SharedNode) -> Result<(), NoMemory>
        requires new { IsNew self.old.held node.now }
        requires once { Has self.old.begun node.now → ⊥ }
        ensures begun { OnOk result
            (self.new ≡ record self.old { begun = self.old.begun ++ node.now ∷ [] }) }
        ensures lost { OnErr result (self.new ≡ self.old) }
    {
        node_laws();
        begin_in(&mut self.table.nodes, &mut self.begun, node)
    }

    /// Notes that the run that began last has ended, and gives its node. None exactly where none has begun. Takes no memory.
    pub fn end_last(&mut self) -> Option<SharedNode>
        ensures held { self.new.held ≡ self.old.held }
        ensures last { self.new.last ≡ self.old.last }
        ensures begun { self.old.begun ≡ self.new.begun ++ option_to_list result }
        ensures none { IfNone result (self.old.begun ≡ []) }
    {
        node_laws();
        end_in(&mut self.table.nodes, &mut self.begun)
    }

    /// What a held node is and gives, and what its run read. None exactly where no node of this id is held.
    pub fn body(&self, id: NodeId) -> Option<&Body>
        ensures { MatchOption result (IsHeld self.now.held id.at → ⊥)
            (λ body. IsHeldWith self.now.held id.at body.now) }
    {
        body_at(&self.slots, id)
    }

    /// The namespace of the space of an item node, where it is held. Takes no memory.
    pub fn namespace_of(&self, node: &SharedNode) -> Option<&Namespace>
        ensures { MatchOption result (namespace_held self.now.held node.now ≡ None)
            (λ n. namespace_held self.now.held node.now ≡ Some n.now) }
    {
        node_laws();
        let Some(id) = find_held(&self.slots, &self.table.nodes, node) else {
            return None;
        };
        namespace_at(&self.slots, id)
    }

    /// The stamp of a held node: its place in the order of holding, from 1. None exactly where no node of this id is held.
    pub fn stamp(&self, id: NodeId) -> Option<usize>
        ensures { MatchOption result (IsHeld self.now.held id.at → ⊥)
            (λ stamp. IsHeldSince self.now.held id.at stamp) }
    {
        let Some(place) = place_at(&self.slots, id) else {
            return None;
        };
        let is_below = place < self.order.len();
        prove!(is_below);
        Some(place + 1)
    }

    /// The keys that a held node was held with, in order: those that its run looked up, but for that of its own input, which a
    /// static node looks up first. Takes no memory.
    pub fn keys(&self, id: NodeId) -> HeldKeys<'_>
        requires { IsHeld self.now.held id.at }
        ensures { AreKeysOf self.now.held id.at result }
    {
        HeldKeys::of(&self.graph, &self.slots, id)
    }

    /// A copy of the keys that the run of a held node looked up, in order of first occurrence: that of its own input first, where
    /// the node is static, and then those that it was held with.
    pub fn keys_of(&self, alloc: Global, id: NodeId) -> Result<Vec<Key>, NoMemory>
        requires { IsHeld self.now.held id.at }
        ensures { IfOk result (λ keys. LookedUp self.now.held id.at keys.items) }
    {
        keys_at(alloc, &self.graph, &self.slots, id)
    }

    /// The held nodes that the run of a held node asked, each once and in order of first occurrence. Takes no memory.
    pub fn asks(&self, id: NodeId) -> Asks<'_>
        requires { IsHeld self.now.held id.at }
        ensures { Asked self.now.held id.at result }
    {
        Asks::of(&self.graph, &self.slots, id)
    }

    /// A copy of what `asks` gives.
    pub fn asks_of(&self, alloc: Global, id: NodeId) -> Result<Vec<NodeId>, NoMemory>
        requires { IsHeld self.now.held id.at }
        ensures { IfOk result (λ ids. Asked self.now.held id.at ids.items) }
    {
        Ok(self.asks(id).collect(alloc)?)
    }

    /// The held nodes whose runs looked a key up. Where the key is that of an input, the input's own node is among them. Takes no
    /// memory.
    pub fn readers(&self, key: &Key) -> Readers<'_>
        ensures { AreTakers self.now.held (looked key.now) result }
    {
        self.graph.relation();
        Readers::of_key(&self.graph, &self.slots, &self.table, key)
    }

    /// A copy of what `readers` gives.
    pub fn readers_of(&self, alloc: Global, key: &Key) -> Result<Vec<NodeId>, NoMemory>
        ensures { IfOk result (λ ids. AreTakers self.now.held (looked key.now) ids.items) }
    {
        Ok(self.readers(key).collect(alloc)?)
    }

    /// The held nodes whose runs asked a held node. Takes no memory.
    pub fn askers(&self, id: NodeId) -> Readers<'_>
        requires { IsHeld self.now.held id.at }
        ensures { AreTakers self.now.held (asked id.at) result }
    {
        self.graph.relation();
        Readers::of(&self.graph, id)
    }

    /// A copy of what `askers` gives.
    pub fn askers_of(&self, alloc: Global, id: NodeId) -> Result<Vec<NodeId>, NoMemory>
        requires { IsHeld self.now.held id.at }
        ensures { IfOk result (λ ids. AreTakers self.now.held (asked id.at) ids.items) }
    {
        Ok(self.askers(id).collect(alloc)?)
    }

    /// The keys that held nodes were held with, each once. Takes no memory.
    pub fn all_keys(&self) -> AllKeys<'_>
        ensures { AreHeldKeys self.now.held result }
    {
        self.graph.relation();
        AllKeys::of(&self.graph, &self.slots, &self.keys)
    }

    /// The held node of the least stamp above this one. None exactly where there is none.
    pub fn after(&self, stamp: usize) -> Option<NodeId>
        ensures { MatchOption result (NoneAfter self.now.held stamp)
            (λ id. IsNextAfter self.now.held stamp id.at) }
    {
        first_from(&self.order, stamp)
    }

    /// Gives the held nodes, in their order, the stamps from 1 without a gap. Takes no memory.
    pub fn renumber(&mut self)
        ensures held { self.new.held ≡ renumbered 0 self.old.held }
        ensures last { self.new.last ≡ length self.old.held }
        ensures begun { self.new.begun ≡ self.old.begun }
    {
        settle(&mut self.slots, &mut self.order);
    }

    /// Holds the node whose run began last behind all others, with the keys that its run looked up and the held nodes that it
    /// asked, each once and in order of first occurrence. The key of its own input, which a static node looks up first, is not
    /// given: it is seen among its keys all the same. Its run has ended with that. `Full` comes exactly where as many are held
    /// as may be. After an error the memo is as before.
    pub fn hold(&mut self, body: Body, keys: &[Key], asks: &[NodeId]) -> Result<NodeId, HoldRefusal>
        requires new { IsNew self.old.held body.node }
        requires last { IsLast self.old.begun body.node }
        requires asks { AreHeld self.old.held asks.now }
        ensures held { IfOk result
            (λ id. HoldsLast (record self.old { begun = self.new.begun }) self.new
            (entry_with (self.old.last + 1) id.at body keys.now asks.now)) }
        ensures ended { OnOk result (self.old.begun ≡ self.new.begun ++ body.node ∷ []) }
        ensures full { (result ≡ Err Full) ↔ (most_held ≤ length self.old.held) }
        ensures lost { OnErr result (self.new ≡ self.old) }
    {
        if self.count >= MOST {
            return Err(HoldRefusal::Full);
        }
        node_laws();
        let found = vertices_of(
            self.alloc,
            &mut self.graph,
            &mut self.slots,
            &self.order,
            &mut self.keys,
            &mut self.table.keys,
            keys,
            asks,
        );
        let Ok(sources) = found else {
            return Err(HoldRefusal::NoMemory);
        };
        let held = hold_with(
            &mut self.graph,
            &mut self.slots,
            &mut self.order,
            &self.keys,
            body,
            &sources,
        );
        let Ok(id) = held else {
            return Err(HoldRefusal::NoMemory);
        };
        self.count += 1;
        let Some(_ended) = end_as(&mut self.table.nodes, &mut self.begun, id) else {
            unreachable!()
        };
        Ok(id)
    }

    /// Drops the nodes that were held after a stamp, and all that reach them.
    pub fn roll_back_to(&mut self, stamp: usize)
        ensures drops { Sifts (IsTouched
            (λ r. stamp < r.stamp) self.old.held) self.old.held self.new.held }
        ensures last { self.new.last ≡ self.old.last }
        ensures begun { self.new.begun ≡ self.old.begun }
    {
        drop_after(
            &mut self.graph,
            &mut self.slots,
            &mut self.order,
            &mut self.keys,
            &mut self.count,
            &mut self.table,
            stamp,
        );
    }

    /// Keeps exactly the nodes that neither looked a changed key up, the key of their own input among them, nor reach one
    /// that did, and tells how many are dropped.
    pub fn keep_unchanged<T: KeyTest>(&mut self, test: &T) -> u32
        ensures drops { Sifts (IsTouched
            (HasChanged (T.changed test.now)) self.old.held) self.old.held self.new.held }
        ensures count { result + length self.new.held ≡ length self.old.held }
        ensures last { self.new.last ≡ self.old.last }
        ensures begun { self.new.begun ≡ self.old.begun }
    {
        let before = self.count;
        drop_changed(
            &mut self.graph,
            &mut self.slots,
            &mut self.order,
            &mut self.keys,
            &mut self.count,
            &mut self.table,
            test,
        );
        before - self.count
    }

    /// Drops a held node, with all that reach it, and tells how many are dropped. It costs what is dropped.
    pub fn drop_node(&mut self, from: NodeId) -> u32
        requires { IsHeld self.old.held from.at }
        ensures drops { Sifts (IsTouched
            (λ r. r.id ≡ from.at) self.old.held) self.old.held self.new.held }
        ensures count { result + length self.new.held ≡ length self.old.held }
        ensures last { self.new.last ≡ self.old.last }
        ensures begun { self.new.begun ≡ self.old.begun }
    {
        let before = self.count;
        drop_one(
            &mut self.graph,
            &mut self.slots,
            &mut self.order,
            &mut self.keys,
            &mut self.count,
            &mut self.table,
            from,
        );
        before - self.count
    }

    /// Drops the held nodes that are to go, with all that reach one of them, and tells how many are dropped.
    pub fn drop_where<T: NodeTest>(&mut self, test: &T) -> u32
        ensures drops { Sifts (IsTouched
            (IsToGo (T.goes test.now)) self.old.held) self.old.held self.new.held }
        ensures count { result + length self.new.held ≡ length self.old.held }
        ensures last { self.new.last ≡ self.old.last }
        ensures begun { self.new.begun ≡ self.old.begun }
    {
        let before = self.count;
        drop_where(
            &mut self.graph,
            &mut self.slots,
            &mut self.order,
            &mut self.keys,
            &mut self.count,
            &mut self.table,
            test,
        );
        before - self.count
    }
}
