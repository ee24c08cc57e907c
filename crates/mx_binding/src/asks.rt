//! The held nodes that a run asked.
ghost use Rattle.std.specs.Prelude.{◌≡◌, ◌==◌, [], IfSome, IfOk, OnOk, map, nat_eq};
ghost use Rattle.std.specs.List.{list_any};
ghost use Rattle.indexmap.specs.IndexSet.{insert_all};
ghost use Rattle.mx_vertices.specs.Reading.{id_at};
ghost use Rattle.mx_binding.specs.Asking.{with_ask, AreOnce};

use indexmap::IndexSet;
use mx_graph::NodeId;
use std::alloc::{AllocError, Global};
use std::marker::Model;

/// So many ids are looked through. More are found by hash.
const FEW: usize = 32;

/// Ids of held nodes, each once, in order of first occurrence.
#[derive(Drop)]
pub struct Asks {
    alloc: Global,
    ids: Vec<NodeId>,
    // The places of the ids by hash, once they are many.
    places: Option<Box<IndexSet<usize>>>,
}

impl Model for Asks {
    ghost use Rattle.std.specs.Prelude.{List, IfSome, ◌≡◌, map};
    ghost use Rattle.mx_graph.specs.declared.ids.NodeId.{NodeId as Id};

    ghost Value = { List Id };

    ghost use Rattle.mx_vertices.specs.Reading.{id_at};
    ghost use Rattle.mx_binding.specs.Asking.{AreOnce};

    ghost view = { λ s. s.ids.items };

    ghost invariant = { λ s. AreOnce s.ids.items × IfSome s.places (λ set. set.value.keys ≡ map id_at s.ids.items) };
}

impl Asks {
    /// None is asked yet. Takes no memory until the first is.
    pub fn new(alloc: Global) -> Asks
        ensures { result ≡ [] }
    {
        Asks {
            alloc,
            ids: Vec::new(alloc),
            places: None,
        }
    }

    /// The ids, to read and to iterate over.
    pub fn as_slice(&self) -> &[NodeId]
        ensures { result.now ≡ self.now }
    {
        self.ids.as_slice()
    }

    /// An id goes behind the others, unless it is there.
    pub fn enter(&mut self, id: NodeId) -> Result<(), AllocError>
        ensures { OnOk result (self.new ≡ with_ask id self.old) }
    {
        enter_in(self.alloc, &mut self.ids, &mut self.places, id)
    }
}

/// Whether an id is among these.
fn has_id(ids: &[NodeId], id: NodeId) -> bool
    ensures { result ≡ list_any (λ a. a.at == id.at) ids.now }
{
    ids.iter().any(|a| *a == id)
}

/// The places of ids by hash.
fn places_of(alloc: Global, ids: &[NodeId]) -> Result<Box<IndexSet<usize>>, AllocError>
    ensures { IfOk result (λ places. places.value.keys ≡ insert_all nat_eq [] (map id_at ids.now)) }
{
    let mut places = IndexSet::with_capacity(alloc, ids.len())?;
    for id in ids {
        places.insert(id.index())?;
    }
    return Ok(Box::new(alloc, places)?);
}

/// Enters an id, unless it is there.
fn enter_in(
    alloc: Global,
    ids: &mut Vec<NodeId>,
    places: &mut Option<Box<IndexSet<usize>>>,
    id: NodeId,
) -> Result<(), AllocError>
    requires once { AreOnce ids.old.items }
    requires places { IfSome places.old (λ set. set.value.keys ≡ map id_at ids.old.items) }
    ensures ids { OnOk result (ids.new.items ≡ with_ask id ids.old.items) }
    ensures once { AreOnce ids.new.items }
    ensures places { IfSome places.new (λ set. set.value.keys ≡ map id_at ids.new.items) }
{
    match places {
        None => {
            if has_id(ids, id) {
                return Ok(());
            }
            ids.push(id)?;
            if ids.len() > FEW {
                *places = Some(places_of(alloc, ids)?);
            }
            return Ok(());
        }
        Some(found) => {
            let is_new = found.insert(id.index())?;
            if !is_new {
                return Ok(());
            }
            let Ok(()) = ids.push(id) else {
                *places = None;
                return Err(AllocError);
            };
            return Ok(());
        }
    }
}
