//! A graph with the nodes that rows have added to it.
use crate::trouble::Trouble;
use mx_graph::{NodeId, ReadGraph};
use mx_print::append::{push, push_number};
use std::alloc::{AllocError, Global};

/// A graph, and the ids of its nodes in order of adding, also of those that have gone.
#[derive(Drop)]
pub struct Bench {
    pub graph: ReadGraph,
    pub ids: Vec<NodeId>,
}

impl Bench {
    /// A graph without nodes.
    pub fn new(alloc: Global) -> Result<Bench, AllocError> {
        match ReadGraph::new(alloc) {
            Ok(graph) => Ok(Bench {
                graph,
                ids: Vec::new(alloc),
            }),
            Err(_) => Err(AllocError),
        }
    }
}

/// The node of a number.
pub fn node_of(ids: &[NodeId], word: &str) -> Result<NodeId, Trouble> {
    let place = word.parse::<usize>()?;
    ids.get(place).copied().ok_or(Trouble::NoRow)
}

/// Adds the number of a node.
pub fn push_node(ids: &[NodeId], node: NodeId, out: &mut Vec<u8>) -> Result<(), AllocError> {
    for (place, id) in ids.iter().enumerate() {
        if *id == node {
            push_number(out, place as u64)?;
        }
    }
    Ok(())
}

/// Adds for each node `-` where it has gone, `*` where it is marked and `.` where it is not.
pub fn push_state(graph: &ReadGraph, ids: &[NodeId], out: &mut Vec<u8>) -> Result<(), Trouble> {
    push(out, b" ")?;
    for id in ids {
        push(out, mark_of(graph, *id))?;
    }
    Ok(())
}

/// The sign of a node.
fn mark_of(graph: &ReadGraph, id: NodeId) -> &'static [u8] {
    if !graph.is_live(id) {
        return b"-";
    }
    if graph.is_marked(id) { b"*" } else { b"." }
}
