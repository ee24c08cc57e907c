//! Walks along the edges of a node.
ghost use Rattle.mx_graph.specs.Relation.{IsEdge};

use crate::bench::push_node;
use crate::trouble::Trouble;
use mx_graph::{EdgeId, NodeId, ReadGraph};
use mx_print::append::push;

/// Adds the first two reads of a node, and whether there are more.
pub fn push_reads(
    graph: &ReadGraph,
    ids: &[NodeId],
    node: NodeId,
    out: &mut Vec<u8>,
) -> Result<(), Trouble> {
    if !graph.is_live(node) {
        return Err(Trouble::NoRow);
    }
    let Some(first) = graph.first_read(node) else {
        return Ok(());
    };
    push_edge(graph, ids, first, out)?;
    let Some(second) = graph.next_read(first) else {
        return Ok(());
    };
    push_edge(graph, ids, second, out)?;
    push_more(graph.next_read(second), out)
}

/// Adds the first two readers of a node, and whether there are more.
pub fn push_readers(
    graph: &ReadGraph,
    ids: &[NodeId],
    node: NodeId,
    out: &mut Vec<u8>,
) -> Result<(), Trouble> {
    if !graph.is_live(node) {
        return Err(Trouble::NoRow);
    }
    let Some(first) = graph.first_reader(node) else {
        return Ok(());
    };
    push_edge(graph, ids, first, out)?;
    let Some(second) = graph.next_reader(first) else {
        return Ok(());
    };
    push_edge(graph, ids, second, out)?;
    push_more(graph.next_reader(second), out)
}

/// Adds an edge as `READER>READ`.
fn push_edge(
    graph: &ReadGraph,
    ids: &[NodeId],
    edge: EdgeId,
    out: &mut Vec<u8>,
) -> Result<(), Trouble>
    requires { IsEdge graph.now edge }
{
    push(out, b" ")?;
    push_node(ids, graph.reader_of(edge), out)?;
    push(out, b">")?;
    push_node(ids, graph.read_of(edge), out)?;
    Ok(())
}

/// Adds whether there is a third edge.
fn push_more(third: Option<EdgeId>, out: &mut Vec<u8>) -> Result<(), Trouble> {
    if third.is_some() {
        push(out, b" more")?;
    }
    Ok(())
}
