//! The answer to one line.
use crate::bench::{Bench, node_of, push_state};
use crate::trouble::Trouble;
use crate::walks::{push_readers, push_reads};
use mx_graph::{NodeId, ReadGraph};
use mx_print::append::{push, push_number};
use std::alloc::{AllocError, Global};

/// The answers to the lines of a script.
pub fn answers(alloc: Global, script: &str) -> Result<Vec<u8>, AllocError> {
    let mut out = Vec::new(alloc);
    let mut bench = Bench::new(alloc)?;
    for line in script.lines() {
        take_line(alloc, &mut bench, line, &mut out)?;
    }
    Ok(out)
}

/// Begins a new graph, or answers a line.
fn take_line(
    alloc: Global,
    bench: &mut Bench,
    line: &str,
    out: &mut Vec<u8>,
) -> Result<(), AllocError> {
    if line == "new" {
        *bench = Bench::new(alloc)?;
        return Ok(());
    }
    answer(bench, line, out)
}

/// Adds a line, and the answer of a row.
fn answer(bench: &mut Bench, line: &str, out: &mut Vec<u8>) -> Result<(), AllocError> {
    push(out, line.as_bytes())?;
    if !line.starts_with('#') {
        push(out, b" =>")?;
        match answer_row(bench, line, out) {
            Ok(()) => {}
            Err(Trouble::NoRow) => push(out, b" no row")?,
            Err(Trouble::NoMemory) => return Err(AllocError),
        }
    }
    push(out, b"\n")
}

/// Adds the answer of a row: what it asks for, or which nodes live and are marked behind it.
fn answer_row(bench: &mut Bench, line: &str, out: &mut Vec<u8>) -> Result<(), Trouble> {
    let (word, rest) = line.split_once(' ').unwrap_or((line, ""));
    match word {
        "reads" => push_reads(&bench.graph, &bench.ids, node_of(&bench.ids, rest)?, out),
        "readers" => push_readers(&bench.graph, &bench.ids, node_of(&bench.ids, rest)?, out),
        _ => {
            change(bench, word, rest, out)?;
            push_state(&bench.graph, &bench.ids, out)
        }
    }
}

/// Carries out a row that changes the graph.
fn change(bench: &mut Bench, word: &str, rest: &str, out: &mut Vec<u8>) -> Result<(), Trouble> {
    match word {
        "room" => room(&mut bench.graph, rest),
        "node" => add_node(bench),
        "edges" => add_edges(bench, rest),
        "mark" => mark(&mut bench.graph, node_of(&bench.ids, rest)?),
        "remove" => remove(&mut bench.graph, out),
        _ => Err(Trouble::NoRow),
    }
}

/// `room NODES EDGES`: reserves room for so many.
fn room(graph: &mut ReadGraph, rest: &str) -> Result<(), Trouble> {
    let (nodes, edges) = rest.split_once(' ').ok_or(Trouble::NoRow)?;
    graph.reserve(nodes.parse::<u32>()?, edges.parse::<u32>()?)?;
    Ok(())
}

/// `node`: adds a node.
fn add_node(bench: &mut Bench) -> Result<(), Trouble> {
    bench.graph.reserve(1, 0)?;
    let id = bench.graph.add_node();
    bench.ids.push(id)?;
    Ok(())
}

/// `edges READER>READ ..`: adds those of the edges whose ends live.
fn add_edges(bench: &mut Bench, rest: &str) -> Result<(), Trouble> {
    for word in rest.split_whitespace() {
        let (reader, read) = word.split_once('>').ok_or(Trouble::NoRow)?;
        let reader = node_of(&bench.ids, reader)?;
        let read = node_of(&bench.ids, read)?;
        add_edge(&mut bench.graph, reader, read)?;
    }
    Ok(())
}

/// Adds an edge, where its ends live.
fn add_edge(graph: &mut ReadGraph, reader: NodeId, read: NodeId) -> Result<(), Trouble> {
    graph.reserve(0, 1)?;
    if graph.is_live(reader) && graph.is_live(read) {
        graph.add_edge(reader, read);
    }
    Ok(())
}

/// `mark NODE`: marks a node that lives, and what reaches it.
fn mark(graph: &mut ReadGraph, node: NodeId) -> Result<(), Trouble> {
    if graph.is_live(node) {
        graph.mark_readers(node);
    }
    Ok(())
}

/// `remove`: removes what is marked. The answer is how many nodes went.
fn remove(graph: &mut ReadGraph, out: &mut Vec<u8>) -> Result<(), Trouble> {
    push(out, b" ")?;
    push_number(out, u64::from(graph.remove_marked()))?;
    Ok(())
}
