//! What is kept for a vertex of the graph.
use mx_edit::key::Key;
use mx_edit::reply::Reply;
use mx_list::shared::Shared;
use mx_value::node::{Node, SharedNode};
use mx_value::read::Reads;

/// A held node: what it gives, and what its run read of nodes, references and tables, in order.
#[derive(Drop)]
pub struct Body {
    pub node: SharedNode,
    pub reply: Shared<Reply>,
    pub reads: Reads,
}

/// A held node.
#[derive(Drop)]
pub struct Held {
    pub body: Body,
    /// Where it stands in the order of holding.
    pub place: usize,
}

/// A key that some held node looked up.
#[derive(Drop)]
pub struct Watched {
    pub key: Key,
    /// Where it stands among the keys.
    pub place: usize,
}

/// What a vertex is.
#[derive(Drop)]
pub enum Slot {
    Free,
    Node(Held),
    Watch(Watched),
}
