//! How far a node has come.
use mx_graph::NodeId;

/// How far a node has come that is no new one.
#[derive(Clone, Copy, Drop)]
pub enum Standing {
    /// Its run has begun and has not ended.
    Begun,
    /// It is held, under this id.
    Ended(NodeId),
}
