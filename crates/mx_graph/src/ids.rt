//! Ids of nodes and edges, and the one refusal.
ghost use Rattle.std.specs.Prelude.{◌≡◌};

use std::alloc::{AllocError, AllocFailed};

/// A node of the graph. An id is given again only after its node is removed.
#[derive(Clone, Copy, PartialEq, Eq, Debug, Drop)]
pub struct NodeId {
    pub(crate) at: u32,
}

impl NodeId {
    /// The place of what is kept for the node in a vector.
    pub fn index(self) -> usize
        ensures { result ≡ self.at }
    {
        self.at as usize
    }
}

/// An edge of the graph, from the node that reads to the node that it reads.
#[derive(Clone, Copy, PartialEq, Eq, Debug, Drop)]
pub struct EdgeId {
    pub(crate) at: u32,
}

/// There is no memory for the room that was asked for.
#[derive(Clone, Copy, PartialEq, Eq, Debug, Drop)]
pub struct NoMemory;

impl From<AllocError> for NoMemory {
    fn from(_: AllocError) -> Self {
        NoMemory
    }
}

impl<T: Drop> From<AllocFailed<T>> for NoMemory {
    fn from(_: AllocFailed<T>) -> Self {
        NoMemory
    }
}
