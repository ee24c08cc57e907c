//! Reads: what a node's own run took from elsewhere.
ghost use Rattle.std.specs.Prelude.{◌≡◌, IfOk};

use crate::label::Label;
use crate::node::SharedNode;
use crate::value::Addr;
use mx_list::list::List;
use std::alloc::AllocError;

/// One thing that a run read.
#[derive(PartialEq, Eq, Hash, Drop)]
pub enum Read {
    /// A node that it asked.
    Node(SharedNode),
    /// A reference, with the address of the namespace that it was found in.
    Ref(Addr, Label),
    /// A reference of the model.
    Global(Label),
    /// A table that it subscripted.
    Table(Label),
}

/// What a node's run read, in order of first read, each once.
pub type Reads = List<Read>;

impl Read {
    /// An equal read, which shares what it holds.
    pub fn copy(&self) -> Result<Read, AllocError>
        ensures { IfOk result (λ c. c ≡ self.now) }
    {
        match self {
            Read::Node(node) => Ok(Read::Node(node.copy()?)),
            Read::Ref(at, name) => Ok(Read::Ref(at.copy()?, name.copy()?)),
            Read::Global(name) => Ok(Read::Global(name.copy()?)),
            Read::Table(name) => Ok(Read::Table(name.copy()?)),
        }
    }
}
