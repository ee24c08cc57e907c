//! Nodes: what is evaluated and kept.
ghost use Rattle.std.specs.Prelude.{◌≡◌, IfOk};

use crate::copies::copy_items;
use crate::label::Label;
use crate::value::{Addr, Value};
use mx_list::items::Items;
use mx_list::list::List;
use mx_list::shared_key::SharedKey;
use std::alloc::{AllocError, Global};

/// The names of a defined or derived space, from the top.
pub type Path = List<Label>;

/// What an evaluation asks for.
#[derive(PartialEq, Eq, Hash, Drop)]
pub enum Node {
    /// The cells of a name in the space at an address, called with these arguments.
    Cell(Addr, Label, Items<Value>),
    /// The item space that the space at an address gives for these arguments.
    Item(Addr, Items<Value>),
}

/// A node that its copies share, beside its hash.
pub type SharedNode = SharedKey<Node>;

impl Node {
    /// An equal node. The address and the name are shared, the arguments are copied.
    pub fn copy(&self, alloc: Global) -> Result<Node, AllocError>
        ensures { IfOk result (λ c. c ≡ self.now) }
    {
        match self {
            Node::Cell(at, name, arguments) => Ok(Node::Cell(
                at.copy()?,
                name.copy()?,
                copy_items(alloc, arguments)?,
            )),
            Node::Item(at, arguments) => Ok(Node::Item(at.copy()?, copy_items(alloc, arguments)?)),
        }
    }
}
