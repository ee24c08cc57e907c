//! What is recorded of a run so far.
ghost use Rattle.std.specs.Prelude.{◌≡◌, [], OnOk};
ghost use Rattle.mx_value.specs.declared.read.Read.TheVariants as read;
ghost use Rattle.mx_edit.specs.declared.key.Key.TheVariants as key;
ghost use Rattle.mx_read_set.specs.Seen.{nothing_seen, with_key, with_read};
ghost use Rattle.mx_binding.specs.Asking.{with_ask};

use crate::asks::Asks;
use mx_edit::key::Key;
use mx_graph::NodeId;
use mx_read_set::seen::Seen;
use mx_value::node::SharedNode;
use mx_value::read::Read;
use std::alloc::{AllocError, Global};

/// What is recorded of a run so far: the keys that it looked up and what it read, and the held nodes
/// that it asked, each once and in order of first occurrence.
#[derive(Drop)]
pub struct Records {
    pub seen: Seen,
    pub asks: Asks,
}

impl Records {
    /// Of a run that has done nothing.
    pub fn new(alloc: Global) -> Records
        ensures seen { result.seen ≡ nothing_seen }
        ensures asks { result.asks ≡ [] }
    {
        Records {
            seen: Seen::new(alloc),
            asks: Asks::new(alloc),
        }
    }

    /// A held node was asked.
    pub fn ask(&mut self, node: &SharedNode, id: NodeId) -> Result<(), AllocError>
        ensures seen { OnOk result (self.new.seen ≡ with_read (read.Node node.now) self.old.seen) }
        ensures asks { OnOk result (self.new.asks ≡ with_ask id self.old.asks) }
    {
        self.seen.note(Read::Node(node.copy()?))?;
        self.asks.enter(id)
    }

    /// An input was asked.
    pub fn ask_input(&mut self, node: &SharedNode) -> Result<(), AllocError>
        ensures seen { OnOk result
            (self.new.seen
            ≡ with_read (read.Node node.now) (with_key (key.Input node.now) self.old.seen)) }
        ensures asks { self.new.asks ≡ self.old.asks }
    {
        self.seen.look(Key::Input(node.copy()?))?;
        self.seen.note(Read::Node(node.copy()?))
    }
}
