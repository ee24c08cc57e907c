//! The run on top.
use mx_binding::records::Records;
use mx_node_runs::halt::Halt;
use mx_value::node::SharedNode;

/// A run in flight: its node, and what is recorded of it so far.
#[derive(Drop)]
pub struct Current {
    pub node: SharedNode,
    pub records: Records,
}

/// The run on top, and where it came to.
#[derive(Drop)]
pub struct Running {
    pub current: Current,
    pub halt: Halt,
}
