//! The successors of a node.
ghost use Rattle.std.specs.Prelude.{◌≡◌, IfOk};
ghost use Rattle.mx_runs.specs.Inputs.{is_input};
ghost use Rattle.mx_memo_laws.specs.Entries.{IsKept};
ghost use Rattle.mx_state.specs.Model.{model_of};
ghost use Rattle.mx_engine.specs.Successors.{AreAskers, AreSuccessors};

use crate::engine::Engine;
use crate::gathering::{by_text, nodes_of, rows_of};
use mx_edit::key::Key;
use mx_graph::NodeId;
use mx_memo::Memo;
use mx_value::node::{Node, SharedNode};
use mx_world::world::World;
use std::alloc::{AllocError, Global};

impl Engine {
    /// The held nodes whose runs asked a node as it is written, each once, by the bytes of their texts.
    pub fn succs(&self, node: &Node) -> Result<Vec<Node>, AllocError>
        ensures { IfOk result (λ nodes. AreSuccessors self.now node.now nodes.items) }
    {
        let ids = askers_of(self.alloc, &self.world, &self.memo, node)?;
        let nodes = nodes_of(self.alloc, &self.memo, &ids)?;
        let rows = rows_of(self.alloc, nodes.as_slice())?;
        by_text(self.alloc, rows)
    }
}

/// The held nodes whose runs asked a node. One may stand more than once.
fn askers_of(
    alloc: Global,
    world: &World,
    memo: &Memo,
    node: &Node,
) -> Result<Vec<NodeId>, AllocError>
    requires { IsKept (model_of world.now) memo.now }
    ensures { IfOk result (λ ids. AreAskers world.now memo.now node.now ids.items) }
{
    mx_memo_laws::laws::laws();
    let shared = SharedNode::new(alloc, node.copy(alloc)?)?;
    if is_input(world, node) {
        match memo.readers_of(alloc, &Key::Input(shared)) {
            Ok(ids) => return Ok(ids),
            Err(_) => return Err(AllocError),
        }
    }
    let Some(id) = memo.find(&shared) else {
        return Ok(Vec::new(alloc));
    };
    match memo.askers_of(alloc, id) {
        Ok(ids) => return Ok(ids),
        Err(_) => return Err(AllocError),
    }
}

/// Whether a value was put in for a node.
fn is_input(world: &World, node: &Node) -> bool
    ensures { result ≡ is_input (model_of world.now) node.now }
{
    let _ = world.text();
    world.input(node).is_some()
}
