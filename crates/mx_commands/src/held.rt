//! What is held.
ghost use Rattle.std.specs.Prelude.{◌≡◌, [], OnOk};
ghost use Rattle.mx_commands.specs.Step.{TellsSuccessors, TellsHeld, Counts, Drops};

use mx_edit::scope::Scope;
use mx_engine::engine::Engine;
use mx_text::blocks::{push_cleared_block, push_count_block, push_held_block, push_succs_block};
use mx_value::node::Node;
use std::alloc::AllocError;

/// Which held nodes ask a node.
pub(crate) fn successors(
    engine: &Engine,
    block: &mut Vec<u8>,
    node: &Node,
) -> Result<(), AllocError>
    requires { block.old.items ≡ [] }
    ensures { OnOk result (TellsSuccessors engine.now node.now block.new.items engine.now) }
{
    let nodes = engine.succs(node)?;
    push_succs_block(block, &nodes)
}

/// How many nodes are held, or whether one is.
pub(crate) fn held(
    engine: &Engine,
    block: &mut Vec<u8>,
    node: Option<Node>,
) -> Result<(), AllocError>
    requires { block.old.items ≡ [] }
    ensures { OnOk result (Counts engine.now node block.new.items engine.now) }
{
    match node {
        Some(node) => return is_held(engine, block, &node),
        None => return push_count_block(block, engine.held_count()),
    }
}

/// Whether a node is held.
fn is_held(engine: &Engine, block: &mut Vec<u8>, node: &Node) -> Result<(), AllocError>
    requires { block.old.items ≡ [] }
    ensures { OnOk result (TellsHeld engine.now node.now block.new.items engine.now) }
{
    if engine.held(node) {
        push_held_block(block, true)?;
        return Ok(());
    }
    push_held_block(block, false)?;
    return Ok(());
}

/// Drops what is in a scope, and what rests on it.
pub(crate) fn clear(
    engine: &mut Engine,
    block: &mut Vec<u8>,
    scope: &Scope,
) -> Result<(), AllocError>
    requires { block.old.items ≡ [] }
    ensures { OnOk result (Drops engine.old scope.now block.new.items engine.new) }
{
    let dropped = engine.clear(scope);
    push_cleared_block(block, dropped)
}
