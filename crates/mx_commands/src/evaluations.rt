//! Values and precedents.
ghost use Rattle.std.specs.Prelude.{◌≡◌, [], OnOk};
ghost use Rattle.mx_state.specs.Proper.{IsProper};
ghost use Rattle.mx_commands.specs.Step.{TellsValue, TellsPrecedents};

use mx_engine::engine::Engine;
use mx_frames::steps::Steps;
use mx_text::blocks::{push_reads_block, push_refusal_block, push_value_block};
use mx_value::node::Node;
use std::alloc::{AllocError, Global};
use std::sync::ledger::Ledger;

/// Evaluates a node. As many runs began for a value as there are newly held nodes.
pub(crate) fn evaluate<L: Ledger>(
    engine: &mut Engine,
    block: &mut Vec<u8>,
    node: &Node,
    steps: &mut Steps<L>,
) -> Result<(), AllocError>
    requires empty { block.old.items ≡ [] }
    requires proper { IsProper node.now }
    ensures { OnOk result (TellsValue engine.old node.now block.new.items engine.new) }
{
    mx_state::laws::laws();
    let before = engine.held_count();
    match engine.eval(node, steps) {
        Ok(value) => {
            let runs = engine.held_count().saturating_sub(before);
            push_value_block(block, &value, runs)?;
            return Ok(());
        }
        Err(refusal) => return push_refusal_block(block, &refusal),
    }
}

/// What a node reads.
pub(crate) fn precedents<L: Ledger>(
    alloc: Global,
    engine: &mut Engine,
    block: &mut Vec<u8>,
    node: &Node,
    steps: &mut Steps<L>,
) -> Result<(), AllocError>
    requires empty { block.old.items ≡ [] }
    requires proper { IsProper node.now }
    ensures { OnOk result (TellsPrecedents engine.old node.now block.new.items engine.new) }
{
    match engine.precedents(node, steps) {
        Ok(reads) => return push_reads_block(alloc, block, reads.as_slice()),
        Err(refusal) => return push_refusal_block(block, &refusal),
    }
}
