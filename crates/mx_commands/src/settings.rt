//! The limit of chains, and the order of layers.
ghost use Rattle.std.specs.Prelude.{◌≡◌, [], OnOk};
ghost use Rattle.mx_commands.specs.Step.{Limits, TellsOrder};

use mx_engine::engine::Engine;
use mx_engine::refusal::{BadLimit, OrderRefusal};
use mx_text::blocks::{push_accepted, push_order_block, push_refused};
use mx_value::node::Path;
use std::alloc::AllocError;

/// Sets how many nodes a chain may have.
pub(crate) fn limit(engine: &mut Engine, block: &mut Vec<u8>, most: u32) -> Result<(), AllocError>
    requires { block.old.items ≡ [] }
    ensures { OnOk result (Limits engine.old most block.new.items engine.new) }
{
    match engine.set_limit(most) {
        Ok(()) => {
            push_accepted(block)?;
            return Ok(());
        }
        Err(BadLimit) => {
            push_refused(block, b"BadLimit")?;
            return Ok(());
        }
    }
}

/// The paths of a path's layers.
pub(crate) fn order(engine: &Engine, block: &mut Vec<u8>, path: &Path) -> Result<(), AllocError>
    requires { block.old.items ≡ [] }
    ensures { OnOk result (TellsOrder engine.now path.now block.new.items engine.now) }
{
    match engine.order(path) {
        Ok(paths) => {
            push_order_block(block, &paths)?;
            return Ok(());
        }
        Err(OrderRefusal::NoSuchSpace) => {
            push_refused(block, b"NoSuchSpace")?;
            return Ok(());
        }
        Err(OrderRefusal::NoMemory) => return Err(AllocError),
    }
}
