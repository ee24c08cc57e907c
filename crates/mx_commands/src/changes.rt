//! Edits.
ghost use Rattle.std.specs.Prelude.{◌≡◌, [], OnOk};
ghost use Rattle.mx_model.specs.Literals.{IsRead};
ghost use Rattle.mx_limit_laws.specs.Texts.{HasSmallFormula};
ghost use Rattle.mx_commands.specs.Step.{Changes};

use mx_edit::edit::Edit;
use mx_engine::engine::Engine;
use mx_text::blocks::{push_accepted, push_refused_edit};
use std::alloc::AllocError;

/// Changes the text.
pub(crate) fn edit(
    engine: &mut Engine,
    block: &mut Vec<u8>,
    change: &Edit,
) -> Result<(), AllocError>
    requires empty { block.old.items ≡ [] }
    requires read { IsRead change.now }
    requires small { HasSmallFormula change.now }
    ensures { OnOk result (Changes engine.old change.now block.new.items engine.new) }
{
    match engine.edit(change) {
        Ok(_) => {
            push_accepted(block)?;
            return Ok(());
        }
        Err(refusal) => {
            push_refused_edit(block, &refusal)?;
            return Ok(());
        }
    }
}
