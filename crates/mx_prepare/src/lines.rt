//! The lines of a project's model file, carried out one after the other.
ghost use Rattle.std.specs.Prelude.{◌≡◌, None, IfOk};
ghost use Rattle.mx_apply.specs.Made.{IsMade};
ghost use Rattle.mx_model.specs.Change.{change, bound_edit};
ghost use Rattle.mx_model.specs.Refused.{record_trouble};
ghost use Rattle.mx_whole_edits.specs.Laid.{LaysOut};
ghost use Rattle.mx_prepare.specs.Named.{KeepsLine, EmptyIsNamed, EditsKeepNames};

use mx_apply::edits::with_edit;
use mx_edit::edit::Edit;
use mx_edit::refusal::EditRefusal;
use mx_model::text::ModelText;
use mx_whole_edits::laid::{keep_laid, laid_laws};
use std::alloc::Global;

/// The text that a line makes of another one, or the first refusal that applies by what the text holds. Rings, numbers and the
/// walk over static paths are looked at after the last line.
pub fn with_line(alloc: Global, text: &ModelText, edit: &Edit) -> Result<ModelText, EditRefusal>
    requires { LaysOut edit.now }
    ensures made { IsMade text.now edit.now result }
    ensures kept { IfOk result (KeepsLine text.now edit.now) }
{
    laid_laws();
    match with_edit(alloc, text, edit) {
        Ok(made) => {
            keep_line(text, edit, &made);
            return Ok(made);
        }
        Err(why) => return Err(why),
    }
}

/// From what stands beside the new text, a line leaves a text laid out, and its spaces named. Does nothing when it runs.
pub fn keep_line(text: &ModelText, edit: &Edit, made: &ModelText)
    requires free { record_trouble text.now edit.now ≡ None }
    requires is { made.now ≡ change text.now (bound_edit text.now edit.now) }
    ensures { KeepsLine text.now edit.now made.now }
{
    keep_laid(text, edit, made);
}

/// The spaces of the text without spaces have names, and edits keep that, for proofs. Does nothing when it runs.
pub fn name_laws()
    ensures empty { EmptyIsNamed }
    ensures kept { EditsKeepNames }
{}
