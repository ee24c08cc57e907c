//! Texts as the lines of a project's model file lay them out.
ghost use Rattle.std.specs.Prelude.{◌≡◌, None};
ghost use Rattle.mx_model.specs.Change.{change, bound_edit};
ghost use Rattle.mx_model.specs.Refused.{record_trouble};
ghost use Rattle.mx_whole_edits.specs.Laid.{KeepsLaid, EmptyIsLaid, LinesAreTold, LaidGoesOn, LaidIsReady};

use mx_edit::edit::Edit;
use mx_model::text::ModelText;

/// From what stands beside the new text, it is laid out where the old one was and the edit is one of a line. Does nothing when
/// it runs.
pub fn keep_laid(text: &ModelText, edit: &Edit, made: &ModelText)
    requires free { record_trouble text.now edit.now ≡ None }
    requires is { made.now ≡ change text.now (bound_edit text.now edit.now) }
    ensures { KeepsLaid text.now edit.now made.now }
{
    let _ = made.kinds();
}

/// A text can be laid out from the one without spaces, line by line, and whole edits can follow where it has no ring and no
/// number passes its greatest, for proofs. Does nothing when it runs.
pub fn laid_laws()
    ensures empty { EmptyIsLaid }
    ensures told { LinesAreTold }
    ensures sound { LaidGoesOn }
    ensures ready { LaidIsReady }
{}
