//! Why a project is not read or written.
ghost use Rattle.std.specs.Prelude.{◌≡◌};

use mx_edit::refusal::EditRefusal;
use mx_edit::table::TableRefusal;
use mx_grammar::refusal::ParseRefusal;
use mx_value::label::Label;
use std::alloc::AllocError;

/// Why a project is not read or written. The label is the name of a file within the folder, the number a line of it, from 1. Of
/// several causes the first in the order of reading is given.
#[derive(Drop)]
pub enum ProjectRefusal {
    /// There is no such file.
    Missing(Label),
    /// The file has more bytes than a file may have.
    TooBig(Label),
    /// The line begins with no word that the file takes, or has not the form of its word.
    BadLine(Label, u32),
    /// A formula, a node or a literal of the line is refused, or the line has no tokens.
    BadFormula(Label, u32, ParseRefusal),
    /// The file says no table.
    BadTable(Label, TableRefusal),
    /// The edit of the line is refused. For what the model file says as a whole the line is 0.
    Refused(Label, u32, EditRefusal),
    /// A file was not read.
    ReadFault,
    /// A file was not written.
    WriteFault,
    NoMemory,
}

impl From<AllocError> for ProjectRefusal {
    ghost use Rattle.std.specs.Prelude.{◌≡◌};
    ghost use Rattle.mx_project.specs.declared.refusal.ProjectRefusal.TheVariants.{NoMemory};

    ghost from_gives = { λ _ e. e ≡ NoMemory };

    fn from(_error: AllocError) -> ProjectRefusal {
        ProjectRefusal::NoMemory
    }
}
