//! Why an edit is refused.
ghost use Rattle.std.specs.Prelude.{◌≡◌};
ghost use Rattle.mx_edit.specs.declared.refusal.EditRefusal.TheVariants.{NoMemory};

use mx_list::list::List;
use mx_value::node::Path;
use std::alloc::{AllocError, AllocFailed};

/// What may not pass its greatest number.
#[derive(Clone, Copy, Debug, PartialEq, Eq, Drop)]
pub enum Limit {
    /// Defined spaces.
    Spaces,
    /// Cells of all spaces.
    Cells,
    /// References of all spaces and of the model.
    Refs,
    Tables,
    Inputs,
    /// Names of a static path.
    Depth,
    /// Spaces whose bindings a static path takes over, itself among them.
    Layers,
    /// Static paths.
    Paths,
}

/// Why an edit was refused. The first that applies is the answer, in this order.
#[derive(PartialEq, Eq, Drop)]
pub enum EditRefusal {
    /// A name that is given to what is new is no name.
    BadName,
    /// A path is no defined space, or for an input no static one.
    NoSuchSpace,
    /// What is to be changed, or is named as a target, is not there.
    NoSuchMember,
    /// Another member of the space, or of the model, has the name.
    NameTaken,
    /// The arguments of an input are more than its cells take, or fewer without a default.
    WrongCount,
    /// The address of an input has an item.
    ItemAddress,
    /// A base is named twice, a value can not be kept in a model text, or there is no such input.
    BadValue,
    /// A space that stays has a removed one as base.
    InUse(Path),
    /// These spaces lead in a ring from each to one of its children or bases, and from the last to the first.
    Cycle(List<Path>),
    /// A number would pass its greatest.
    TooMany(Limit),
    /// The bases of this path have no linearisation.
    NoOrder(Path),
    /// There was not enough memory.
    NoMemory,
}

impl From<AllocError> for EditRefusal {
    ghost from_gives = { λ _ refusal. refusal ≡ NoMemory };

    fn from(_error: AllocError) -> EditRefusal {
        EditRefusal::NoMemory
    }
}

impl<T: Drop> From<AllocFailed<T>> for EditRefusal {
    ghost from_gives = { λ _ refusal. refusal ≡ NoMemory };

    fn from(_error: AllocFailed<T>) -> EditRefusal {
        EditRefusal::NoMemory
    }
}
