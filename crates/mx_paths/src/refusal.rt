//! Why a text has no table of its static paths.
ghost use Rattle.std.specs.Prelude.{◌≡◌};
ghost use Rattle.mx_paths.specs.declared.refusal.PathsRefusal.TheVariants.{NoMemory};

use mx_edit::refusal::Limit;
use mx_value::node::Path;
use std::alloc::{AllocError, AllocFailed};

/// What the walk over the static paths met first.
#[derive(Drop)]
pub enum PathsRefusal {
    /// The bases of this path have no order.
    NoOrder(Path),
    /// A number would pass its greatest.
    TooMany(Limit),
    NoMemory,
}

impl From<AllocError> for PathsRefusal {
    ghost from_gives = { λ _ refusal. refusal ≡ NoMemory };

    fn from(_error: AllocError) -> PathsRefusal {
        PathsRefusal::NoMemory
    }
}

impl<T: Drop> From<AllocFailed<T>> for PathsRefusal {
    ghost from_gives = { λ _ refusal. refusal ≡ NoMemory };

    fn from(_error: AllocFailed<T>) -> PathsRefusal {
        PathsRefusal::NoMemory
    }
}
