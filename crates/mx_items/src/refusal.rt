//! Why an address leads to no namespace.
ghost use Rattle.std.specs.Prelude.{◌≡◌};
ghost use Rattle.mx_items.specs.declared.refusal.ItemsRefusal.TheVariants.{NoMemory};

use std::alloc::{AllocError, AllocFailed};

/// Why an address leads to no namespace.
#[derive(Clone, Copy, PartialEq, Eq, Debug, Drop)]
pub enum ItemsRefusal {
    /// The segment at this place, counted from 0, is the first item on the way that is not held.
    NotHeld(usize),
    /// There is no memory for the namespace.
    NoMemory,
}

impl From<AllocError> for ItemsRefusal {
    ghost from_gives = { λ _ refusal. refusal ≡ NoMemory };

    fn from(_error: AllocError) -> ItemsRefusal {
        ItemsRefusal::NoMemory
    }
}

impl<T: Drop> From<AllocFailed<T>> for ItemsRefusal {
    ghost from_gives = { λ _ refusal. refusal ≡ NoMemory };

    fn from(_error: AllocFailed<T>) -> ItemsRefusal {
        ItemsRefusal::NoMemory
    }
}
