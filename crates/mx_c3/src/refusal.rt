ghost use Rattle.std.specs.Prelude.{◌≡◌};
ghost use Rattle.mx_c3.specs.declared.refusal.C3Refusal.TheVariants.{NoMemory};

use crate::space::SpaceId;
use mx_list::items::Items;
use std::alloc::{AllocError, AllocFailed};

/// Why there is no order.
#[derive(Drop)]
pub enum C3Refusal {
    /// No head can be taken. These are the heads that are left, in order of the lists, each once.
    NoOrder(Items<SpaceId>),
    NoMemory,
}

impl From<AllocError> for C3Refusal {
    ghost from_gives = { λ _ refusal. refusal ≡ NoMemory };

    fn from(_error: AllocError) -> C3Refusal {
        C3Refusal::NoMemory
    }
}

impl<T: Drop> From<AllocFailed<T>> for C3Refusal {
    ghost from_gives = { λ _ refusal. refusal ≡ NoMemory };

    fn from(_error: AllocFailed<T>) -> C3Refusal {
        C3Refusal::NoMemory
    }
}
