//! Refusals of calls of an engine.
ghost use Rattle.std.specs.Prelude.{◌≡◌};
ghost use Rattle.mx_engine.specs.declared.refusal.OrderRefusal.TheVariants.{NoMemory};

use std::alloc::{AllocError, AllocFailed};

/// A limit on the nodes of a chain is not within 1 to 100,000.
#[derive(Clone, Copy, Debug, PartialEq, Eq, Drop)]
pub struct BadLimit;

/// Why the order of a path's spaces is not told.
#[derive(Clone, Copy, Debug, PartialEq, Eq, Drop)]
pub enum OrderRefusal {
    /// There is no such static path.
    NoSuchSpace,
    /// There was not enough memory.
    NoMemory,
}

impl From<AllocError> for OrderRefusal {
    ghost from_gives = { λ _ refusal. refusal ≡ NoMemory };

    fn from(_error: AllocError) -> OrderRefusal {
        OrderRefusal::NoMemory
    }
}

impl<T: Drop> From<AllocFailed<T>> for OrderRefusal {
    ghost from_gives = { λ _ refusal. refusal ≡ NoMemory };

    fn from(_error: AllocFailed<T>) -> OrderRefusal {
        OrderRefusal::NoMemory
    }
}
