//! Why an operator gave no value.
ghost use Rattle.std.specs.Prelude.{◌≡◌};
ghost use Rattle.mx_ops.specs.declared.op.OpRefusal.TheVariants as refusal;

use mx_value::fault::FaultKind;
use std::alloc::{AllocError, AllocFailed};

/// Why an operator gave no value.
#[derive(Clone, Copy, Debug, PartialEq, Eq, Drop)]
pub enum OpRefusal {
    /// ZeroDivision, Overflow, TypeMismatch, NoIndex, Domain or TooLarge.
    Fault(FaultKind),
    /// There was not enough memory.
    NoMemory,
}

impl From<AllocError> for OpRefusal {
    ghost from_gives = { λ _ answer. answer ≡ refusal.NoMemory };

    fn from(_error: AllocError) -> OpRefusal {
        OpRefusal::NoMemory
    }
}

impl<T: Drop> From<AllocFailed<T>> for OpRefusal {
    ghost from_gives = { λ _ answer. answer ≡ refusal.NoMemory };

    fn from(_error: AllocFailed<T>) -> OpRefusal {
        OpRefusal::NoMemory
    }
}
