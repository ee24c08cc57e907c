//! Refusals of an evaluation.
ghost use Rattle.std.specs.Prelude.{◌≡◌};
ghost use Rattle.mx_value.specs.declared.refusal.EvalRefusal.TheVariants.{NoMemory};

use crate::fault::FaultKind;
use crate::node::Node;
use mx_list::items::Items;
use std::alloc::{AllocError, AllocFailed};

/// Why an evaluation gave no value.
#[derive(PartialEq, Eq, Drop)]
pub enum EvalRefusal {
    /// There is no such node in the model.
    NoSuch,
    /// The node has more arguments than its cells or space take, or fewer without a default.
    WrongCount,
    /// A run met a fault.
    Fault {
        kind: FaultKind,
        /// The node whose run met it.
        node: Node,
        /// The line of that run's formula as it is printed, from 1.
        line: u32,
    },
    /// These nodes ask one another in a ring, each the next one and the last the first.
    Ring(Items<Node>),
    /// The chain of calls would pass the limit at this node.
    TooDeep(Node),
    /// No further node can be held.
    Full,
    /// There was not enough memory.
    NoMemory,
}

impl From<AllocError> for EvalRefusal {
    ghost from_gives = { λ _ refusal. refusal ≡ NoMemory };

    fn from(_error: AllocError) -> EvalRefusal {
        EvalRefusal::NoMemory
    }
}

impl<T: Drop> From<AllocFailed<T>> for EvalRefusal {
    ghost from_gives = { λ _ refusal. refusal ≡ NoMemory };

    fn from(_error: AllocFailed<T>) -> EvalRefusal {
        EvalRefusal::NoMemory
    }
}
