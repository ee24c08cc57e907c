//! What comes of an instruction that looks nothing up and does not end the run with a value.
use mx_value::fault::FaultKind;

/// What comes of an instruction that looks nothing up and does not end the run with a value.
#[derive(Clone, Copy, Debug, PartialEq, Eq, Drop)]
pub enum Went {
    On,
    /// The fault is at the instruction's line.
    Faults(FaultKind),
    NoMemory,
}
