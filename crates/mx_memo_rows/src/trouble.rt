//! Why a row has no answer.
use mx_graph::NoMemory;
use mx_value::label::LabelRefusal;
use std::alloc::{AllocError, AllocFailed};
use std::num::ParseIntError;

/// Why a row has no answer.
#[derive(Drop)]
pub enum Trouble {
    /// A part of it is not of its form.
    NoRow,
    /// There was not enough memory.
    NoMemory,
}

impl From<AllocError> for Trouble {
    fn from(_error: AllocError) -> Trouble {
        Trouble::NoMemory
    }
}

impl<T: Drop> From<AllocFailed<T>> for Trouble {
    fn from(_error: AllocFailed<T>) -> Trouble {
        Trouble::NoMemory
    }
}

impl From<NoMemory> for Trouble {
    fn from(_error: NoMemory) -> Trouble {
        Trouble::NoMemory
    }
}

impl From<ParseIntError> for Trouble {
    fn from(_error: ParseIntError) -> Trouble {
        Trouble::NoRow
    }
}

impl From<LabelRefusal> for Trouble {
    fn from(refusal: LabelRefusal) -> Trouble {
        match refusal {
            LabelRefusal::NotPrintable(_) => Trouble::NoRow,
            LabelRefusal::NoMemory => Trouble::NoMemory,
        }
    }
}
