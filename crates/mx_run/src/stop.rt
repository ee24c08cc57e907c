//! Why a run ends before its script does.
ghost use Rattle.std.specs.Prelude.{◌≡◌};
ghost use Rattle.mx_run.specs.Stop.{stop_for, stop_for_file};

use mx_outside::{ReadFailure, WriteFailure};

/// Why a run ended before its script did.
#[derive(Clone, Copy, Debug, PartialEq, Eq)]
pub enum Stop {
    /// A read of the script failed: status 3.
    ReadFault,
    /// A read of a file failed: status 3.
    FileFault,
    /// A write failed: status 4.
    WriteFault,
    /// There was no memory: status 5.
    NoMemory,
    /// A line or the script passed its limit: status 6.
    OverLimit,
}

/// The end that a failed read of a file makes.
pub fn stop_of_file(failure: ReadFailure) -> Stop
    ensures { result ≡ stop_for_file failure }
{
    match failure {
        ReadFailure::Failed => Stop::FileFault,
        ReadFailure::NoMemory => Stop::NoMemory,
    }
}

/// The end that a failed write makes.
pub fn stop_of(failure: WriteFailure) -> Stop
    ensures { result ≡ stop_for failure }
{
    match failure {
        WriteFailure::Failed => Stop::WriteFault,
        WriteFailure::NoMemory => Stop::NoMemory,
    }
}
