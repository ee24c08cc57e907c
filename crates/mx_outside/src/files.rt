//! Files by their names.
ghost use Rattle.std.specs.Prelude.{◌≡◌, ◌≤◌, ℕ, List, Option, IfOk, IfErr, OnOk, OnErr, IsErrOf, option_map};
ghost use Rattle.std.specs.FinMap as finite;
ghost use Rattle.mx_outside.specs.Files.{FileMap, IsFound, Finds, IsWithin, with_bytes, ChangesOnly, files_of, place_of, bytes_of};
ghost use Rattle.mx_outside.specs.Outside.{Rose};

use crate::WriteFailure;
use std::alloc::{AllocError, Global};
use thiserror::Error;

/// The greatest number of bytes of a file that is read whole, and of one that is written.
pub const MAX_FILE: u64 = 67_108_864;

/// What a name was found to hold.
#[derive(Debug, Drop)]
pub enum Found {
    /// All bytes of the file.
    Bytes(Vec<u8>),
    /// There is no file of this name.
    Missing,
    /// The file has more bytes than the read was to take.
    TooBig,
}

/// Why a file was not read.
#[derive(Clone, Copy, Debug, PartialEq, Eq, Error)]
pub enum ReadFailure {
    /// The outside gave no answer.
    #[error("the read failed")]
    Failed,
    /// There was no memory for the bytes.
    #[error("no memory")]
    NoMemory,
}

impl From<AllocError> for ReadFailure {
    ghost use Rattle.mx_outside.specs.declared.files.ReadFailure.TheVariants as read_failure;

    ghost from_gives = { λ _ failure. failure ≡ read_failure.NoMemory };

    fn from(_: AllocError) -> Self {
        ReadFailure::NoMemory
    }
}

/// What keeps files by their names.
pub trait Files {
    /// The bytes of each name, where they are told.
    ghost held: { Self → Option FileMap };

    /// How often a read has failed. It stops at the greatest `u64`.
    ghost read_faults: { Self → ℕ };

    /// How often a write has failed. It stops at the greatest `u64`.
    ghost write_faults: { Self → ℕ };

    /// Finds the bytes of a name, if there are at most so many. No file changes.
    /// `Failed` comes only where the count of faults at reads rose in this call.
    fn read(&mut self, alloc: Global, name: &str, limit: u64) -> Result<Found, ReadFailure>
        ensures found { IfOk result (λ found. Finds (held self.old) name.now limit found) }
        ensures within { IfOk result (λ found. IsWithin limit found) }
        ensures held { held self.new ≡ held self.old }
        ensures kept { OnOk result (read_faults self.new ≡ read_faults self.old) }
        ensures later { read_faults self.old ≤ read_faults self.new }
        ensures failed { IsErrOf result ReadFailure.Failed →
            Rose (read_faults self.old) (read_faults self.new) }
        ensures no_write { write_faults self.new ≡ write_faults self.old };

    /// Sets the bytes of a name. A write that fails changes no other name, and one without memory none at all.
    /// `Failed` comes only where the count of faults at writes rose in this call.
    fn write(&mut self, alloc: Global, name: &str, bytes: &[u8]) -> Result<(), WriteFailure>
        ensures ok { OnOk result (held self.new ≡ with_bytes (held self.old) name.now bytes.now) }
        ensures err { OnErr result (ChangesOnly name.now (held self.old) (held self.new)) }
        ensures no_memory { IsErrOf result WriteFailure.NoMemory → held self.new ≡ held self.old }
        ensures kept { OnOk result (write_faults self.new ≡ write_faults self.old) }
        ensures later { write_faults self.old ≤ write_faults self.new }
        ensures failed { IsErrOf result WriteFailure.Failed →
            Rose (write_faults self.old) (write_faults self.new) }
        ensures no_read { read_faults self.new ≡ read_faults self.old };
}

/// The place of a name in a list of files. The first one of a name counts.
fn place_of(files: &[(String, Vec<u8>)], name: &str) -> Option<usize>
    ensures { result ≡ place_of files.now name.now }
{
    files.iter().position(|file| file.0.as_str() == name)
}

/// The bytes of a name in a list of files.
pub(crate) fn bytes_of<'a>(files: &'a [(String, Vec<u8>)], name: &str) -> Option<&'a [u8]>
    ensures { option_map (λ s. s.now) result ≡ bytes_of files.now name.now }
{
    match place_of(files, name) {
        Some(place) => Some(files[place].1.as_slice()),
        None => None,
    }
}

/// A copy of the bytes of a name in a list of files, if there are at most so many.
pub(crate) fn find_bytes(
    alloc: Global,
    files: &[(String, Vec<u8>)],
    name: &str,
    limit: u64,
) -> Result<Found, ReadFailure>
    ensures found { IfOk result (IsFound (bytes_of files.now name.now) limit) }
    ensures within { IfOk result (IsWithin limit) }
    ensures err { IfErr result (λ failure. failure ≡ ReadFailure.NoMemory) }
{
    let Some(bytes) = bytes_of(files, name) else {
        return Ok(Found::Missing);
    };
    if bytes.len() as u64 > limit {
        return Ok(Found::TooBig);
    }
    match bytes.to_vec(alloc) {
        Ok(copy) => return Ok(Found::Bytes(copy)),
        Err(_) => return Err(ReadFailure::NoMemory),
    }
}

/// Sets the bytes of a name in a list of files.
pub(crate) fn set_bytes(
    alloc: Global,
    files: &mut Vec<(String, Vec<u8>)>,
    name: &str,
    bytes: &[u8],
) -> Result<(), WriteFailure>
    ensures ok { OnOk result
        (files_of files.new.items ≡ finite.insert (files_of files.old.items) name.now bytes.now) }
    ensures unchanged { OnErr result (files_of files.new.items ≡ files_of files.old.items) }
    ensures err { IfErr result (λ failure. failure ≡ WriteFailure.NoMemory) }
{
    let Ok(copy) = bytes.to_vec(alloc) else {
        return Err(WriteFailure::NoMemory);
    };
    if let Some(place) = place_of(files.as_slice(), name) {
        files[place].1 = copy;
        return Ok(());
    }
    let Ok(name) = String::from_str(alloc, name) else {
        return Err(WriteFailure::NoMemory);
    };
    match files.push((name, copy)) {
        Ok(()) => return Ok(()),
        Err(_) => return Err(WriteFailure::NoMemory),
    }
}
