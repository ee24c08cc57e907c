//! The working folder as files by their names.
ghost use Rattle.std.specs.Prelude.{◌≡◌, None, IfOk};
ghost use Rattle.mx_outside.specs.Files.{IsWithin};

use mx_outside::{Files, Found, ReadFailure, WriteFailure, is_file_name};
use std::alloc::Global;
use std::io::{ErrorKind, Read};
use std::{fs, io};

/// How many bytes of a file are asked for at once.
const PIECE: usize = 8192;

/// The files below the working folder. A name that is none, a name that leads through or to a symbolic link, and what is
/// neither a plain file nor missing, as a folder, a pipe or a device, is a fault. Below something that is no folder a name is
/// missing.
#[derive(Drop)]
pub struct HostFiles<'h, R: fs::Files> {
    host: &'h R,
    read_faults: u64,
    write_faults: u64,
}

impl<'h, R: fs::Files> HostFiles<'h, R> {
    /// The files that this host reaches, with no fault counted.
    pub fn new(host: &'h R) -> HostFiles<'h, R>
        ensures reads { result.read_faults ≡ 0 }
        ensures writes { result.write_faults ≡ 0 }
    {
        HostFiles {
            host,
            read_faults: 0,
            write_faults: 0,
        }
    }
}

impl<'h, R: fs::Files> Files for HostFiles<'h, R> {
    ghost held = { λ _. None };

    ghost read_faults = { λ f. f.read_faults };

    ghost write_faults = { λ f. f.write_faults };

    fn read(&mut self, alloc: Global, name: &str, limit: u64) -> Result<Found, ReadFailure> {
        match find(alloc, self.host, name, limit) {
            Err(ReadFailure::Failed) => {
                self.read_faults = self.read_faults.saturating_add(1);
                Err(ReadFailure::Failed)
            }
            answer => answer,
        }
    }

    fn write(&mut self, _alloc: Global, name: &str, bytes: &[u8]) -> Result<(), WriteFailure> {
        match put(self.host, name, bytes) {
            Err(WriteFailure::Failed) => {
                self.write_faults = self.write_faults.saturating_add(1);
                Err(WriteFailure::Failed)
            }
            answer => answer,
        }
    }
}

/// What stands under a name.
#[derive(Clone, Copy)]
enum Place {
    /// Nothing, or a name on the way is no folder's.
    Missing,
    /// A plain file.
    File,
    /// Something else.
    Other,
}

/// What stands under a name, no link followed.
fn place_at<R: fs::Files>(host: &R, name: &str) -> io::Result<Place> {
    match fs::symlink_metadata(host, name) {
        Ok(found) if found.is_file() => Ok(Place::File),
        Ok(_) => Ok(Place::Other),
        Err(failure) => match failure.kind() {
            ErrorKind::NotFound | ErrorKind::NotADirectory => Ok(Place::Missing),
            _ => Err(failure),
        },
    }
}

/// Whether a folder on the way of a name is a symbolic link.
fn is_linked<R: fs::Files>(host: &R, name: &str) -> io::Result<bool> {
    for (end, byte) in name.bytes().enumerate() {
        if byte == b'/' {
            if let Some(folder) = name.get(..end) {
                match fs::symlink_metadata(host, folder) {
                    Ok(found) if found.is_symlink() => return Ok(true),
                    _ => {}
                }
            }
        }
    }
    Ok(false)
}

/// What stands under a name, and `Other` for one that is no name of a file and one that a link leads to.
fn place_of<R: fs::Files>(host: &R, name: &str) -> io::Result<Place> {
    if !is_file_name(name) || is_linked(host, name)? {
        return Ok(Place::Other);
    }
    place_at(host, name)
}

/// The bytes of a name, if there are at most so many.
fn find<R: fs::Files>(alloc: Global, host: &R, name: &str, limit: u64) -> Result<Found, ReadFailure>
    ensures { IfOk result (IsWithin limit) }
{
    match place_of(host, name) {
        Ok(Place::Missing) => return Ok(Found::Missing),
        Ok(Place::File) => {}
        Ok(Place::Other) => return Err(ReadFailure::Failed),
        Err(failure) => return Err(read_failure(&failure)),
    }
    match fs::open(host, name) {
        Ok(mut file) => read_all(alloc, &mut file, limit),
        Err(failure) => Err(read_failure(&failure)),
    }
}

/// All bytes of a reader, if there are at most so many.
fn read_all<F: Read>(alloc: Global, file: &mut F, limit: u64) -> Result<Found, ReadFailure>
    ensures { IfOk result (IsWithin limit) }
{
    let mut bytes = Vec::new(alloc);
    let mut piece = [0; PIECE];
    for _ in 0..u64::MAX {
        let count = match file.read(&mut piece) {
            Ok(count) => count,
            Err(failure) => return Err(read_failure(&failure)),
        };
        if count == 0 {
            return Ok(Found::Bytes(bytes));
        }
        if count as u64 > limit - bytes.len() as u64 {
            return Ok(Found::TooBig);
        }
        bytes.extend_from_slice(&piece[..count])?;
    }
    Err(ReadFailure::Failed)
}

/// Sets the bytes of a name, in the folders that it needs.
fn put<R: fs::Files>(host: &R, name: &str, bytes: &[u8]) -> Result<(), WriteFailure> {
    match place_of(host, name) {
        Ok(Place::Missing | Place::File) => {}
        Ok(Place::Other) => return Err(WriteFailure::Failed),
        Err(failure) => return Err(write_failure(&failure)),
    }
    match put_there(host, name, bytes) {
        Ok(()) => Ok(()),
        Err(failure) => Err(write_failure(&failure)),
    }
}

fn put_there<R: fs::Files>(host: &R, name: &str, bytes: &[u8]) -> io::Result<()> {
    if let Some((folders, _)) = name.rsplit_once('/') {
        fs::create_dir_all(host, folders)?;
    }
    fs::write(host, name, bytes)
}

fn read_failure(failure: &io::Error) -> ReadFailure {
    match failure.kind() {
        ErrorKind::OutOfMemory => ReadFailure::NoMemory,
        _ => ReadFailure::Failed,
    }
}

fn write_failure(failure: &io::Error) -> WriteFailure {
    match failure.kind() {
        ErrorKind::OutOfMemory => WriteFailure::NoMemory,
        _ => WriteFailure::Failed,
    }
}
