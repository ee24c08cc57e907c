//! A source, a sink and files in memory that never fail.
ghost use Rattle.std.specs.Prelude.{◌≡◌, ◌≤◌, vec_len, false, Some, []};
ghost use Rattle.std.specs.FinMap as finite;

use crate::files::{bytes_of, find_bytes, set_bytes};
use crate::source::copy_front;
use crate::{Failed, Files, Found, ReadFailure, Sink, Source, WriteFailure};
use std::alloc::Global;

/// A source over bytes that never fails.
#[derive(Drop)]
pub struct SureSource {
    bytes: Vec<u8>,
    at: usize,
    ended: bool,
    ghost within: { at ≤ vec_len bytes },
}

impl SureSource {
    /// A source with all of these bytes left.
    pub fn new(bytes: Vec<u8>) -> SureSource
        ensures left { ⟦<SureSource as Source>⟧.left result ≡ Some bytes.items }
        ensures ended { ⟦<SureSource as Source>⟧.ended result ≡ false }
    {
        SureSource {
            bytes,
            at: 0,
            ended: false,
        }
    }
}

impl Source for SureSource {
    ghost use Rattle.std.specs.Prelude.{◌≡◌, ◌<◌, ◌≤◌, length, IfOk, IsOk};
    ghost use Rattle.std.specs.Io.KnownBytes.{prepend_known, IsAtEnd};
    ghost use Rattle.mx_outside.specs.Outside.{bytes_read, tells_end};
    ghost use Rattle.mx_outside.specs.Memory.{sure_left, sure_ended};

    ghost left = { sure_left };

    ghost ended = { sure_ended };

    ghost faults = { λ _. 0 };

    fn read(&mut self, into: &mut [u8]) -> Result<usize, Failed>
        ensures sure { IsOk result }
        ensures bound { IfOk result (λ n. n ≤ length into.new) }
        ensures bytes { sure_left self.old
            ≡ prepend_known (bytes_read result into.new) (sure_left self.new) }
        ensures end { result ≡ Ok 0 → 0 < length into.new → IsAtEnd (sure_left self.new) }
        ensures ended { sure_ended self.new
            ≡ tells_end (sure_ended self.old) result (length into.new) }
    {
        let count = copy_front(&self.bytes[self.at..], into);
        self.at += count;
        self.ended = self.ended || count == 0 && !into.is_empty();
        Ok(count)
    }
}

/// A sink into memory that never fails, but for want of memory.
#[derive(Drop)]
pub struct SureSink {
    bytes: Vec<u8>,
}

impl SureSink {
    /// A sink that has taken nothing.
    pub fn new(alloc: Global) -> SureSink
        ensures { ⟦<SureSink as Sink>⟧.taken result ≡ Some [] }
    {
        SureSink {
            bytes: Vec::new(alloc),
        }
    }

    /// What was taken.
    pub fn bytes(&self) -> &[u8]
        ensures { ⟦<SureSink as Sink>⟧.taken self.now ≡ Some result.now }
    {
        &self.bytes
    }
}

impl Sink for SureSink {
    ghost taken = { λ s. Some s.bytes.items };

    ghost faults = { λ _. 0 };

    fn write(&mut self, piece: &[u8]) -> Result<usize, WriteFailure> {
        match self.bytes.extend_from_slice(piece) {
            Ok(()) => return Ok(piece.len()),
            Err(_) => return Err(WriteFailure::NoMemory),
        }
    }
}

/// Files in memory that never fail, but for want of memory.
#[derive(Drop)]
pub struct SureFiles {
    files: Vec<(String, Vec<u8>)>,
}

impl SureFiles {
    ghost use Rattle.std.specs.Prelude.{option_map};
    ghost use Rattle.mx_outside.specs.Files.{files_of};

    /// These files. Of files with one name the first counts.
    pub fn new(files: Vec<(String, Vec<u8>)>) -> SureFiles
        ensures { ⟦<SureFiles as Files>⟧.held result ≡ Some (files_of files.items) }
    {
        SureFiles { files }
    }

    /// What a name holds, where it is there.
    pub fn get(&self, name: &str) -> Option<&[u8]>
        ensures { Some (option_map (λ s. s.now) result)
            ≡ option_map (λ files. finite.get files name.now)
            (⟦<SureFiles as Files>⟧.held self.now) }
    {
        bytes_of(self.files.as_slice(), name)
    }
}

impl Files for SureFiles {
    ghost use Rattle.std.specs.Prelude.{◌≡◌, IfOk, IfErr, OnOk, OnErr};
    ghost use Rattle.mx_outside.specs.Files.{Finds, IsWithin, with_bytes};
    ghost use Rattle.mx_outside.specs.Memory.{sure_held};

    ghost held = { sure_held };

    ghost read_faults = { λ _. 0 };

    ghost write_faults = { λ _. 0 };

    fn read(&mut self, alloc: Global, name: &str, limit: u64) -> Result<Found, ReadFailure>
        ensures sure { IfErr result (λ failure. failure ≡ ReadFailure.NoMemory) }
        ensures found { IfOk result (λ found. Finds (sure_held self.old) name.now limit found) }
        ensures within { IfOk result (λ found. IsWithin limit found) }
        ensures held { sure_held self.new ≡ sure_held self.old }
    {
        return find_bytes(alloc, self.files.as_slice(), name, limit);
    }

    fn write(&mut self, alloc: Global, name: &str, bytes: &[u8]) -> Result<(), WriteFailure>
        ensures sure { IfErr result (λ failure. failure ≡ WriteFailure.NoMemory) }
        ensures ok { OnOk result
            (sure_held self.new ≡ with_bytes (sure_held self.old) name.now bytes.now) }
        ensures nothing { OnErr result (sure_held self.new ≡ sure_held self.old) }
    {
        return set_bytes(alloc, &mut self.files, name, bytes);
    }
}
