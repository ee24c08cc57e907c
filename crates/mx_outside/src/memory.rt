//! A source, a sink and files in memory that fail at chosen calls, to try what stands above them.
ghost use Rattle.std.specs.Prelude.{◌≡◌, ◌≤◌, ◌^◌, vec_len, false, Some, []};
ghost use Rattle.std.specs.FinMap as finite;

use crate::files::{bytes_of, find_bytes, set_bytes};
use crate::source::copy_front;
use crate::{Failed, Files, Found, ReadFailure, Sink, Source, WriteFailure};
use std::alloc::Global;

/// A source over bytes, which fails at the calls of the given numbers. The first call has the number 1.
#[derive(Drop)]
pub struct MemSource {
    bytes: Vec<u8>,
    at: usize,
    fails: Vec<u64>,
    calls: u64,
    faults: u64,
    ended: bool,
    ghost within: { at ≤ vec_len bytes },
}

impl MemSource {
    ghost use Rattle.mx_outside.specs.Memory.{source_fails, source_calls};

    /// A source with all of these bytes left, no call made and no fault counted.
    pub fn new(bytes: Vec<u8>, fails: Vec<u64>) -> MemSource
        ensures left { ⟦<MemSource as Source>⟧.left result ≡ Some bytes.items }
        ensures ended { ⟦<MemSource as Source>⟧.ended result ≡ false }
        ensures faults { ⟦<MemSource as Source>⟧.faults result ≡ 0 }
        ensures fails { source_fails result ≡ fails.items }
        ensures calls { source_calls result ≡ 0 }
    {
        MemSource {
            bytes,
            at: 0,
            fails,
            calls: 0,
            faults: 0,
            ended: false,
        }
    }
}

impl Source for MemSource {
    ghost use Rattle.std.specs.Prelude.{◌≡◌, ◌≤◌, ◌<◌, ◌↔◌, length, IfOk, OnOk, OnErr, IsErr, Contains};
    ghost use Rattle.std.specs.Io.KnownBytes.{prepend_known, IsAtEnd};
    ghost use Rattle.mx_outside.specs.Outside.{Rose, bytes_read, tells_end};
    ghost use Rattle.mx_outside.specs.Memory.{source_left, source_ended, source_faults, source_fails, source_calls, next_call};

    ghost left = { source_left };

    ghost ended = { source_ended };

    ghost faults = { source_faults };

    fn read(&mut self, into: &mut [u8]) -> Result<usize, Failed>
        ensures bound { IfOk result (λ n. n ≤ length into.new) }
        ensures bytes { source_left self.old
            ≡ prepend_known (bytes_read result into.new) (source_left self.new) }
        ensures end { result ≡ Ok 0 → 0 < length into.new → IsAtEnd (source_left self.new) }
        ensures ended { source_ended self.new
            ≡ tells_end (source_ended self.old) result (length into.new) }
        ensures kept { OnOk result (source_faults self.new ≡ source_faults self.old) }
        ensures later { source_faults self.old ≤ source_faults self.new }
        ensures failed { OnErr result (Rose (source_faults self.old) (source_faults self.new)) }

        // It fails exactly at the calls of the numbers that it was made with.
        ensures told { IsErr result ↔ Contains (source_fails self.old)
            (next_call (source_calls self.old)) }
        ensures fails { source_fails self.new ≡ source_fails self.old }
        ensures calls { source_calls self.new ≡ next_call (source_calls self.old) }
    {
        self.calls = self.calls.saturating_add(1);
        if self.fails.contains(&self.calls) {
            self.faults = self.faults.saturating_add(1);
            return Err(Failed);
        }
        let count = copy_front(&self.bytes[self.at..], into);
        self.at += count;
        self.ended = self.ended || count == 0 && !into.is_empty();
        Ok(count)
    }
}

/// A sink into memory, which fails at the calls of the given numbers. The first call has the number 1.
#[derive(Drop)]
pub struct MemSink {
    bytes: Vec<u8>,
    fails: Vec<u64>,
    calls: u64,
    faults: u64,
}

impl MemSink {
    ghost use Rattle.mx_outside.specs.Memory.{sink_fails, sink_calls};

    /// A sink that has taken nothing, with no call made and no fault counted.
    pub fn new(alloc: Global, fails: Vec<u64>) -> MemSink
        ensures taken { ⟦<MemSink as Sink>⟧.taken result ≡ Some [] }
        ensures faults { ⟦<MemSink as Sink>⟧.faults result ≡ 0 }
        ensures fails { sink_fails result ≡ fails.items }
        ensures calls { sink_calls result ≡ 0 }
    {
        MemSink {
            bytes: Vec::new(alloc),
            fails,
            calls: 0,
            faults: 0,
        }
    }

    /// What was taken.
    pub fn bytes(&self) -> &[u8]
        ensures { ⟦<MemSink as Sink>⟧.taken self.now ≡ Some result.now }
    {
        &self.bytes
    }
}

impl Sink for MemSink {
    ghost use Rattle.std.specs.Prelude.{◌≡◌, ◌≤◌, ◌<◌, ◌↔◌, length, take, IfOk, OnOk, OnErr, IsErrOf, Contains};
    ghost use Rattle.std.specs.Io.KnownBytes.{append_known};
    ghost use Rattle.mx_outside.specs.Outside.{Rose, TakesFront};
    ghost use Rattle.mx_outside.specs.Memory.{sink_taken, sink_faults, sink_fails, sink_calls, next_call};

    ghost taken = { sink_taken };

    ghost faults = { sink_faults };

    fn write(&mut self, piece: &[u8]) -> Result<usize, WriteFailure>
        ensures ok { IfOk result
            (λ n. (n ≤ length piece.now)
            × (sink_taken self.new ≡ append_known (sink_taken self.old) (take n piece.now))) }
        ensures some { IfOk result (λ n. 0 < length piece.now → 0 < n) }
        ensures err { OnErr result
            (TakesFront (sink_taken self.old) (sink_taken self.new) piece.now) }
        ensures no_memory { IsErrOf result WriteFailure.NoMemory →
            sink_taken self.new ≡ sink_taken self.old }
        ensures kept { OnOk result (sink_faults self.new ≡ sink_faults self.old) }
        ensures later { sink_faults self.old ≤ sink_faults self.new }
        ensures failed { IsErrOf result WriteFailure.Failed →
            Rose (sink_faults self.old) (sink_faults self.new) }

        // It fails exactly at the calls of the numbers that it was made with, and then takes nothing.
        ensures told { IsErrOf result WriteFailure.Failed ↔ Contains (sink_fails self.old)
            (next_call (sink_calls self.old)) }
        ensures nothing { OnErr result (sink_taken self.new ≡ sink_taken self.old) }
        ensures fails { sink_fails self.new ≡ sink_fails self.old }
        ensures calls { sink_calls self.new ≡ next_call (sink_calls self.old) }
    {
        self.calls = self.calls.saturating_add(1);
        if self.fails.contains(&self.calls) {
            self.faults = self.faults.saturating_add(1);
            return Err(WriteFailure::Failed);
        }
        match self.bytes.extend_from_slice(piece) {
            Ok(()) => return Ok(piece.len()),
            Err(_) => return Err(WriteFailure::NoMemory),
        }
    }
}

/// Files in memory, which fail at the calls of the given numbers. The first call has the number 1, and reads and writes
/// are counted together.
#[derive(Drop)]
pub struct MemFiles {
    files: Vec<(String, Vec<u8>)>,
    fails: Vec<u64>,
    calls: u64,
    read_faults: u64,
    write_faults: u64,
}

impl MemFiles {
    ghost use Rattle.std.specs.Prelude.{option_map};
    ghost use Rattle.mx_outside.specs.Files.{files_of, bytes_of};
    ghost use Rattle.mx_outside.specs.Memory.{files_fails, files_calls};

    /// These files, with no call made and no fault counted. Of files with one name the first counts.
    pub fn new(files: Vec<(String, Vec<u8>)>, fails: Vec<u64>) -> MemFiles
        ensures held { ⟦<MemFiles as Files>⟧.held result ≡ Some (files_of files.items) }
        ensures read_faults { ⟦<MemFiles as Files>⟧.read_faults result ≡ 0 }
        ensures write_faults { ⟦<MemFiles as Files>⟧.write_faults result ≡ 0 }
        ensures fails { files_fails result ≡ fails.items }
        ensures calls { files_calls result ≡ 0 }
    {
        MemFiles {
            files,
            fails,
            calls: 0,
            read_faults: 0,
            write_faults: 0,
        }
    }

    /// What a name holds, where it is there. This is no call that may fail.
    pub fn get(&self, name: &str) -> Option<&[u8]>
        ensures { Some (option_map (λ s. s.now) result)
            ≡ option_map (λ files. finite.get files name.now)
            (⟦<MemFiles as Files>⟧.held self.now) }
    {
        bytes_of(self.files.as_slice(), name)
    }
}

impl Files for MemFiles {
    ghost use Rattle.std.specs.Prelude.{◌≡◌, ◌≤◌, ◌↔◌, IfOk, OnOk, OnErr, IsErrOf, Contains};
    ghost use Rattle.mx_outside.specs.Files.{Finds, IsWithin, with_bytes, ChangesOnly};
    ghost use Rattle.mx_outside.specs.Outside.{Rose};
    ghost use Rattle.mx_outside.specs.Memory.{files_held, files_fails, files_calls, next_call};

    ghost held = { files_held };

    ghost read_faults = { λ s. s.read_faults };

    ghost write_faults = { λ s. s.write_faults };

    fn read(&mut self, alloc: Global, name: &str, limit: u64) -> Result<Found, ReadFailure>
        ensures found { IfOk result (λ found. Finds (files_held self.old) name.now limit found) }
        ensures within { IfOk result (λ found. IsWithin limit found) }
        ensures held { files_held self.new ≡ files_held self.old }
        ensures kept { OnOk result (self.new.read_faults ≡ self.old.read_faults) }
        ensures later { self.old.read_faults ≤ self.new.read_faults }
        ensures failed { IsErrOf result ReadFailure.Failed →
            Rose self.old.read_faults self.new.read_faults }
        ensures no_write { self.new.write_faults ≡ self.old.write_faults }

        // It fails exactly at the calls of the numbers that it was made with.
        ensures told { IsErrOf result ReadFailure.Failed ↔ Contains (files_fails self.old)
            (next_call (files_calls self.old)) }
        ensures fails { files_fails self.new ≡ files_fails self.old }
        ensures calls { files_calls self.new ≡ next_call (files_calls self.old) }
    {
        self.calls = self.calls.saturating_add(1);
        if self.fails.contains(&self.calls) {
            self.read_faults = self.read_faults.saturating_add(1);
            return Err(ReadFailure::Failed);
        }
        return find_bytes(alloc, self.files.as_slice(), name, limit);
    }

    fn write(&mut self, alloc: Global, name: &str, bytes: &[u8]) -> Result<(), WriteFailure>
        ensures ok { OnOk result
            (files_held self.new ≡ with_bytes (files_held self.old) name.now bytes.now) }
        ensures err { OnErr result
            (ChangesOnly name.now (files_held self.old) (files_held self.new)) }
        ensures no_memory { IsErrOf result WriteFailure.NoMemory →
            files_held self.new ≡ files_held self.old }
        ensures kept { OnOk result (self.new.write_faults ≡ self.old.write_faults) }
        ensures later { self.old.write_faults ≤ self.new.write_faults }
        ensures failed { IsErrOf result WriteFailure.Failed →
            Rose self.old.write_faults self.new.write_faults }
        ensures no_read { self.new.read_faults ≡ self.old.read_faults }

        // It fails exactly at the calls of the numbers that it was made with, and then changes nothing.
        ensures told { IsErrOf result WriteFailure.Failed ↔ Contains (files_fails self.old)
            (next_call (files_calls self.old)) }
        ensures nothing { OnErr result (files_held self.new ≡ files_held self.old) }
        ensures fails { files_fails self.new ≡ files_fails self.old }
        ensures calls { files_calls self.new ≡ next_call (files_calls self.old) }
    {
        self.calls = self.calls.saturating_add(1);
        if self.fails.contains(&self.calls) {
            self.write_faults = self.write_faults.saturating_add(1);
            return Err(WriteFailure::Failed);
        }
        return set_bytes(alloc, &mut self.files, name, bytes);
    }
}
