//! Standard output as a sink.
ghost use Rattle.std.specs.Prelude.{◌≡◌, None};

use mx_outside::{Sink, WriteFailure};
use std::io::Write;

/// A sink over a writer. A piece of which it takes nothing is a fault.
#[derive(Drop)]
pub struct HostSink<W: Write + Drop> {
    inner: W,
    faults: u64,
}

impl<W: Write + Drop> HostSink<W> {
    /// A sink over this writer, with no fault counted.
    pub fn new(inner: W) -> HostSink<W>
        ensures { result.faults ≡ 0 }
    {
        HostSink { inner, faults: 0 }
    }
}

impl<W: Write + Drop> Sink for HostSink<W> {
    ghost taken = { λ _. None };

    ghost faults = { λ s. s.faults };

    fn write(&mut self, piece: &[u8]) -> Result<usize, WriteFailure> {
        match self.inner.write(piece) {
            Ok(count) if count > 0 || piece.is_empty() => Ok(count),
            _ => {
                self.faults = self.faults.saturating_add(1);
                Err(WriteFailure::Failed)
            }
        }
    }
}
