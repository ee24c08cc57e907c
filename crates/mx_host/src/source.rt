//! Standard input as a source.
ghost use Rattle.std.specs.Prelude.{◌≡◌, false, None};

use mx_outside::{Failed, Source};
use std::io::Read;

/// A source over a reader. A read that was interrupted is a fault like any other.
#[derive(Drop)]
pub struct HostSource<R: Read + Drop> {
    inner: R,
    ended: bool,
    faults: u64,
}

impl<R: Read + Drop> HostSource<R> {
    /// A source over this reader, with no end told and no fault counted.
    pub fn new(inner: R) -> HostSource<R>
        ensures ended { result.ended ≡ false }
        ensures faults { result.faults ≡ 0 }
    {
        HostSource {
            inner,
            ended: false,
            faults: 0,
        }
    }
}

impl<R: Read + Drop> Source for HostSource<R> {
    ghost left = { λ _. None };

    ghost ended = { λ s. s.ended };

    ghost faults = { λ s. s.faults };

    fn read(&mut self, into: &mut [u8]) -> Result<usize, Failed> {
        match self.inner.read(into) {
            Ok(count) => {
                self.ended = self.ended || count == 0 && !into.is_empty();
                Ok(count)
            }
            Err(_) => {
                self.faults = self.faults.saturating_add(1);
                Err(Failed)
            }
        }
    }
}
