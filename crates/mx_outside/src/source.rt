//! Where bytes come from.
ghost use Rattle.std.specs.Prelude.{◌≡◌, ◌<◌, ◌≤◌, ℕ, Bool, List, Option, length, min, take, IfOk, OnOk, OnErr};
ghost use Rattle.std.specs.Io.KnownBytes.{prepend_known, IsAtEnd};
ghost use Rattle.mx_outside.specs.Outside.{Rose, bytes_read, tells_end};

/// A read failed. It took no byte.
#[derive(Clone, Copy, Debug, PartialEq, Eq)]
pub struct Failed;

/// What gives bytes from outside.
pub trait Source {
    /// The bytes that are left, where it tells them.
    ghost left: { Self → Option (List ℕ) };

    /// Whether a read has told the end.
    ghost ended: { Self → Bool };

    /// How often a read has failed. It stops at the greatest `u64`.
    ghost faults: { Self → ℕ };

    /// Takes the next bytes into the front of the buffer, and gives their number.
    /// 0 for a buffer with room is the end: nothing is left, where that is told.
    /// `Failed` comes only where the count of faults rose in this call.
    fn read(&mut self, into: &mut [u8]) -> Result<usize, Failed>
        ensures bound { IfOk result (λ n. n ≤ length into.new) }
        ensures bytes { left self.old ≡ prepend_known (bytes_read result into.new) (left self.new) }
        ensures end { result ≡ Ok 0 → 0 < length into.new → IsAtEnd (left self.new) }
        ensures ended { ended self.new ≡ tells_end (ended self.old) result (length into.new) }
        ensures kept { OnOk result (faults self.new ≡ faults self.old) }
        ensures later { faults self.old ≤ faults self.new }
        ensures failed { OnErr result (Rose (faults self.old) (faults self.new)) };
}

/// Copies as many bytes as there are and have room, and gives their number.
pub(crate) fn copy_front(from: &[u8], into: &mut [u8]) -> usize
    ensures count { result ≡ min (length from.now) (length into.old) }
    ensures bytes { take result into.new ≡ take result from.now }
{
    let count = from.len().min(into.len());
    into[..count].copy_from_slice(&from[..count]);
    count
}
