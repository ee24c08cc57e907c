//! Where bytes go.
ghost use Rattle.std.specs.Prelude.{◌≡◌, ◌<◌, ◌≤◌, ℕ, List, Option, length, take, IfOk, OnOk, OnErr, IsErrOf};
ghost use Rattle.std.specs.Io.KnownBytes.{append_known};
ghost use Rattle.mx_outside.specs.Outside.{Rose, TakesFront};

use std::alloc::AllocError;
use thiserror::Error;

/// Why a write did not go on.
#[derive(Clone, Copy, Debug, PartialEq, Eq, Error)]
pub enum WriteFailure {
    /// The outside refused the bytes.
    #[error("the write failed")]
    Failed,
    /// There was no memory, and nothing was taken.
    #[error("no memory")]
    NoMemory,
}

impl From<AllocError> for WriteFailure {
    ghost use Rattle.mx_outside.specs.declared.sink.WriteFailure.TheVariants as write_failure;

    ghost from_gives = { λ _ failure. failure ≡ write_failure.NoMemory };

    fn from(_: AllocError) -> Self {
        WriteFailure::NoMemory
    }
}

/// What takes bytes to the outside.
pub trait Sink {
    /// The bytes that it has taken, where it tells them.
    ghost taken: { Self → Option (List ℕ) };

    /// How often a write has failed. It stops at the greatest `u64`.
    ghost faults: { Self → ℕ };

    /// Takes the first bytes of a piece, and gives their number: 0 for the empty piece alone.
    /// A piece of which nothing can be taken is `Failed`, which comes only where the count of faults rose in this call.
    fn write(&mut self, piece: &[u8]) -> Result<usize, WriteFailure>
        ensures ok { IfOk result
            (λ n. (n ≤ length piece.now)
            × (taken self.new ≡ append_known (taken self.old) (take n piece.now))) }
        ensures some { IfOk result (λ n. 0 < length piece.now → 0 < n) }
        ensures err { OnErr result (TakesFront (taken self.old) (taken self.new) piece.now) }
        ensures no_memory { IsErrOf result WriteFailure.NoMemory → taken self.new ≡ taken self.old }
        ensures kept { OnOk result (faults self.new ≡ faults self.old) }
        ensures later { faults self.old ≤ faults self.new }
        ensures failed { IsErrOf result WriteFailure.Failed → Rose (faults self.old) (faults self.new) };
}

/// Writes a piece whole: what a sink leaves of it is handed on, and its failure is the failure of this call.
pub fn write_whole<K: Sink>(out: &mut K, piece: &[u8]) -> Result<(), WriteFailure>
    ensures ok { OnOk result (K.taken out.new ≡ append_known (K.taken out.old) piece.now) }
    ensures err { OnErr result (TakesFront (K.taken out.old) (K.taken out.new) piece.now) }
    ensures kept { OnOk result (K.faults out.new ≡ K.faults out.old) }
    ensures later { K.faults out.old ≤ K.faults out.new }
    ensures failed { IsErrOf result WriteFailure.Failed →
        Rose (K.faults out.old) (K.faults out.new) }
{
    let mut done = 0;
    while done < piece.len() {
        done += out.write(&piece[done..])?;
    }
    Ok(())
}
