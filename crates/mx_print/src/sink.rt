//! What takes the bytes of a text.
ghost use Rattle.std.specs.Prelude.{◌≡◌, ◌++◌, ℕ, List, OnOk};
ghost use Rattle.std.specs.Fmt.{decimal, signed_decimal};

use std::alloc::AllocError;

/// What takes the bytes of a text: a buffer, or a count.
pub(crate) trait Sink {
    /// The bytes that it has taken.
    ghost written: { Self → List ℕ };

    /// Takes bytes behind those that it has taken.
    fn take(&mut self, bytes: &[u8]) -> Result<(), AllocError>
        ensures { OnOk result (written self.new ≡ written self.old ++ bytes.now) };
}

impl Sink for Vec<u8> {
    ghost written = { λ v. v.items };

    fn take(&mut self, bytes: &[u8]) -> Result<(), AllocError> {
        self.extend_from_slice(bytes)
    }
}

/// Adds bytes as they stand.
pub(crate) fn push<S: Sink>(out: &mut S, bytes: &[u8]) -> Result<(), AllocError>
    ensures { OnOk result (S.written out.new ≡ S.written out.old ++ bytes.now) }
{
    out.take(bytes)
}

/// Adds a number in decimal.
pub(crate) fn push_number<S: Sink>(out: &mut S, number: u64) -> Result<(), AllocError>
    ensures { OnOk result (S.written out.new ≡ S.written out.old ++ decimal number) }
{
    push(out, itoa::Buffer::new().format(number).as_bytes())
}

/// Adds a whole number in decimal, with `-` in front of a negative one.
pub(crate) fn push_int<S: Sink>(out: &mut S, number: i64) -> Result<(), AllocError>
    ensures { OnOk result (S.written out.new ≡ S.written out.old ++ signed_decimal number) }
{
    push(out, itoa::Buffer::new().format(number).as_bytes())
}
