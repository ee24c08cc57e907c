//! How long a text is, without memory for it.
ghost use Rattle.std.specs.Prelude.{◌≡◌, ◌++◌, ◌∷◌, [], ℕ, List, length, OnOk};
ghost use Rattle.mx_print.specs.Sizes as spec;

use crate::seen::{Byte, Seen};
use crate::sink::Sink;
use std::alloc::AllocError;

/// How many bytes a text has, and at how many of them a bracket or an indent may open.
#[derive(Drop)]
pub struct Count {
    pub len: usize,
    pub openings: usize,
    // The text itself, for proofs alone.
    text: Seen,
    ghost counted: { len ≡ length text.bytes },
    ghost opened: { openings ≡ spec.openings text.bytes },
}

/// An opening bracket, or the end of a line or the beginning of a comment, behind which an indented line may begin.
fn may_open(byte: u8) -> bool
    ensures { result ≡ spec.may_open byte }
{
    matches!(byte, b'(' | b'[' | b'{' | b'\n' | b'#')
}

impl Count {
    pub(crate) fn none() -> Count
        ensures { result.text.bytes ≡ [] }
    {
        Count {
            len: 0,
            openings: 0,
            text: Seen::none(),
        }
    }
}

/// Counts one more byte. More bytes than a usize counts have no room in memory.
fn count_byte(count: &mut Count, byte: u8) -> Result<(), AllocError>
    ensures { OnOk result (count.new.text.bytes ≡ count.old.text.bytes ++ byte ∷ []) }
{
    let Some(len) = count.len.checked_add(1) else {
        return Err(AllocError);
    };
    let Some(openings) = count.openings.checked_add(may_open(byte) as usize) else {
        return Err(AllocError);
    };
    let text = count.text.then(&Byte { value: byte });
    *count = Count {
        len,
        openings,
        text,
    };
    return Ok(());
}

impl Sink for Count {
    ghost written = { λ count. count.text.bytes };

    fn take(&mut self, bytes: &[u8]) -> Result<(), AllocError> {
        for byte in bytes {
            count_byte(self, *byte)?;
        }
        Ok(())
    }
}
