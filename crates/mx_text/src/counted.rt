//! Words with a number behind them.
ghost use Rattle.std.specs.Prelude.{◌≡◌, ◌++◌, OnOk};
ghost use Rattle.std.specs.Fmt.{decimal};

use mx_print::append::{push, push_number};
use std::alloc::AllocError;

/// Adds words and the number behind them.
pub(crate) fn push_counted(out: &mut Vec<u8>, words: &[u8], number: u32) -> Result<(), AllocError>
    ensures { OnOk result (out.new.items ≡ out.old.items ++ (words.now ++ decimal number)) }
{
    push(out, words)?;
    push_number(out, number as u64)
}
