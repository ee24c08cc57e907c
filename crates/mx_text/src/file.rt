//! Why a file is not read.
ghost use Rattle.std.specs.Prelude.{◌≡◌, ◌++◌, OnOk};
ghost use Rattle.mx_text.specs.File as spec;

use mx_print::append::push;
use mx_value::label::Label;
use std::alloc::AllocError;

/// Adds that there is no file of this name.
pub fn push_missing(out: &mut Vec<u8>, name: &Label) -> Result<(), AllocError>
    ensures { OnOk result (out.new.items ≡ out.old.items ++ spec.missing_text name.now) }
{
    push(out, b"missing ")?;
    push(out, name.as_slice())
}

/// Adds that the file of this name has more bytes than a file may have.
pub fn push_too_big(out: &mut Vec<u8>, name: &Label) -> Result<(), AllocError>
    ensures { OnOk result (out.new.items ≡ out.old.items ++ spec.too_big_text name.now) }
{
    push(out, b"too big ")?;
    push(out, name.as_slice())
}
