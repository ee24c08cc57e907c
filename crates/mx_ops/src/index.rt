//! Subscripts of tuples and texts.
ghost use Rattle.std.specs.Prelude.{◌≡◌, All};
ghost use Rattle.mx_value.specs.Label.{IsPrintable};
ghost use Rattle.mx_ops.specs.Answers.{Answers};
ghost use Rattle.mx_ops.specs.Builtins as spec;

use crate::op::OpRefusal;
use crate::text::make_text;
use mx_list::items::Items;
use mx_value::fault::FaultKind;
use mx_value::value::Value;
use std::alloc::Global;

/// The place that an index means: from the end where it is negative.
fn place(count: usize, index: i64) -> Option<usize>
    ensures { result ≡ spec.place count index }
{
    if index >= 0 {
        return Some(index as usize);
    }
    count.checked_sub(index.unsigned_abs() as usize)
}

/// The item at a place. NoIndex comes exactly where there is none.
pub fn item_at(alloc: Global, items: &Items<Value>, index: i64) -> Result<Value, OpRefusal>
    ensures { Answers result (spec.item_at items.now index) }
{
    let Some(at) = place(items.len(), index) else {
        return Err(OpRefusal::Fault(FaultKind::NoIndex));
    };
    let Some(item) = items.get(at) else {
        return Err(OpRefusal::Fault(FaultKind::NoIndex));
    };
    return Ok(item.copy(alloc)?);
}

/// The byte at a place, as a text. NoIndex comes exactly where there is none.
pub fn byte_at(alloc: Global, bytes: &[u8], index: i64) -> Result<Value, OpRefusal>
    requires { All IsPrintable bytes.now }
    ensures { Answers result (spec.byte_at bytes.now index) }
{
    let Some(at) = place(bytes.len(), index) else {
        return Err(OpRefusal::Fault(FaultKind::NoIndex));
    };
    let Some(byte) = bytes.get(at) else {
        return Err(OpRefusal::Fault(FaultKind::NoIndex));
    };
    return make_text(alloc, &[*byte]);
}
