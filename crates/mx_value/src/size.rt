//! How large values are.
ghost use Rattle.std.specs.Prelude.{◌≡◌, min, ◌-◌, ◌^◌, map, sum};
ghost use Rattle.mx_value.specs.Size.{size_of, size_of_segment};

use crate::value::{Addr, Segment, Value};
use mx_list::items::Items;

/// The size of a value: 1, and the bytes of a text, the sizes of a tuple's items, or those of the
/// arguments in the address of a space or cells. The greatest u64 where that is passed.
#[cycle(size)]
pub fn size_of_value(value: &Value) -> u64
    ensures { result ≡ min (size_of value.now) (2 ^ 64 - 1) }
{
    match value {
        Value::Text(t) => 1u64.saturating_add(t.len() as u64),
        Value::Tup(items) => 1u64.saturating_add(size_of_items(items)),
        Value::Space(at) => 1u64.saturating_add(size_of_segments(at)),
        Value::Cells(at) => 1u64.saturating_add(size_of_segments(&at.space)),
        Value::Nothing | Value::Flag(_) | Value::Int(_) | Value::Fix(_) | Value::Table(_) => 1,
    }
}

/// The sizes of the items together, or the greatest u64.
#[cycle(size)]
pub fn size_of_items(items: &Items<Value>) -> u64
    ensures { result ≡ min (sum (map size_of items.now)) (2 ^ 64 - 1) }
{
    let mut size = 0u64;
    for item in items.as_slice() {
        size = size.saturating_add(size_of_value(item));
    }
    size
}

/// The sizes of the arguments in an address together, or the greatest u64.
#[cycle(size)]
pub fn size_of_segments(at: &Addr) -> u64
    ensures { result ≡ min (sum (map size_of_segment at.now)) (2 ^ 64 - 1) }
{
    let mut size = 0u64;
    for segment in at.as_slice() {
        if let Segment::Item(items) = segment {
            size = size.saturating_add(size_of_items(items));
        }
    }
    size
}
