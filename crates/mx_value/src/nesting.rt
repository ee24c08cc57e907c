//! How deep tuples stand in one another.
ghost use Rattle.std.specs.Prelude.{◌≡◌, min, ◌-◌, ◌^◌, map};
ghost use Rattle.mx_value.specs.Nesting.{greatest, nesting_of};

use crate::value::Value;
use mx_list::items::Items;

/// The nesting of a value: 0 where it is no tuple, 1 for the empty tuple, and for another tuple one
/// more than the greatest of its items. The greatest u32 where that is passed.
#[cycle(nesting)]
pub fn nesting_of_value(value: &Value) -> u32
    ensures { result ≡ min (nesting_of value.now) (2 ^ 32 - 1) }
{
    match value {
        Value::Tup(items) => 1u32.saturating_add(greatest_nesting(items)),
        Value::Nothing | Value::Flag(_) | Value::Int(_) | Value::Fix(_) | Value::Text(_) => 0,
        Value::Space(_) | Value::Cells(_) | Value::Table(_) => 0,
    }
}

#[cycle(nesting)]
fn greatest_nesting(items: &Items<Value>) -> u32
    ensures { result ≡ min (greatest (map nesting_of items.now)) (2 ^ 32 - 1) }
{
    let mut most = 0u32;
    for item in items.as_slice() {
        most = most.max(nesting_of_value(item));
    }
    most
}
