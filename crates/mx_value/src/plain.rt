//! Which values may be arguments.
ghost use Rattle.std.specs.Prelude.{◌≡◌};
ghost use Rattle.std.specs.List.{list_all};
ghost use Rattle.mx_value.specs.Plain.{is_plain};

use crate::value::Value;
use mx_list::items::Items;

/// Whether the value may be an argument: None, a flag, a whole or decimal number, a text, or a
/// tuple of these.
#[cycle(plain)]
pub fn is_plain(value: &Value) -> bool
    ensures { result ≡ is_plain value.now }
{
    match value {
        Value::Nothing | Value::Flag(_) | Value::Int(_) | Value::Fix(_) | Value::Text(_) => true,
        Value::Tup(items) => are_plain(items),
        Value::Space(_) | Value::Cells(_) | Value::Table(_) => false,
    }
}

/// Whether each value may be an argument.
#[cycle(plain)]
pub fn are_plain(items: &Items<Value>) -> bool
    ensures { result ≡ list_all is_plain items.now }
{
    for item in items.as_slice() {
        if !is_plain(item) {
            return false;
        }
    }
    true
}
