//! What values hold: the items of tuples and the bytes of texts.
ghost use Rattle.std.specs.Prelude.{◌≡◌, All, IfSome, MatchOption};
ghost use Rattle.mx_value.specs.Label.{IsPrintable};
ghost use Rattle.mx_ops.specs.Kinds as spec;

use mx_list::items::Items;
use mx_value::value::Value;

/// The items of a tuple.
pub fn items_of(value: &Value) -> Option<&Items<Value>>
    ensures { MatchOption result (spec.items_of value.now ≡ None)
        (λ items. spec.items_of value.now ≡ Some items.now) }
{
    match value {
        Value::Tup(items) => Some(items),
        Value::Nothing => None,
        Value::Flag(_) => None,
        Value::Int(_) => None,
        Value::Fix(_) => None,
        Value::Text(_) => None,
        Value::Space(_) => None,
        Value::Cells(_) => None,
        Value::Table(_) => None,
    }
}

/// The bytes of a text.
pub fn bytes_of(value: &Value) -> Option<&[u8]>
    ensures value { MatchOption result (spec.bytes_of value.now ≡ None)
        (λ bytes. spec.bytes_of value.now ≡ Some bytes.now) }
    ensures printable { IfSome result (λ bytes. All IsPrintable bytes.now) }
{
    match value {
        Value::Text(text) => Some(text.as_slice()),
        Value::Nothing => None,
        Value::Flag(_) => None,
        Value::Int(_) => None,
        Value::Fix(_) => None,
        Value::Tup(_) => None,
        Value::Space(_) => None,
        Value::Cells(_) => None,
        Value::Table(_) => None,
    }
}
