//! Arguments as keys: a whole decimal number stands for the whole number.
ghost use Rattle.std.specs.Prelude.{◌≡◌, map, pos};
ghost use Rattle.mx_value.specs.Normal.{normal_of, number_of};

use crate::fixed::Fixed;
use crate::value::Value;
use mx_list::items::Items;
use std::mem;

/// The raw number of 1.0.
const ONE: i128 = 1_000_000_000;

/// The items with each decimal number that is whole, in tuples too, turned into the whole number.
/// Works in place and takes no memory.
#[cycle(normal)]
pub fn normal(items: Items<Value>) -> Items<Value>
    ensures { result ≡ map normal_of items }
{
    let mut values = items.into_vec();
    for i in 0..values.len() {
        let value = mem::replace(&mut values[i], Value::Nothing);
        values[i] = normal_value(value);
    }
    Items::from_vec(values)
}

#[cycle(normal)]
fn normal_value(value: Value) -> Value
    ensures { result ≡ normal_of value }
{
    match value {
        Value::Fix(x) => number(x),
        Value::Tup(items) => Value::Tup(normal(items)),
        other => other,
    }
}

/// The whole number where `x` is whole, else `x`.
fn number(x: Fixed) -> Value
    ensures { result ≡ number_of x }
{
    let raw = x.raw();
    if raw % ONE == 0 {
        Value::Int((raw / ONE) as i64)
    } else {
        Value::Fix(x)
    }
}
