//! Which values count as true.
ghost use Rattle.std.specs.Prelude.{◌≡◌};
ghost use Rattle.mx_ops.specs.Truth as spec;

use mx_value::fault::FaultKind;
use mx_value::value::Value;

/// Whether a value counts as true. TypeMismatch comes exactly for a space, cells and a table.
/// Takes no memory.
pub fn truth(value: &Value) -> Result<bool, FaultKind>
    ensures { result ≡ spec.truth value.now }
{
    match value {
        Value::Nothing => Ok(false),
        Value::Flag(flag) => Ok(*flag),
        Value::Int(n) => Ok(*n != 0),
        Value::Fix(x) => Ok(x.raw() != 0),
        Value::Text(text) => Ok(!text.is_empty()),
        Value::Tup(items) => Ok(!items.is_empty()),
        Value::Space(_) => Err(FaultKind::TypeMismatch),
        Value::Cells(_) => Err(FaultKind::TypeMismatch),
        Value::Table(_) => Err(FaultKind::TypeMismatch),
    }
}

/// Whether some value counts as true, from the left as far as one that does.
pub fn any_true(values: &[Value]) -> Result<bool, FaultKind>
    ensures { result ≡ spec.any_true values.now }
{
    for value in values {
        match truth(value) {
            Ok(false) => {}
            Ok(true) => return Ok(true),
            Err(kind) => return Err(kind),
        }
    }
    return Ok(false);
}

/// Whether all values count as true, from the left as far as one that does not.
pub fn all_true(values: &[Value]) -> Result<bool, FaultKind>
    ensures { result ≡ spec.all_true values.now }
{
    for value in values {
        match truth(value) {
            Ok(true) => {}
            Ok(false) => return Ok(false),
            Err(kind) => return Err(kind),
        }
    }
    return Ok(true);
}
