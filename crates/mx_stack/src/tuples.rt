//! Tuples that are made of values.
ghost use Rattle.std.specs.Prelude.{◌≡◌};
ghost use Rattle.mx_value.specs.declared.value.Value.TheVariants as variant;
ghost use Rattle.mx_ops.specs.Answers.{made};

use mx_list::items::Items;
use mx_value::fault::FaultKind;
use mx_value::nesting::nesting_of_value;
use mx_value::size::size_of_value;
use mx_value::value::Value;

/// The greatest size of a value.
const MOST_SIZE: u64 = 1_000_000;

/// The greatest nesting of a value.
const MOST_NESTING: u32 = 64;

/// The tuple of some values. TooLarge comes exactly where it is larger or nested deeper than a value
/// may be.
pub fn make_tuple(items: Items<Value>) -> Result<Value, FaultKind>
    ensures { result ≡ made (variant.Tup items) }
{
    let tuple = Value::Tup(items);
    if size_of_value(&tuple) <= MOST_SIZE && nesting_of_value(&tuple) <= MOST_NESTING {
        return Ok(tuple);
    }
    Err(FaultKind::TooLarge)
}
