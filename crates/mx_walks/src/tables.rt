//! Subscripts of tables.
ghost use Rattle.std.specs.Prelude.{◌≡◌, option_copied, IfOk};
ghost use Rattle.mx_meaning.specs.Calls.{entry, entry_of, row_key};
ghost use Rattle.mx_model.specs.Keys.{key_result};
ghost use Rattle.mx_value.specs.Normal.{number_of};
ghost use Rattle.mx_ops.specs.Answers.{Answers};
ghost use Rattle.mx_ops.specs.Builtins.{or_no_index};
ghost use Rattle.mx_ops.specs.Kinds.{bytes_of};
ghost use Rattle.mx_ops.specs.Numbers.{whole_of};
ghost use Rattle.mx_code_law.specs.Calling.{table_next};
ghost use Rattle.mx_walks.specs.Calls.{Comes};

use crate::called::{Called, leave_given};
use mx_edit::key::Key;
use mx_edit::table::Table;
use mx_ops::number::whole_of;
use mx_ops::op::OpRefusal;
use mx_read_set::seen::Seen;
use mx_value::fault::FaultKind;
use mx_value::fixed::Fixed;
use mx_value::label::Label;
use mx_value::read::Read;
use mx_value::value::Value;
use mx_world::world::World;
use std::alloc::{AllocError, Global};

/// The entry of a table. The table counts as read, and its key too, before the subscripts are
/// tested.
pub fn look_in_table(
    alloc: Global,
    world: &World,
    name: &Label,
    subscripts: &[Value],
    seen: &mut Seen,
) -> Result<Called, AllocError>
    ensures { IfOk result (λ called. Comes (key_result world.now)
        (λ h line again to. table_next h name.now subscripts.now line to)
        called seen.old seen.new) }
{
    seen.note(Read::Table(name.copy()?))?;
    seen.look(Key::Table(name.copy()?))?;
    match world.table(name) {
        Some(table) => return leave_given(entry_of(alloc, table, subscripts)),
        None => return Ok(Called::Faults(FaultKind::NoIndex)),
    }
}

/// The entry of a table at the key of a row and the name of a column.
fn entry_of(alloc: Global, table: &Table, subscripts: &[Value]) -> Result<Value, OpRefusal>
    ensures { Answers result (entry_of table.now subscripts.now) }
{
    match subscripts {
        [row, column] => return entry(alloc, table, row, column),
        _ => return Err(OpRefusal::Fault(FaultKind::TypeMismatch)),
    }
}

/// The entry of a table in the row of a value and the column of another.
fn entry(alloc: Global, table: &Table, row: &Value, column: &Value) -> Result<Value, OpRefusal>
    ensures { Answers result (entry table.now (row_key row.now) (bytes_of column.now)) }
{
    let Some(key) = row_key(row) else {
        return Err(OpRefusal::Fault(FaultKind::TypeMismatch));
    };
    match column {
        Value::Text(name) => return copy_entry(alloc, table.at(key, name)),
        _ => return Err(OpRefusal::Fault(FaultKind::TypeMismatch)),
    }
}

/// An equal entry, where there is one.
fn copy_entry(alloc: Global, found: Option<&Value>) -> Result<Value, OpRefusal>
    ensures { Answers result (or_no_index (option_copied found.entry)) }
{
    let Some(value) = found else {
        return Err(OpRefusal::Fault(FaultKind::NoIndex));
    };
    match value.copy(alloc) {
        Ok(copy) => return Ok(copy),
        Err(_) => return Err(OpRefusal::NoMemory),
    }
}

/// The raw number of 1.0.
const ONE: i128 = 1_000_000_000;

/// The key of a row: a whole number, a flag or a whole decimal number.
fn row_key(value: &Value) -> Option<i64>
    ensures { result ≡ row_key value.now }
{
    match value {
        Value::Fix(x) => return whole_part(*x),
        _ => return whole_of(value),
    }
}

/// A decimal number that is whole.
fn whole_part(number: Fixed) -> Option<i64>
    ensures { result ≡ whole_of (number_of number) }
{
    let raw = number.raw();
    if raw % ONE == 0 {
        Some((raw / ONE) as i64)
    } else {
        None
    }
}
