//! The text of a table.
ghost use Rattle.std.specs.Prelude.{◌≡◌, ◌∷◌, [], IfOk, map};
ghost use Rattle.csv.specs.Records.{fields_of};
ghost use Rattle.mx_tables.specs.Writing.{row_record, row_records, table_records, table_text};

use crate::records::{NoMemory, Records, write_records};
use csv::ByteRecord;
use mx_edit::table::Table;
use mx_list::items::Items;
use mx_print::append::push_int;
use mx_print::value::push_value;
use mx_value::label::Label;
use mx_value::value::Value;
use std::alloc::{AllocError, Global};

/// The text of a table: the names of the columns, and then a line for each row, each line ended by a line feed.
pub fn write_table(alloc: Global, table: &Table) -> Result<Vec<u8>, NoMemory>
    ensures { IfOk result (λ text. text.items ≡ table_text table.now) }
{
    let mut list = Vec::new(alloc);
    list.push(header_record(alloc, table.columns())?)?;
    for (place, numbers) in table.rows().iter().enumerate() {
        let Some(key) = table.keys().get(place) else {
            break;
        };
        list.push(row_record(alloc, *key, numbers.as_slice())?)?;
    }
    write_records(alloc, &Records { list })
}

/// The names as a record.
fn header_record(alloc: Global, names: &[Label]) -> Result<ByteRecord, AllocError>
    ensures { IfOk result (λ row. fields_of row ≡ names.now) }
{
    let mut row = ByteRecord::new(alloc);
    for name in names {
        row.push_field(name.as_slice())?;
    }
    Ok(row)
}

/// A row as a record.
fn row_record(alloc: Global, key: i64, numbers: &[Value]) -> Result<ByteRecord, AllocError>
    ensures { IfOk result (λ row. fields_of row ≡ row_record key numbers.now) }
{
    let mut row = ByteRecord::new(alloc);
    let mut field = Vec::new(alloc);
    push_int(&mut field, key)?;
    row.push_field(field.as_slice())?;
    for number in numbers {
        field.clear();
        push_value(&mut field, number)?;
        row.push_field(field.as_slice())?;
    }
    Ok(row)
}
