//! The table that a text says.
ghost use Rattle.std.specs.Prelude.{◌≡◌, ◌≢◌, ◌≤◌, ◌<◌, ◌⊎◌, length, map, drop, true, false, Ok, Err, IfOk, IfErr};
ghost use Rattle.csv.specs.Records.{fields_of};
ghost use Rattle.mx_tables.specs.Fronts.{front_said};
ghost use Rattle.mx_tables.specs.Numbers.{int_of};
ghost use Rattle.mx_tables.specs.Reading as spec;
ghost use Rattle.mx_tables.specs.Reading.{Answers, table_of, table_said, are_printable};

use crate::number::number_of;
use crate::records::{Records, read_records};
use csv::ByteRecord;
use mx_edit::table::{Table, TableRefusal};
use mx_list::items::Items;
use mx_value::label::{Label, LabelRefusal};
use mx_value::value::Value;
use std::alloc::{AllocError, Global};

/// The greatest number of columns.
const COLUMNS: usize = 120;

/// The greatest number of rows.
const ROWS: usize = 10_000;

/// A row: its key and the numbers behind it.
#[derive(Drop)]
pub struct Row {
    key: i64,
    numbers: Items<Value>,
}

/// The rows in front of the first record that says none by itself, and its trouble.
#[derive(Drop)]
pub struct Front {
    keys: Vec<i64>,
    rows: Vec<Items<Value>>,
    trouble: Option<TableRefusal>,
}

/// The table that a text says. Refused is the first of these that holds: more than 120 columns or 10,000 records behind
/// the header (`TooBig`); a header, record 0, that is missing or is no list of at least two names of 1 to 64 printable
/// bytes, each once (`BadRow`); and the first record with another number of fields (`BadRow`), a field that is no
/// number, with its column counted from 0 (`BadNumber`), or a key that is not whole or stands in an earlier record
/// (`BadRow`). Want of memory is `NoMemory`.
pub fn read_table(alloc: Global, text: &[u8]) -> Result<Table, TableRefusal>
    ensures { Answers result (table_of text.now) }
{
    match read_records(alloc, text) {
        Ok(records) => return read_whole(alloc, &records),
        Err(_) => return Err(TableRefusal::NoMemory),
    }
}

/// The table that records say.
fn read_whole(alloc: Global, records: &Records) -> Result<Table, TableRefusal>
    ensures { Answers result (table_said records.now) }
{
    let [header, more @ ..] = records.list.as_slice() else {
        return Err(TableRefusal::BadRow(0));
    };
    if header.len() > COLUMNS || more.len() > ROWS {
        return Err(TableRefusal::TooBig);
    }
    match read_header(alloc, header) {
        Ok(columns) => return read_rows(alloc, columns, more),
        Err(refusal) => return Err(refusal),
    }
}

/// The names of the columns.
fn read_header(alloc: Global, header: &ByteRecord) -> Result<Vec<Label>, TableRefusal>
    ensures names { IfOk result (λ names. names.items ≡ fields_of header.now) }
    ensures printable { IfOk result (λ names. are_printable (fields_of header.now) ≡ true) }
    ensures err { IfErr result
        (λ e. (e ≡ TableRefusal.NoMemory) ⊎ (e ≡ TableRefusal.BadRow 0)
        × (are_printable (fields_of header.now) ≡ false)) }
{
    let mut names = Vec::new(alloc);
    for place in 0..header.len() {
        let Some(field) = header.get(place) else {
            unreachable!();
        };
        match Label::new(alloc, field) {
            Ok(name) => match names.push(name) {
                Ok(()) => {}
                Err(_) => return Err(TableRefusal::NoMemory),
            },
            Err(LabelRefusal::NotPrintable(_)) => return Err(TableRefusal::BadRow(0)),
            Err(LabelRefusal::NoMemory) => return Err(TableRefusal::NoMemory),
        }
    }
    return Ok(names);
}

/// The table of these columns and of the rows that records say.
fn read_rows(
    alloc: Global,
    columns: Vec<Label>,
    records: &[ByteRecord],
) -> Result<Table, TableRefusal>
    requires narrow { length columns.items ≤ 120 }
    requires few { length records.now ≤ 10000 }
    ensures { Answers result (spec.body_said columns.items (map fields_of records.now)) }
{
    let Ok(front) = read_front(alloc, columns.len(), records) else {
        return Err(TableRefusal::NoMemory);
    };
    match Table::new(alloc, columns, front.keys, front.rows) {
        Err(refusal) => return Err(refusal),
        Ok(table) => match front.trouble {
            Some(refusal) => return Err(refusal),
            None => return Ok(table),
        },
    }
}

/// The rows in front of the first record that says none by itself.
fn read_front(alloc: Global, count: usize, records: &[ByteRecord]) -> Result<Front, AllocError>
    requires narrow { count ≤ 120 }
    requires few { length records.now ≤ 10000 }
    ensures keys { IfOk result
        (λ front. front.keys.items ≡ (front_said count 1 (map fields_of records.now)).keys) }
    ensures rows { IfOk result
        (λ front. front.rows.items ≡ (front_said count 1 (map fields_of records.now)).rows) }
    ensures trouble { IfOk result
        (λ front. front.trouble ≡ (front_said count 1 (map fields_of records.now)).trouble) }
{
    let mut keys = Vec::new(alloc);
    let mut rows = Vec::new(alloc);
    for (place, fields) in records.iter().enumerate() {
        match read_record(alloc, count, place as u32 + 1, fields) {
            Ok(row) => {
                keys.push(row.key)?;
                rows.push(row.numbers)?;
            }
            Err(refusal) => match refusal {
                TableRefusal::NoMemory => return Err(AllocError),
                _ => {
                    return Ok(Front {
                        keys,
                        rows,
                        trouble: Some(refusal),
                    });
                }
            },
        }
    }
    return Ok(Front {
        keys,
        rows,
        trouble: None,
    });
}

/// The row that a record of this number says by itself.
fn read_record(
    alloc: Global,
    count: usize,
    number: u32,
    fields: &ByteRecord,
) -> Result<Row, TableRefusal>
    requires { count ≤ 120 }
    ensures row { IfOk result
        (λ row. spec.record_said count number (fields_of fields.now)
        ≡ Ok (record { key = row.key; numbers = row.numbers })) }
    ensures err { IfErr result
        (λ e. (e ≡ TableRefusal.NoMemory) ⊎ (e ≢ TableRefusal.NoMemory)
        × (spec.record_said count number (fields_of fields.now) ≡ Err e)) }
{
    if fields.len() != count {
        return Err(TableRefusal::BadRow(number));
    }
    let Ok(said) = read_numbers(alloc, fields) else {
        return Err(TableRefusal::NoMemory);
    };
    match said {
        Err(column) => return Err(TableRefusal::BadNumber(number, column as u32)),
        Ok(numbers) => match key_of(fields) {
            Some(key) => return Ok(Row { key, numbers }),
            None => return Err(TableRefusal::BadRow(number)),
        },
    }
}

/// The numbers behind the key of a record, or the column of the first field that says none.
fn read_numbers(
    alloc: Global,
    fields: &ByteRecord,
) -> Result<Result<Items<Value>, usize>, AllocError>
    ensures said { IfOk result
        (λ said. said ≡ spec.numbers_said 1 (drop 1 (fields_of fields.now))) }
    ensures within { IfOk result
        (λ said. IfErr said (λ column. column < length (fields_of fields.now))) }
{
    let mut numbers = Items::new(alloc);
    for column in 1..fields.len() {
        let Some(field) = fields.get(column) else {
            unreachable!();
        };
        let Some(number) = number_of(field) else {
            return Ok(Err(column));
        };
        numbers.push(number)?;
    }
    return Ok(Ok(numbers));
}

/// The whole number that the first field says.
fn key_of(fields: &ByteRecord) -> Option<i64>
    ensures { result ≡ spec.key_field (fields_of fields.now) }
{
    let Some(field) = fields.get(0) else {
        return None;
    };
    let number = number_of(field);
    return int_of(&number);
}

fn int_of(number: &Option<Value>) -> Option<i64>
    ensures { result ≡ int_of number.now }
{
    match number {
        Some(Value::Int(n)) => Some(*n),
        _ => None,
    }
}
