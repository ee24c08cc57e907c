//! What the fields, the records and the tables of a text say.

use crate::said::{Reader, compare, is};
use mx_edit::table::Table;
use mx_print::append::{push, push_int};
use mx_print::value::push_value;
use mx_tables::number::number_of;
use mx_tables::read::read_table;
use mx_tables::records::{Records, read_records, write_records};
use mx_tables::write::write_table;
use mx_text::table::push_table_refusal;
use mx_value::label::Label;
use std::alloc::{AllocError, Global};
use std::test::Fail;

const NUMBERS: [(&[u8], &str); 28] = [
    (b"0", "0"),
    (b"-0", "0"),
    (b"30", "30"),
    (b"-7", "-7"),
    (b"9223372036854775807", "9223372036854775807"),
    (b"-9223372036854775808", "-9223372036854775808"),
    (b"0.0", "0.0"),
    (b"-0.0", "0.0"),
    (b"0.0025", "0.0025"),
    (b"-12.5", "-12.5"),
    (b"0.000000001", "0.000000001"),
    (b"10000000000.0", "10000000000.0"),
    (b"", "none"),
    (b"-", "none"),
    (b"x", "none"),
    (b" 1", "none"),
    (b"1 ", "none"),
    (b"+1", "none"),
    (b"--1", "none"),
    (b"00", "none"),
    (b"01.5", "none"),
    (b"1.", "none"),
    (b".5", "none"),
    (b"1.0000000000", "none"),
    (b"1e5", "none"),
    (b"1.5.2", "none"),
    (b"9223372036854775808", "none"),
    (b"10000000000.000000001", "none"),
];

/// Records as they are written again.
const RECORDS: [(&[u8], &str); 1] = [(
    b"\xEF\xBB\xBFage,rate\n30,0.0025\n\n40,x\r\n\"a\"\"b\",\"c\n\"\rlast,",
    "age,rate\n30,0.0025\n40,x\n\"a\"\"b\",\"c\n\"\nlast,\n",
)];

/// Tables as they are written again, or their refusals.
const TABLES: [(&[u8], &str); 15] = [
    (b"age,rate\n30,0.5\n", "age,rate\n30,0.5\n"),
    (b"age,rate\n", "age,rate\n"),
    (
        b"age,rate\r\n30,1\r\n\r\n31,-2.50\r\n",
        "age,rate\n30,1\n31,-2.5\n",
    ),
    (b"age,\"a b\"\n30,1", "age,a b\n30,1\n"),
    (
        b"age,\"a \"\"rate\"\", net\"\n-30,0.0025\n",
        "age,\"a \"\"rate\"\", net\"\n-30,0.0025\n",
    ),
    (b"age,rate\n30,1\n30,2\n", "bad row 2"),
    (b"age,rate\n30,25\n40,75\n30,1\n", "bad row 3"),
    (b"age,rate\n30,x\n", "bad number 1 1"),
    (b"age,rate\n30,1\n\n31,01\n", "bad number 2 1"),
    (b"age,rate\n30,1,2\n", "bad row 1"),
    (b"age,rate\n1.5,2\n", "bad row 1"),
    (b"age,rate\n30,1\n30,x\n", "bad number 2 1"),
    (b"age\n30\n", "bad row 0"),
    (b"age,age\n30,1\n", "bad row 0"),
    (b"", "bad row 0"),
];

/// The number that a field says.
pub(crate) fn push_number_of(out: &mut Vec<u8>, field: &[u8]) -> Result<(), AllocError> {
    match number_of(field) {
        Some(number) => push_value(out, &number),
        None => push(out, b"none"),
    }
}

fn push_written(alloc: Global, out: &mut Vec<u8>, records: &Records) -> Result<(), AllocError> {
    match write_records(alloc, records) {
        Ok(text) => push(out, &text),
        Err(_) => Err(AllocError),
    }
}

/// The records of a text.
pub(crate) fn push_records(
    alloc: Global,
    out: &mut Vec<u8>,
    text: &[u8],
) -> Result<(), AllocError> {
    match read_records(alloc, text) {
        Ok(records) => push_written(alloc, out, &records),
        Err(_) => Err(AllocError),
    }
}

fn push_rows(alloc: Global, out: &mut Vec<u8>, table: &Table) -> Result<(), AllocError> {
    match write_table(alloc, table) {
        Ok(text) => push(out, &text),
        Err(_) => Err(AllocError),
    }
}

/// The table that a text says.
pub(crate) fn push_table(alloc: Global, out: &mut Vec<u8>, text: &[u8]) -> Result<(), AllocError> {
    match read_table(alloc, text) {
        Ok(table) => push_rows(alloc, out, &table),
        Err(refusal) => push_table_refusal(out, refusal),
    }
}

#[test]
fn fields_say_numbers_or_none(rt: HostRuntime) -> Result<(), Fail> {
    compare(&rt, rt.alloc(), Reader::Number, &NUMBERS)
}

#[test]
fn blank_lines_are_no_records_and_each_line_ends_with_a_line_feed(
    rt: HostRuntime,
) -> Result<(), Fail> {
    compare(&rt, rt.alloc(), Reader::Records, &RECORDS)
}

#[test]
fn a_text_says_a_table_or_its_first_trouble(rt: HostRuntime) -> Result<(), Fail> {
    compare(&rt, rt.alloc(), Reader::Table, &TABLES)
}

/// Names of columns and keys.
const ENTRIES: [(&[u8], i64); 4] = [(b"rate", 30), (b"rate", 40), (b"rate", 50), (b"age", 40)];

/// What stands in a row and a column of a table.
fn push_entry(
    out: &mut Vec<u8>,
    table: &Table,
    key: i64,
    column: &Label,
) -> Result<(), AllocError> {
    match table.at(key, column) {
        Some(value) => push_value(out, value)?,
        None => push(out, b"none")?,
    }
    push(out, b"\n")
}

fn push_entries(
    alloc: Global,
    out: &mut Vec<u8>,
    table: &Table,
    entries: &[(&[u8], i64)],
) -> Result<(), Fail> {
    for (column, key) in entries {
        let column = Label::new(alloc, column)?;
        push_entry(out, table, *key, &column)?;
    }
    Ok(())
}

/// The column and the key at a place of a table.
fn push_place(out: &mut Vec<u8>, table: &Table, place: u32) -> Result<(), AllocError> {
    match table.column_at(place) {
        Some(column) => push(out, column.as_slice())?,
        None => push(out, b"none")?,
    }
    match table.key_at(place) {
        Some(key) => {
            push(out, b" ")?;
            push_int(out, key)?;
        }
        None => push(out, b" none")?,
    }
    push(out, b"\n")
}

/// What a table gives at its places and at some entries.
fn push_parts(alloc: Global, out: &mut Vec<u8>, table: &Table) -> Result<(), Fail> {
    for place in 0..3 {
        push_place(out, table, place)?;
    }
    push_entries(alloc, out, table, &ENTRIES)
}

#[test]
fn a_table_gives_its_columns_its_keys_and_what_stands_in_a_row(
    rt: HostRuntime,
) -> Result<(), Fail> {
    let table = read_table(rt.alloc(), b"age,rate\n30,25\n40,75\n")?;
    let mut out = Vec::new(rt.alloc());
    push_parts(rt.alloc(), &mut out, &table)?;
    is(
        &rt,
        &out,
        "age 30\nrate 40\nnone none\n25\n75\nnone\nnone\n",
    );
    Ok(())
}

#[test]
fn a_copy_of_a_table_gives_the_same(rt: HostRuntime) -> Result<(), Fail> {
    let table = read_table(rt.alloc(), b"age,\"a \"\"rate\"\", net\"\n-30,0.0025\n")?;
    let mut out = Vec::new(rt.alloc());
    push_rows(rt.alloc(), &mut out, &table.copy()?)?;
    push_place(&mut out, &table, 1)?;
    is(
        &rt,
        &out,
        "age,\"a \"\"rate\"\", net\"\n-30,0.0025\na \"rate\", net none\n",
    );
    Ok(())
}
