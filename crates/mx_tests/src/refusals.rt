//! The texts that no script comes to: of tables, and of a memory that is full.

use crate::said::is;
use mx_edit::table::TableRefusal;
use mx_text::evaluation::push_refusal;
use mx_text::reads::push_read;
use mx_text::table::text_of_table;
use mx_text::value::text_of;
use mx_value::label::Label;
use mx_value::read::Read;
use mx_value::refusal::EvalRefusal;
use mx_value::value::Value;
use std::test::Fail;

#[test]
fn tables_are_refused_at_a_record(rt: HostRuntime) -> Result<(), Fail> {
    let big = text_of_table(rt.alloc(), TableRefusal::TooBig)?;
    is(&rt, &big, "too big");
    let row = text_of_table(rt.alloc(), TableRefusal::BadRow(3))?;
    is(&rt, &row, "bad row 3");
    let number = text_of_table(rt.alloc(), TableRefusal::BadNumber(2, 1))?;
    is(&rt, &number, "bad number 2 1");
    Ok(())
}

#[test]
fn a_table_is_a_value_with_a_text(rt: HostRuntime) -> Result<(), Fail> {
    let table = Value::Table(Label::new(rt.alloc(), b"mort")?);
    is(&rt, &text_of(rt.alloc(), &table)?, "<table mort>");
    Ok(())
}

#[test]
fn a_table_is_read_by_its_name(rt: HostRuntime) -> Result<(), Fail> {
    let table = Read::Table(Label::new(rt.alloc(), b"mort")?);
    let mut out = Vec::new(rt.alloc());
    push_read(rt.alloc(), &mut out, &table)?;
    is(&rt, &out, "table mort");
    Ok(())
}

#[test]
fn no_room_is_full(rt: HostRuntime) -> Result<(), Fail> {
    let mut out = Vec::new(rt.alloc());
    push_refusal(&mut out, &EvalRefusal::Full)?;
    is(&rt, &out, "full");
    Ok(())
}
