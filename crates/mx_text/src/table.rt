//! Why rows are no table.
ghost use Rattle.std.specs.Prelude.{◌≡◌, ◌≢◌, ◌++◌, codes, OnOk, IfOk};
ghost use Rattle.mx_text.specs.Table.{table_refusal_text};

use crate::counted::push_counted;
use mx_edit::table::TableRefusal;
use mx_print::append::push;
use std::alloc::{AllocError, Global};

/// Adds why rows are no table. Rows are counted from 1 behind the head, columns from 0. Want of memory is handed on: it has
/// no text.
pub fn push_table_refusal(out: &mut Vec<u8>, refusal: TableRefusal) -> Result<(), AllocError>
    ensures text { OnOk result (out.new.items ≡ out.old.items ++ table_refusal_text refusal) }
    ensures memory { OnOk result (refusal ≢ TableRefusal.NoMemory) }
{
    match refusal {
        TableRefusal::TooBig => push(out, b"too big"),
        TableRefusal::BadRow(row) => push_counted(out, b"bad row ", row),
        TableRefusal::BadNumber(row, column) => {
            push_counted(out, b"bad number ", row)?;
            push_counted(out, b" ", column)
        }
        TableRefusal::NoMemory => Err(AllocError),
    }
}

/// The text of why rows are no table.
pub fn text_of_table(alloc: Global, refusal: TableRefusal) -> Result<Vec<u8>, AllocError>
    requires { refusal ≢ TableRefusal.NoMemory }
    ensures { IfOk result (λ text. text.items ≡ table_refusal_text refusal) }
{
    let mut text = Vec::new(alloc);
    push_table_refusal(&mut text, refusal)?;
    Ok(text)
}
