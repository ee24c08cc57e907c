//! The texts of why a project is not read or written.
ghost use Rattle.std.specs.Prelude.{◌≡◌, ◌++◌, codes, OnOk, IfOk};
ghost use Rattle.mx_project.specs.Refusals as spec;
ghost use Rattle.mx_project.specs.Refusals.{HasText};

use crate::refusal::ProjectRefusal;
use mx_edit::refusal::EditRefusal;
use mx_edit::table::TableRefusal;
use mx_grammar::refusal::ParseRefusal;
use mx_print::append::{push, push_number};
use mx_text::edit::push_edit_refusal;
use mx_text::parsing::push_parse_refusal;
use mx_text::table::push_table_refusal;
use mx_value::label::Label;
use std::alloc::{AllocError, Global};

/// Adds a word and the name of a file.
fn push_file(out: &mut Vec<u8>, word: &[u8], file: &Label) -> Result<(), AllocError>
    ensures { OnOk result (out.new.items ≡ out.old.items ++ (word.now ++ file.now)) }
{
    push(out, word)?;
    push(out, file.as_slice())
}

/// Adds a word, the name of a file and a line of it.
fn push_line(out: &mut Vec<u8>, word: &[u8], file: &Label, line: u32) -> Result<(), AllocError>
    ensures { OnOk result
        (out.new.items ≡ out.old.items ++ spec.line_text word.now file.now line) }
{
    push_file(out, word, file)?;
    push(out, b" ")?;
    push_number(out, line as u64)
}

/// Adds that the formula in a line is refused.
fn push_bad_formula(
    out: &mut Vec<u8>,
    file: &Label,
    line: u32,
    why: ParseRefusal,
) -> Result<(), AllocError>
    ensures { OnOk result
        (out.new.items ≡ out.old.items ++ spec.bad_formula_text file.now line why) }
{
    push_line(out, b"bad formula ", file, line)?;
    push(out, b": ")?;
    push_parse_refusal(out, why)
}

/// Adds that a file says no table.
fn push_bad_table(out: &mut Vec<u8>, file: &Label, why: TableRefusal) -> Result<(), AllocError>
    ensures { OnOk result (out.new.items ≡ out.old.items ++ spec.bad_table_text file.now why) }
{
    push_file(out, b"bad table ", file)?;
    push(out, b": ")?;
    push_table_refusal(out, why)
}

/// Adds that the edit of a line is refused.
fn push_refused(
    out: &mut Vec<u8>,
    file: &Label,
    line: u32,
    why: &EditRefusal,
) -> Result<(), AllocError>
    ensures { OnOk result
        (out.new.items ≡ out.old.items ++ spec.refused_text file.now line why.now) }
{
    push_line(out, b"refused ", file, line)?;
    push(out, b": ")?;
    push_edit_refusal(out, why)
}

/// Adds why a project is not read or written. Faults and want of memory are handed on: they have no text.
pub fn push_project_refusal(out: &mut Vec<u8>, refusal: &ProjectRefusal) -> Result<(), AllocError>
    ensures text { OnOk result
        (out.new.items ≡ out.old.items ++ spec.project_refusal_text refusal.now) }
    ensures told { OnOk result (HasText refusal.now) }
{
    match refusal {
        ProjectRefusal::Missing(file) => push_file(out, b"missing ", file),
        ProjectRefusal::TooBig(file) => push_file(out, b"too big ", file),
        ProjectRefusal::BadLine(file, line) => push_line(out, b"bad line ", file, *line),
        ProjectRefusal::BadFormula(file, line, why) => push_bad_formula(out, file, *line, *why),
        ProjectRefusal::BadTable(file, why) => push_bad_table(out, file, *why),
        ProjectRefusal::Refused(file, line, why) => push_refused(out, file, *line, why),
        _ => Err(AllocError),
    }
}

/// The text of why a project is not read or written.
pub fn text_of_project(alloc: Global, refusal: &ProjectRefusal) -> Result<Vec<u8>, AllocError>
    requires { HasText refusal.now }
    ensures { IfOk result (λ text. text.items ≡ spec.project_refusal_text refusal.now) }
{
    let mut text = Vec::new(alloc);
    push_project_refusal(&mut text, refusal)?;
    Ok(text)
}
