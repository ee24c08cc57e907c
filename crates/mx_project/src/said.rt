//! What the parts of a project's files say.
ghost use Rattle.std.specs.Prelude.{◌≡◌, ◌≤◌, length, Err, OnOk};
ghost use Rattle.std.specs.List.{list_any};
ghost use Rattle.mx_value.specs.Name.{same_name};
ghost use Rattle.mx_project.specs.Reading as spec;
ghost use Rattle.mx_project.specs.Reading.{UnlessFree};

use crate::refusal::ProjectRefusal;
use mx_edit::refusal::EditRefusal;
use mx_value::label::Label;
use mx_words::command::FormRefusal;
use std::alloc::AllocError;

/// The number of a line of a file, which has no more lines than bytes and one.
pub fn line_number(number: u64) -> u32
    requires { number ≤ 67108865 }
    ensures { result ≡ number }
{
    number as u32
}

/// Why a line of a file is no command of its words.
pub fn form_trouble(file: Label, line: u32, why: FormRefusal) -> ProjectRefusal
    ensures { result ≡ spec.form_trouble file line why }
{
    match why {
        FormRefusal::UnknownWord => ProjectRefusal::BadLine(file, line),
        FormRefusal::BadForm(_) => ProjectRefusal::BadLine(file, line),
        FormRefusal::Parse(trouble) => ProjectRefusal::BadFormula(file, line, trouble),
        FormRefusal::NoMemory => ProjectRefusal::NoMemory,
    }
}

/// The same for a file whose name is copied.
pub fn line_trouble(file: &Label, line: u32, why: FormRefusal) -> ProjectRefusal
    ensures { UnlessFree {A = Label} (λ answer.
        answer ≡ Err (spec.form_trouble file.now line why)) (Err result) }
{
    match file.copy() {
        Ok(file) => form_trouble(file, line, why),
        Err(_) => ProjectRefusal::NoMemory,
    }
}

/// Why the edit of a line is refused.
pub fn edit_trouble(file: &Label, line: u32, why: EditRefusal) -> ProjectRefusal
    ensures { UnlessFree {A = Label} (λ answer.
        answer ≡ Err (spec.edit_trouble file.now line why)) (Err result) }
{
    match why {
        EditRefusal::NoMemory => ProjectRefusal::NoMemory,
        why => match file.copy() {
            Ok(file) => ProjectRefusal::Refused(file, line, why),
            Err(_) => ProjectRefusal::NoMemory,
        },
    }
}

/// The place of the first line feed.
fn first_feed(bytes: &[u8]) -> Option<usize>
    ensures { result ≡ spec.first_feed bytes.now }
{
    bytes.iter().position(|byte| *byte == b'\n')
}

/// How many bytes stand before the first line feed.
fn first_length(bytes: &[u8]) -> usize
    ensures { result ≡ spec.first_length bytes.now }
{
    match first_feed(bytes) {
        Some(place) => return place,
        None => return bytes.len(),
    }
}

/// The first line of a file.
pub fn first_of(bytes: &[u8]) -> &[u8]
    ensures { result.now ≡ spec.first_of bytes.now }
{
    let end = first_length(bytes);
    match bytes.get(..end) {
        Some(line) => return line,
        None => return bytes,
    }
}

/// What stands behind the first line of a file.
pub fn behind_first(bytes: &[u8]) -> &[u8]
    ensures rest { result.now ≡ spec.behind_first bytes.now }
    ensures within { length result.now ≤ length bytes.now }
{
    let end = first_length(bytes);
    if end >= bytes.len() {
        return &[];
    }
    return &bytes[end + 1..];
}

/// Whether two names are the same.
fn same_name(name: &Label, other: &Label) -> bool
    ensures { result ≡ same_name name.now other.now }
{
    name.as_slice() == other.as_slice()
}

/// Whether a name stands among these.
fn is_named(names: &[Label], name: &Label) -> bool
    ensures { result ≡ list_any (same_name name.now) names.now }
{
    names.iter().any(|other| same_name(name, other))
}

/// Adds a name to the names of tables, if it does not stand there already.
pub fn add_name(names: &mut Vec<Label>, name: Label) -> Result<(), AllocError>
    ensures { OnOk result (names.new.items ≡ spec.with_name names.old.items name) }
{
    if is_named(names.as_slice(), &name) {
        return Ok(());
    }
    names.push(name)?;
    return Ok(());
}
